//! What follows from the definitions alone.
ghost use Rattle.tao_tree.specs.Nodes.{ReachFits};
ghost use Rattle.tao_tree.specs.Streams.{StreamFits};
ghost use Rattle.tao_tree.specs.Writes.{NewestStays};

/// After any list of writes each node holds the first one of greatest version, whatever was written at the others.
pub fn newest_stays()
    ensures { NewestStays }
{}

/// A link to a tree of these parameters is a link for them.
pub fn reach_fits()
    ensures { ReachFits }
{}

/// A link over a stream that was made with these parameters is a link for them.
pub fn stream_fits()
    ensures { StreamFits }
{}
