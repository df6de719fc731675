//! Laws: contents that agree at every node.
ghost use Rattle.tao_held.specs.HeldLaws.{EvictedAlike, FetchedAlike, PutIs, PutIsGathered};

/// An eviction depends only on the leaves of the gathered blocks. So it needs the positions of those alone.
pub fn evicted_alike()
    ensures { EvictedAlike }
{}

/// A whole fetch too.
pub fn fetched_alike()
    ensures { FetchedAlike }
{}

/// A put changes one value of the stash and nothing else.
pub fn put_is()
    ensures { PutIs }
{}

/// A list in order that differs in one block's value only is the old one with that value put, whatever the old one's order is.
pub fn put_is_gathered()
    ensures { PutIsGathered }
{}
