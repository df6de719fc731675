//! Laws: fresh copy as a count.
ghost use Rattle.tao_contents.specs.Counting.{FreshCopyCounts};

/// Fresh copy means exactly one entry of each block in the stash and all nodes, with its value, on its path.
pub fn fresh_copy_counts()
    ensures { FreshCopyCounts }
{}
