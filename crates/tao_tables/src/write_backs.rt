//! Laws: what is kept of the write-backs.
ghost use Rattle.tao_tables.specs.WriteBacks.{WritesAreTold, WritesAtStart, OneRisingList, RecentIsShort, IssueMayFollow, BucketThere, NoncesAreFew};

/// A Done adds its path, a write-back starts the next list.
pub fn writes_are_told()
    ensures { WritesAreTold }
{}

/// At the start nothing was written but the load.
pub fn writes_at_start()
    ensures { WritesAtStart }
{}

/// A strictly rising list with the members of another one is that list.
pub fn one_rising_list()
    ensures { OneRisingList }
{}

/// The nodes of the next write-back rise and are few.
pub fn recent_is_short()
    ensures { RecentIsShort }
{}

/// The recent nodes, stamped, may be written if a period is full.
pub fn issue_may_follow()
    ensures { IssueMayFollow }
{}

/// A list of buckets has a bucket of just those nodes that are its buckets' nodes.
pub fn bucket_there()
    ensures { BucketThere }
{}

/// No write-back has more buckets than the tree has nodes.
pub fn nonces_are_few()
    ensures { NoncesAreFew }
{}
