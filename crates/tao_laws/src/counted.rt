//! Laws: the counts of a lawful record, and their bounds.
ghost use Rattle.tao_laws.specs.Counted.{AcksAreCounted, WorkIsCounted, QuietIsCounted};

/// There are as many acknowledgements as acknowledged versions.
pub fn acks_are_counted()
    ensures { AcksAreCounted }
{}

/// There are as many Dones as done arrivals. Dones, write-backs and arrivals stay within each other's bounds and within the limit.
pub fn work_is_counted()
    ensures { WorkIsCounted }
{}

/// Where nothing is under way or outstanding, the counts are equal. So a session that isn't quiet is told by its counts.
pub fn quiet_is_counted()
    ensures { QuietIsCounted }
{}
