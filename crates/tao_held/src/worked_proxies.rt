//! Worked proxies' records: what is answered, written and refused.
ghost use Rattle.tao_held.specs.WorkedProxies.{OverlappingWriteHolds, VersionsAreTold, AlteredIsAnswered, OnlyTrueWrites};

/// A write that overlaps a read, and a pad.
pub fn overlapping_write_holds()
    ensures { OverlappingWriteHolds }
{}

/// The latest versions of its nodes, and which nodes are recent.
pub fn versions_are_told()
    ensures { VersionsAreTold }
{}

/// A block in an altered bucket is found and answered as it came.
pub fn altered_is_answered()
    ensures { AlteredIsAnswered }
{}

/// A lawful write-back of anything but what is held is none of a proxy's.
pub fn only_true_writes()
    ensures { OnlyTrueWrites }
{}
