//! Worked records: their transcripts, fetched leaves and residents are those worked out by hand.
ghost use Rattle.tao_model.specs.Worked.{OneRead, ReadWriteRead, FullPath, OverlappingRequests, WriteBacksOutOfOrder, KeptUnderAFetch, NoWriteBackBeforeThePeriod, RootIsKept, AllIsHeld};
ghost use Rattle.tao_model.specs.WorkedLawful.{WorkedAreLawful};

/// One read of the one block, which lies in its leaf.
pub fn one_read()
    ensures { OneRead }
{}

/// Read, write, read of one block: each fetch goes where the previous one put the block.
pub fn read_write_read()
    ensures { ReadWriteRead }
{}

/// Four blocks on one path of three nodes: one stays in the stash.
pub fn full_path()
    ensures { FullPath }
{}

/// Three requests of one block under way at once: the later two are fake, and the first one's Done releases all.
pub fn overlapping_requests()
    ensures whole { OverlappingRequests }
    ensures part { AllIsHeld }
{}

/// Two write-backs, the later acknowledged first.
pub fn write_backs_out_of_order()
    ensures { WriteBacksOutOfOrder }
{}

/// An acknowledgement that keeps the root, since a fetch covers it.
pub fn kept_under_a_fetch()
    ensures whole { KeptUnderAFetch }
    ensures part { RootIsKept }
{}

/// Two fetches of a period of three: nothing is written back.
pub fn no_write_back_before_the_period()
    ensures { NoWriteBackBeforeThePeriod }
{}

/// All worked records are lawful.
pub fn worked_are_lawful()
    ensures { WorkedAreLawful }
{}
