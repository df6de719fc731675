//! Laws: the server's answers to fetches and to the closing scan, against a session's record.
ghost use Rattle.tao_images.specs.AnswerLaws.{FetchIsTaken, LeafIsTaken, FetchIsRead, LeafIsRead, ReadIsLatest, ScanReadsFirstMet, FetchMayFail, LeafMayFail, FetchMayBeDone, DoneHasTags, WrittenIsUnforged, UnalteredIsHonest};

/// An answer to a fetch is taken exactly if it holds the latest versions of the nodes that the proxy doesn't hold.
pub fn fetch_is_taken()
    ensures { FetchIsTaken }
{}

/// An answer to the closing scan is taken exactly if it holds the latest versions of the nodes that are read at its leaf.
pub fn leaf_is_taken()
    ensures { LeafIsTaken }
{}

/// What is read from an answer to a fetch that is taken.
pub fn fetch_is_read()
    ensures { FetchIsRead }
{}

/// What is read from an answer to the closing scan that is taken.
pub fn leaf_is_read()
    ensures { LeafIsRead }
{}

/// Buckets that are read have the latest versions of their nodes, and those versions' tags.
pub fn read_is_latest()
    ensures { ReadIsLatest }
{}

/// At a leaf the scan reads the nodes that no earlier leaf's path has and the proxy doesn't hold.
pub fn scan_reads_first_met()
    ensures { ScanReadsFirstMet }
{}

/// A session may end with the refusal of an answer to a fetch under way.
pub fn fetch_may_fail()
    ensures { FetchMayFail }
{}

/// A session that is done and acknowledged may end with the refusal of an answer to the closing scan.
pub fn leaf_may_fail()
    ensures { LeafMayFail }
{}

/// The Done of a fetch under way may have the buckets that were read from its answer.
pub fn fetch_may_be_done()
    ensures { FetchMayBeDone }
{}

/// The buckets of each Done have the tags of their nodes' latest versions.
pub fn done_has_tags()
    ensures { DoneHasTags }
{}

/// A bucket that comes back as it was written is no forgery.
pub fn written_is_unforged()
    ensures { WrittenIsUnforged }
{}

/// Without forgeries, each fetched bucket has the entries that were written.
pub fn unaltered_is_honest()
    ensures { UnalteredIsHonest }
{}
