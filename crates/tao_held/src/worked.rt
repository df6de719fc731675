//! Worked records: what is held and answered.
ghost use Rattle.tao_held.specs.WorkedHeld.{OneReadHolds, TwoFetchesHold, WritesAreAnswered, CopiesThatCount, WorkedAreOfProxy};

/// One read of the one block, which lies in its leaf.
pub fn one_read_holds()
    ensures { OneReadHolds }
{}

/// Two fetches of a period of three.
pub fn two_fetches_hold()
    ensures { TwoFetchesHold }
{}

/// A write between two reads, and three requests of one block under way at once.
pub fn writes_are_answered()
    ensures { WritesAreAnswered }
{}

/// Two worked records are a proxy's.
pub fn worked_are_of_proxy()
    ensures { WorkedAreOfProxy }
{}

/// The copy in the stash counts, and a held node isn't fetched again.
pub fn copies_that_count()
    ensures { CopiesThatCount }
{}
