//! Laws: what the look-back functions mean for the whole record.
ghost use Rattle.tao_model.specs.LookBacks.{LastTouchIsLast, TouchedAreNodes, NewestIsGreatest, WrittenStays, IssueIsWritten, IssuedIsWritten, RealMeans, SettlerIsLast, RealFetchesLast, FakeFetchesOwn, PositionIsLast, ReleasedIsGreatest, OpsArrived, ArrayIsFold, ReplyIsPlain};

/// The last touch of a node is the last Done whose path has it.
pub fn last_touch_is_last()
    ensures { LastTouchIsLast }
{}

/// The nodes touched after a Done are those on the paths of the later Dones: the nodes of a write-back.
pub fn touched_are_nodes()
    ensures { TouchedAreNodes }
{}

/// The latest version of a node is the greatest that has it.
pub fn newest_is_greatest()
    ensures { NewestIsGreatest }
{}

/// What was written under a version stays as it was. So the order of that version can be made again at any time.
pub fn written_stays()
    ensures { WrittenStays }
{}

/// A write-back is written under its version.
pub fn issue_is_written()
    ensures { IssueIsWritten }
{}

/// A version has exactly the nodes that were written under it.
pub fn issued_is_written()
    ensures { IssuedIsWritten }
{}

/// An arrival on a block is real exactly if every earlier real one on it is done.
pub fn real_means()
    ensures { RealMeans }
{}

/// An arrival is settled by the last real arrival on its block up to it.
pub fn settler_is_last()
    ensures { SettlerIsLast }
{}

/// A real arrival fetches the leaf that the previous real arrival on its block assigned.
pub fn real_fetches_last()
    ensures { RealFetchesLast }
{}

/// A fake arrival fetches the leaf of its own word.
pub fn fake_fetches_own()
    ensures { FakeFetchesOwn }
{}

/// A block's position is the leaf of the last real arrival on it that is done.
pub fn position_is_last()
    ensures { PositionIsLast }
{}

/// Answers are released up to the first arrival that isn't done.
pub fn released_is_greatest()
    ensures { ReleasedIsGreatest }
{}

/// There are as many operations as arrivals.
pub fn ops_arrived()
    ensures { OpsArrived }
{}

/// The current array is the first one after all operations.
pub fn array_is_fold()
    ensures { ArrayIsFold }
{}

/// An arrival's plain reply is what the array answers after the operations before it.
pub fn reply_is_plain()
    ensures { ReplyIsPlain }
{}
