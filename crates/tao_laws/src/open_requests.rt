//! Laws: what is known while a real arrival is under way, and when none is.
ghost use Rattle.tao_laws.specs.OpenRequests.{OneReal, WordsAreHandedOn, LeafIsPosition, QueueOfBlock, QuietIsSettled, ReleasedIsSettled, RightValue};

/// At most one real arrival on a block is under way. So one Done settles a whole queue.
pub fn one_real()
    ensures { OneReal }
{}

/// Each real arrival hands its word on to the next one on its block. So the position map needs one word for each block.
pub fn words_are_handed_on()
    ensures { WordsAreHandedOn }
{}

/// A real arrival fetches the path of its block's position. So its block is on that path or in the stash.
pub fn leaf_is_position()
    ensures { LeafIsPosition }
{}

/// The queue of a block starts with the real arrival under way. So its Done answers just this queue.
pub fn queue_of_block()
    ensures { QueueOfBlock }
{}

/// If no real arrival is under way, all arrivals are settled. So a quiet session has answered every arrival.
pub fn quiet_is_settled()
    ensures { QuietIsSettled }
{}

/// Released arrivals are settled. So there is an answer for each of them.
pub fn released_is_settled()
    ensures { ReleasedIsSettled }
{}

/// A real fetch must find its plain reply. So replies, and the final array, are those of the plain array.
pub fn right_value()
    ensures { RightValue }
{}
