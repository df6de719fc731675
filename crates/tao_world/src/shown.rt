//! Laws of what is shown.
ghost use Rattle.tao_world.specs.Laws.{AnswerIsNewest, LeafIsNewest, TreeIsNewest, ShowsInStep, WholeIsHonest};

/// Answers hold the latest versions, so none is refused.
pub fn answer_is_newest()
    ensures { AnswerIsNewest }
{}

/// So does what the closing scan reads.
pub fn leaf_is_newest()
    ensures { LeafIsNewest }
{}

/// In the end the tree holds the latest version of every node.
pub fn tree_is_newest()
    ensures { TreeIsNewest }
{}

/// The server and the proxy are in step.
pub fn shows_in_step()
    ensures { ShowsInStep }
{}

/// Answers that hold the very buckets that were written are honest in every sense that a store may have.
pub fn whole_is_honest()
    ensures { WholeIsHonest }
{}
