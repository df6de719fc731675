//! Laws: the answers that a proxy keeps.
ghost use Rattle.tao_tables.specs.Answers.{BlockIsSame, ServedReal};

/// Settling a real arrival with what was found gives its block's arrivals the answers that the record gives them.
pub fn served_real()
    ensures { ServedReal }
{}

/// The request of a real arrival is on the arrival's block.
pub fn block_is_same()
    ensures { BlockIsSame }
{}
