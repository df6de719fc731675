//! Laws of merged lists, of shares and of positions.
ghost use Rattle.tao_turn.specs.Histories.{StaysInOrder};
ghost use Rattle.tao_turn.specs.Lists.{MergingRises};

/// If the second of two lists rises, they merge into a rising list of the numbers of both.
pub fn merging_rises()
    ensures { MergingRises }
{}

/// The positions and the shares that a pass knows rise, whatever calls it went through.
pub fn stays_in_order<E>()
    ensures { StaysInOrder E }
{}
