//! Laws: how each event changes the settled values.
ghost use Rattle.tao_fresh.specs.FreshLaws.{SettledMoves, SettledStays, PlainBetween};

/// The Done of a real arrival settles its block's arrivals from it on. No other value changes.
pub fn settled_moves()
    ensures { SettledMoves }
{}

/// An arrival changes no value.
pub fn settled_stays()
    ensures { SettledStays }
{}

/// A later plain reply on a block is the earlier one after the operations between.
pub fn plain_between()
    ensures { PlainBetween }
{}
