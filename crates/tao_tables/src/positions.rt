//! Laws: the words of the blocks' positions.
ghost use Rattle.tao_tables.specs.Positions.{PositionsAreTold, PositionsAtStart};

/// The Done of a real arrival gives its block the arrival's word.
pub fn positions_are_told()
    ensures { PositionsAreTold }
{}

/// At the start these are the first words.
pub fn positions_at_start()
    ensures { PositionsAtStart }
{}
