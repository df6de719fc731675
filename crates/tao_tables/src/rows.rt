//! Laws: the row of each arrival.
ghost use Rattle.tao_tables.specs.Rows.{RowsAreTold, RowsAtStart, ArrivalFetches, NewArrivalsLeaf};

/// An arrival adds its row.
pub fn rows_are_told()
    ensures { RowsAreTold }
{}

/// At the start there is no row.
pub fn rows_at_start()
    ensures { RowsAtStart }
{}

/// A real arrival fetches the leaf of its block, any other one that of its own word.
pub fn arrival_fetches()
    ensures { ArrivalFetches }
{}

/// By the words of the positions: the leaf of its block's word, or of its own.
pub fn new_arrivals_leaf()
    ensures { NewArrivalsLeaf }
{}
