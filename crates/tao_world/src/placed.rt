//! Laws: which steps the tables let come.
ghost use Rattle.tao_world.specs.Steps.{TablesTellMisplaced, StoreHasNodes, FlagsTellMoves};

/// A step is misplaced exactly if its rows say so. So nothing is searched.
pub fn tables_tell_misplaced()
    ensures { TablesTellMisplaced }
{}

/// The nodes of a store are those of its write-back.
pub fn store_has_nodes()
    ensures { StoreHasNodes }
{}

/// The moves of a read of all buckets and of a put of all nodes.
pub fn flags_tell_moves()
    ensures { FlagsTellMoves }
{}
