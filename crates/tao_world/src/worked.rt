//! Worked changes of tables.
ghost use Rattle.tao_world.specs.Worked.{AreWorked};

/// What becomes of a path's bytes and of a store's flags.
pub fn worked_changes()
    ensures { AreWorked }
{}
