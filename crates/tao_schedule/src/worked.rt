//! Worked schedules.
ghost use Rattle.tao_schedule.specs.Worked.{IsWorked, WorkedSchedule};
ghost use Rattle.tao_schedule.specs.WorkedOverlaps.{AreOverlapping, OverlapsAreAllowed};

/// Two write-backs, the later acknowledged first: which steps are allowed on the way, and what the server has.
pub fn worked_steps()
    ensures { IsWorked }
{}

/// All of its moves are allowed.
pub fn worked_schedule()
    ensures { WorkedSchedule }
{}

/// A write and a read of one block under way at once, and a root that is kept under a fetch: steps and versions on the way.
pub fn worked_overlaps()
    ensures { AreOverlapping }
{}

/// All moves of both are allowed.
pub fn worked_overlaps_are_allowed()
    ensures { OverlapsAreAllowed }
{}
