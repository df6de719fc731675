//! Laws of every allowed schedule.
ghost use Rattle.tao_schedule.specs.Laws.{StaysInStep, ServerIsNewest, PlacedMayGo, ServedIsNewest};
ghost use Rattle.tao_schedule.specs.Alike.{AlikeSteps, AlikeTests, TestsNeedNoOp, StepGoesOn, PlayedIsAllowed, AlikeGoOn, OneSchedule, PlayedFront, MisplacedStays};

/// The server agrees with the proxy on every node that isn't held. So a fetch is never refused.
pub fn stays_in_step()
    ensures { StaysInStep }
{}

/// Sessions that are alike have one shape.
pub fn alike_steps()
    ensures { AlikeSteps }
{}

/// Sessions that are alike allow the same steps.
pub fn alike_tests()
    ensures { AlikeTests }
{}

/// The operation of a step doesn't decide whether it is misplaced.
pub fn tests_need_no_op()
    ensures { TestsNeedNoOp }
{}

/// A played step is part of a schedule.
pub fn step_goes_on()
    ensures { StepGoesOn }
{}

/// Sessions that are alike stay alike. So the second of two plays meets no step fault.
pub fn alike_go_on()
    ensures { AlikeGoOn }
{}

/// One script has one schedule. So the script alone decides which steps are misplaced.
pub fn one_schedule()
    ensures { OneSchedule }
{}

/// A played step was allowed.
pub fn played_is_allowed()
    ensures { PlayedIsAllowed }
{}

/// A misplaced step is misplaced in every session of the script. So a script always stops at the same line.
pub fn misplaced_stays()
    ensures { MisplacedStays }
{}

/// The server of a drained session has the latest version of every node.
pub fn server_is_newest()
    ensures { ServerIsNewest }
{}

/// A step that isn't misplaced or full meets the conditions of its moves. So a script stops nowhere else.
pub fn placed_may_go()
    ensures { PlacedMayGo }
{}

/// A Done reads the latest versions. So no fetch is refused, and every Done is unaltered.
pub fn served_is_newest()
    ensures { ServedIsNewest }
{}

/// A played session has prefixes.
pub fn played_front()
    ensures { PlayedFront }
{}
