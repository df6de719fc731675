//! How far worked records have come.
ghost use Rattle.tao_model.specs.WorkedProgress.{ProgressIsTold, WritesAreTold, EndsAreTold};

/// What is under way, settled and outstanding after some events of two worked records.
pub fn progress_is_told()
    ensures { ProgressIsTold }
{}

/// What was written at one node under three versions.
pub fn writes_are_told()
    ensures { WritesAreTold }
{}

/// A record with a Fault at its end, and one without.
pub fn ends_are_told()
    ensures { EndsAreTold }
{}
