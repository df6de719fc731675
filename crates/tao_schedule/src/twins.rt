//! Laws: a second play of a schedule with other operations.
ghost use Rattle.tao_schedule.specs.Twins.{TwinLeaves, TwinIsAlike, TwinMeetsNoFault, TwinScriptIsAllowed, TwinsLookAlike};

/// The second play fetches the same leaves as the first. So both look the same.
pub fn twin_leaves()
    ensures { TwinLeaves }
{}

/// The second play is alike to the first as far as it has come.
pub fn twin_is_alike()
    ensures { TwinIsAlike }
{}

/// The second play meets no step fault.
pub fn twin_meets_no_fault()
    ensures { TwinMeetsNoFault }
{}

/// Both plays look the same to the server.
pub fn twins_look_alike()
    ensures { TwinsLookAlike }
{}

/// Every step of the replayed script is allowed.
pub fn twin_script_is_allowed()
    ensures { TwinScriptIsAllowed }
{}
