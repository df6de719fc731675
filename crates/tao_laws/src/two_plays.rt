//! Laws: two plays of one schedule.
ghost use Rattle.tao_laws.specs.TwoPlays.{KindsNeedNoWord, PermutationIsOneToOne, EqualTraces, LeavesTellTraces};

/// Kinds and used places need no word of the tape. So the permutation can be computed before the second play begins.
pub fn kinds_need_no_word()
    ensures { KindsNeedNoWord }
{}

/// The twin permutation is one to one. So the second play's tape is as random as the first one's.
pub fn permutation_is_one_to_one()
    ensures { PermutationIsOneToOne }
{}

/// Two plays of one schedule look the same to the server. So the access pattern shows nothing of the operations.
pub fn equal_traces()
    ensures { EqualTraces }
{}

/// Equal leaves make equal traces. So two plays look the same as far as they have come.
pub fn leaves_tell_traces()
    ensures { LeavesTellTraces }
{}
