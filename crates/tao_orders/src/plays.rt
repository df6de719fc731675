//! What each step tells. These types are for the proofs alone.
ghost use Rattle.std.specs.Prelude.{true, false, [], ◌++◌, map};
ghost use Rattle.tao_orders.specs.Rule.{hand, DidPut, HoldsLast, DidTake, DidDrain, HoldsRest};
ghost use Rattle.tao_orders.specs.Shares.{half, other_half};
ghost use Rattle.tao_orders.specs.Works.{number_of, EachOnce};

use crate::hand::Hand;
use crate::work::Slip;
use crossbeam_queue::protocol::{Join, Lesson, Outcome, Split};

pub struct Puts;

impl Outcome<Slip, Hand> for Puts {
    ghost then = { DidPut };
}

impl Lesson<Slip, Hand> for Puts {
    ghost fact = { λ v slips. HoldsLast v.put slips };
}

pub struct Takes;

impl Outcome<Slip, Hand> for Takes {
    ghost then = { DidTake };
}

impl Lesson<Slip, Hand> for Takes {
    ghost fact = { λ v slips. EachOnce (map number_of v.took) };
}

/// What the putting pass takes at the end.
pub struct Drains;

impl Outcome<Slip, Hand> for Drains {
    ghost then = { DidDrain };
}

impl Lesson<Slip, Hand> for Drains {
    ghost fact = { HoldsRest };
}

/// The first taking pass, with the whole share.
pub struct Opens;

impl Split<Hand> for Opens {
    ghost left = { λ v. hand v.puts v.put v.took [] };

    ghost right = { λ v. hand false [] [] v.share };
}

/// One more taking pass, with half of a share.
pub struct Takers;

impl Split<Hand> for Takers {
    ghost left = { λ v. hand v.puts v.put v.took (other_half v.share) };

    ghost right = { λ v. hand false [] [] (half v.share) };
}

/// Two taking passes become one.
impl Join<Hand> for Takers {
    ghost both = { λ v w. hand v.puts v.put (v.took ++ w.took) (v.share ++ w.share) };

    ghost spent = { hand false [] [] [] };
}

/// A taking pass becomes the putting pass too.
pub struct Ends;

impl Join<Hand> for Ends {
    ghost both = { λ v w. hand w.puts w.put (v.took ++ w.took) (v.share ++ w.share) };

    ghost spent = { hand false [] [] [] };
}
