//! The passes: makes and joins taking passes.
ghost use Rattle.std.specs.Prelude.{◌≡◌, ◌<◌, ◌++◌, true, [], length};
ghost use Rattle.crossbeam_queue.specs.Passes.{view};
ghost use Rattle.tao_orders.specs.Works.{EachOnce};

use crate::hand::LinePass;
use crate::orders::Orders;
use crate::plays::{Takers, Takes};

/// The one pass that puts.
#[derive(Drop)]
pub struct PutPass {
    pub(crate) pass: LinePass,
    pub(crate) count: u64,
    ghost at_rest: { pass.me.1 ≡ [] },
    ghost puts: { (view pass).puts ≡ true },
    ghost counted: { count ≡ length (view pass).put },
    ghost took_none: { ((view pass).took ≡ []) × ((view pass).share ≡ []) },
}

/// A pass that takes.
#[derive(Drop)]
pub struct TakePass {
    pub(crate) pass: LinePass,
    ghost at_rest: { pass.me.1 ≡ [] },
    ghost owns: { 0 < length (view pass).share },
}

impl Orders {
    ghost use Rattle.tao_orders.specs.Passes.{IsTakePassOf, works_of, took_of, share_of};
    ghost use Rattle.tao_orders.specs.Shares.{AreParts};

    /// One more taking pass, which has taken nothing yet.
    pub fn split(&self, pass: &mut TakePass) -> TakePass
        requires pass { IsTakePassOf self.now pass.old }
        ensures passes { IsTakePassOf self.now pass.new × IsTakePassOf self.now result }
        ensures old { works_of pass.new ≡ works_of pass.old }
        ensures new { works_of result ≡ [] }
        ensures shares { AreParts (share_of pass.old) (share_of pass.new) (share_of result) }
    {
        TakePass {
            pass: self.line.another::<Takers>(&mut pass.pass),
        }
    }

    /// Joins the other pass to this one. What it took comes after what this one took.
    pub fn join(&self, pass: &mut TakePass, other: TakePass)
        requires passes { IsTakePassOf self.now pass.old × IsTakePassOf self.now other }
        ensures pass { IsTakePassOf self.now pass.new }
        ensures took { works_of pass.new ≡ works_of pass.old ++ works_of other }
        ensures shares { AreParts (share_of pass.new) (share_of pass.old) (share_of other) }
        ensures once { EachOnce (took_of pass.new) }
    {
        let TakePass { pass: other } = other;
        self.line.absorb::<Takers>(&mut pass.pass, other);
        self.line.learn_as::<Takes>(&mut pass.pass);
    }
}
