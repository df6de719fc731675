//! What a pass has done, and the rule over all of them.
ghost use Rattle.std.specs.Prelude.{true, [], ◌∷◌};

use crate::work::{Slip, Work};
use crossbeam_queue::protocol::Protocol;
use crossbeam_queue::{Pass, RuledArrayQueue};
use std::collections::LinkedList;

/// Whether a pass is the one that puts, what it put and took, and its share of all taking. This type is for the proofs alone.
pub struct Hand {
    pub puts: bool,
    pub put: LinkedList<Work>,
    pub took: LinkedList<Work>,
    pub share: LinkedList<u32>,
}

pub struct Rule;

impl Protocol<Slip, Hand> for Rule {
    ghost use Rattle.tao_orders.specs.Rule.{hand, InLine};

    ghost holds = { InLine };

    ghost first = { hand true [] [] (0 ∷ []) };
}

pub type Line = RuledArrayQueue<Slip, Hand, Rule>;

pub type LinePass = Pass<Slip, Hand>;
