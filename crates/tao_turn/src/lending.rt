//! The value of a turn, lent.
ghost use Rattle.std.specs.Prelude.{◌≡◌};

use crate::journal::Journal;
use crate::pass::Held;

impl<T: Journal> Held<T> {
    ghost use Rattle.std.specs.Borrow.{sem};
    ghost use Rattle.tao_turn.specs.Lending.{LendsValue};
    ghost use Rattle.tao_turn.specs.Passes.{value_of};

    /// The value, to change it.
    pub fn value(&mut self) -> &mut T
        ensures* writes_back { sem 𝓛 (LendsValue T.row T.Entry.row self.entry result) }
        ensures value { result.now ≡ value_of self.old }
    {
        &mut self.value
    }

    /// The value, to read it.
    pub fn read(&self) -> &T
        ensures { result.now ≡ value_of self.now }
    {
        &self.value
    }
}
