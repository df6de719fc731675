//! What callers read of a desk.
ghost use Rattle.std.specs.Prelude.{◌≡◌, ◌==◌, ℕ, ◌<◌, true, nat_lt, reverse, length, Option, Some, None, IfSome, count_by, is_some, if◌then◌else◌};
ghost use Rattle.std.specs.Option.{option_copied};
ghost use Rattle.tao_base.specs.Limits.{IsShape};
ghost use Rattle.tao_model.specs.Events.{cause_in, is_pad};
ghost use Rattle.tao_model.specs.Replies.{released, plain_reply};
ghost use Rattle.tao_model.specs.Residence.{is_resident};
ghost use Rattle.tao_held.specs.Held.{served_answer};
ghost use Rattle.tao_images.specs.Answers.{IsUnaltered};
ghost use Rattle.tao_processor.specs.Readers.{IsFirstOutstanding};
ghost use Rattle.tao_desk.specs.Sound.{IsSound};

use crate::desk::Desk;
use tao_base::{Block, Cause, Params};
use tao_record::Record;
use tao_tape::Tape;

impl<T: Tape + Drop> Desk<T> {
    /// The record of the session.
    pub fn history(&self) -> &Record
        ensures value { result.now.history ≡ self.now.history }
        ensures sound { IsSound T.word self.now }
    {
        self.processor.sound();
        self.processor.history()
    }

    /// The parameters of the session.
    pub fn params(&self) -> &Params
        ensures value { result.now ≡ self.now.history.opening.shape }
        ensures shape { IsShape self.now.history.opening.shape }
        ensures sound { IsSound T.word self.now }
    {
        self.processor.sound();
        self.processor.params()
    }

    /// Ends the session, and gives its record.
    pub fn into_history(self) -> Record
        ensures value { result.history ≡ self.history }
        ensures sound { IsSound T.word self }
    {
        self.processor.sound();
        self.processor.into_history()
    }

    /// The cause of the fault that ended the session, if one did.
    pub fn down(&self) -> Option<Cause>
        ensures { result ≡ cause_in (reverse self.now.history.events) }
    {
        self.processor.down()
    }

    /// How many arrivals, from the first on, may be answered.
    pub fn released(&self) -> u64
        ensures { result ≡ released (reverse self.now.history.events) }
    {
        self.processor.released()
    }

    /// The answer of an arrival once it may be given: the value of its block before the operation, and no bytes for a pad.
    pub fn reply(&self, arrival: u64) -> Option<&Block>
        ensures value { option_copied result ≡ (if nat_lt arrival (released (reverse self.now.history.events)) then Some (served_answer self.now.history.opening (reverse self.now.history.events) arrival) else None) }
        ensures plain { IsUnaltered self.now.key self.now.history → IfSome (option_copied result) (λ value. value ≡ plain_reply self.now.history.opening (reverse self.now.history.events) arrival) }
        ensures len { IfSome (option_copied result) (λ value. length value ≡ (if is_pad (reverse self.now.history.events) arrival then 0 else self.now.history.opening.shape.b)) }
    {
        self.processor.sound();
        if arrival < self.processor.released() {
            self.processor.answer_of(arrival)
        } else {
            None
        }
    }

    /// Whether the proxy holds a node.
    pub fn is_resident(&self, node: u32) -> bool
        ensures { result ≡ is_resident self.now.history.opening (reverse self.now.history.events) node }
    {
        self.processor.is_resident(node)
    }

    /// How many nodes the proxy holds.
    pub fn residents(&self) -> usize
        ensures { result ≡ count_by is_some self.now.holdings.nodes }
    {
        self.processor.residents()
    }

    /// The first version whose write-back is outstanding.
    pub fn first_outstanding(&self) -> Option<u32>
        ensures { IsFirstOutstanding (reverse self.now.history.events) result }
    {
        self.processor.first_outstanding()
    }
}
