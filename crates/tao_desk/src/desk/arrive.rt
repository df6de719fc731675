//! An operation arrives.
ghost use Rattle.std.specs.Prelude.{◌≡◌, ◌+◌, ◌<◌, ◌≤◌, ◌⊎◌, false, reverse, Some, None, IfOk, IfErr, OnErr, IfNone};
ghost use Rattle.tao_base.specs.Limits.{session_limit};
ghost use Rattle.tao_model.specs.Events.{arrived, has_fault};
ghost use Rattle.tao_model.specs.Lawful.{IsInRange};
ghost use Rattle.tao_desk.specs.Calls.{HasArrived};
ghost use Rattle.tao_desk.specs.Refusals.{arrive_refusal, op_refusal as refusal_of_op};
ghost use Rattle.tao_desk.specs.Sound.{IsSound};
ghost use Rattle.tao_desk.specs.declared.faults.ArriveFault.TheVariants.{Memory};

use crate::ask::Ask;
use crate::desk::Desk;
use crate::faults::ArriveFault;
use tao_base::{NoMemory, Op, Params};
use tao_tape::Tape;

impl<T: Tape + Drop> Desk<T> {
    /// A client's operation arrives. The path of the ask's leaf is to be fetched for it.
    pub fn arrive(&mut self, client: u32, op: Op) -> Result<Ask, ArriveFault>
        requires client { client < 64 }
        ensures refused { IfErr result (λ fault. (arrive_refusal (T.left self.old.source (self.old.history.opening.shape.n + arrived (reverse self.old.history.events))) self.old.history op ≡ Some fault)
            ⊎ ((fault ≡ Memory) × (arrive_refusal (T.left self.old.source (self.old.history.opening.shape.n + arrived (reverse self.old.history.events))) self.old.history op ≡ None))) }
        ensures taken { IfOk result (λ _. arrive_refusal (T.left self.old.source (self.old.history.opening.shape.n + arrived (reverse self.old.history.events))) self.old.history op ≡ None) }
        ensures err { OnErr result (self.new ≡ self.old) }
        ensures arrived { IfOk result (λ ask. HasArrived T.word self.old self.new client op ask) }
        ensures sound { IsSound T.word self.new }
    {
        self.processor.sound();
        match self.refusal(&op) {
            Some(fault) => return Err(fault),
            None => {}
        }
        match self.processor.reserve() {
            Ok(()) => {}
            Err(NoMemory) => return Err(ArriveFault::Memory),
        }
        let arrival = self.processor.arrivals();
        let word = self.tape.next();
        let leaf = self.processor.arrive(client, op, word);
        self.processor.sound();
        Ok(Ask::new(arrival, leaf))
    }

    // Why the operation is refused, if it is.
    fn refusal(&self, op: &Op) -> Option<ArriveFault>
        ensures value { result ≡ arrive_refusal (T.left self.now.source (self.now.history.opening.shape.n + arrived (reverse self.now.history.events))) self.now.history op.now }
        ensures running { IfNone result (has_fault (reverse self.now.history.events) ≡ false) }
        ensures few { IfNone result (arrived (reverse self.now.history.events) < session_limit self.now.history.opening.shape) }
        ensures left { IfNone result (1 ≤ T.left self.now.source (self.now.history.opening.shape.n + arrived (reverse self.now.history.events))) }
        ensures range { IfNone result (IsInRange self.now.history.opening.shape op.now) }
    {
        if self.processor.is_down() {
            return Some(ArriveFault::Down);
        }
        let p = self.processor.params();
        if self.processor.arrivals() >= u64::from(p.session_limit()) || self.tape.left() == 0 {
            return Some(ArriveFault::SessionFull);
        }
        op_refusal(p, op)
    }
}

// Why an operation is refused whatever the record, if it is.
fn op_refusal(p: &Params, op: &Op) -> Option<ArriveFault>
    ensures value { result ≡ refusal_of_op p.now op.now }
    ensures range { IfNone result (IsInRange p.now op.now) }
{
    match op {
        Op::Read(id) => if *id < p.n() {
            None
        } else {
            Some(ArriveFault::NoBlock)
        },
        Op::Write(id, value) => {
            if *id >= p.n() {
                Some(ArriveFault::NoBlock)
            } else if value.as_slice().len() == p.b() as usize {
                None
            } else {
                Some(ArriveFault::BlockLength)
            }
        }
        Op::Pad => None,
    }
}
