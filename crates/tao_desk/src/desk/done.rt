//! A fetch is answered.
ghost use Rattle.std.specs.Prelude.{◌≡◌, ◌==◌, ◌+◌, ◌*◌, true, false, length, reverse, IfOk, IfErr, IfSome, IsOk};
ghost use Rattle.std.specs.Result.{result_err};
ghost use Rattle.tao_base.specs.Limits.{bucket_len};
ghost use Rattle.tao_base.specs.Links.{FitsLinks};
ghost use Rattle.tao_model.specs.Events.{dones, issues, has_fault, is_under_way};
ghost use Rattle.tao_images.specs.Answers.{AddsDone, IsAnswered, cause_of as cause_of_refusal};
ghost use Rattle.tao_desk.specs.Calls.{Refuses, LooksAsAsked};
ghost use Rattle.tao_desk.specs.Refusals.{done_refusal, done_fault};
ghost use Rattle.tao_desk.specs.Sound.{IsSound};
ghost use Rattle.tao_desk.specs.State.{SameStore};

use crate::ask::Ask;
use crate::desk::Desk;
use crate::faults::DoneFault;
use tao_base::{Cause, Order};
use tao_images::Refused;
use tao_processor::Processor;
use tao_tape::Tape;

impl<T: Tape + Drop> Desk<T> {
    /// Admits the answer to a fetch, one bucket for each node of the path, root first; buckets of resident nodes aren't read. If this
    /// fills a period, the order of its write-back comes back.
    pub fn done(&mut self, ask: Ask, path: &[u8]) -> Result<Option<Order>, DoneFault>
        requires path { length path.now ≡ (self.old.history.opening.shape.l + 1) * bucket_len self.old.history.opening.shape }
        ensures fault { result_err result ≡ done_refusal self.old.key self.old.history ask.arrival path.now }
        ensures events { IfOk result (λ order. AddsDone self.old.key self.old.history self.new.history ask.arrival path.now order) }
        ensures fits { IfOk result (λ order. IfSome order (FitsLinks self.old.history.opening.shape)) }
        ensures store { SameStore self.old self.new }
        ensures refused { IfErr result (λ fault. Refuses ask.arrival self.old self.new fault) }
        ensures looked { LooksAsAsked self.old.history ask.arrival }
        ensures complete { has_fault (reverse self.old.history.events) ≡ false → is_under_way (reverse self.old.history.events) ask.arrival ≡ true
            → IsAnswered self.old.key self.old.history ask.arrival path.now → IsOk result }
        ensures sound { IsSound T.word self.new }
    {
        self.processor.sound();
        if self.processor.is_down() {
            return Err(DoneFault::Down);
        }
        let arrival = ask.arrival();
        if !self.processor.is_under_way(arrival) {
            return Err(DoneFault::Stranger);
        }
        let leaf = self.processor.leaf_of(arrival);
        match self.processor.look(leaf, path) {
            Ok(()) => {}
            Err(refused) => {
                self.processor.fault(cause_of(arrival, refused));
                self.processor.sound();
                return Err(fault_of(refused));
            }
        }
        self.processor.done(arrival);
        if is_due(&self.processor) {
            let order = self.processor.issue();
            self.processor.sound();
            return Ok(Some(order));
        }
        self.processor.sound();
        Ok(None)
    }
}

// Whether a period is full whose write-back wasn't issued.
fn is_due(processor: &Processor) -> bool
    ensures { result ≡ (dones (reverse processor.now.history.events) == (issues (reverse processor.now.history.events) + 1) * processor.now.history.opening.shape.k) }
{
    processor.dones() == (u64::from(processor.issues()) + 1) * u64::from(processor.params().k())
}

pub(super) fn cause_of(fetch: u64, refused: Refused) -> Cause
    ensures { result ≡ cause_of_refusal fetch refused }
{
    match refused {
        Refused::Damaged { node, fault } => Cause::Damaged { fetch, node, fault },
        Refused::Stale {
            node,
            wanted,
            found,
        } => Cause::Stale {
            fetch,
            node,
            wanted,
            found,
        },
    }
}

pub(super) fn fault_of(refused: Refused) -> DoneFault
    ensures { result ≡ done_fault refused }
{
    match refused {
        Refused::Damaged { node, fault } => DoneFault::Damaged { node, fault },
        Refused::Stale {
            node,
            wanted,
            found,
        } => DoneFault::Stale {
            node,
            wanted,
            found,
        },
    }
}
