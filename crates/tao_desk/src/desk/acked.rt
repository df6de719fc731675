//! A write-back is acknowledged, or a link fails.
ghost use Rattle.std.specs.Prelude.{◌≡◌, reverse, OnOk, OnErr, if◌then◌else◌};
ghost use Rattle.std.specs.Result.{result_err};
ghost use Rattle.tao_base.specs.declared.session.Cause.TheVariants.{Link};
ghost use Rattle.tao_base.specs.declared.session.Event.TheVariants.{Acked};
ghost use Rattle.tao_model.specs.Events.{has_fault};
ghost use Rattle.tao_images.specs.Answers.{with_event};
ghost use Rattle.tao_desk.specs.Refusals.{ack_refusal};
ghost use Rattle.tao_desk.specs.Sound.{IsSound};
ghost use Rattle.tao_desk.specs.State.{SameStore, faulted};

use crate::desk::Desk;
use crate::faults::AckFault;
use tao_base::Cause;
use tao_tape::Tape;

impl<T: Tape + Drop> Desk<T> {
    /// The server has acknowledged the write-back of this version.
    pub fn acked(&mut self, version: u32) -> Result<(), AckFault>
        ensures fault { result_err result ≡ ack_refusal self.old.history version }
        ensures events { OnOk result (self.new.history ≡ with_event self.old.history (Acked version)) }
        ensures store { SameStore self.old self.new }
        ensures err { OnErr result (self.new ≡ self.old) }
        ensures sound { IsSound T.word self.new }
    {
        self.processor.sound();
        if self.processor.is_down() {
            return Err(AckFault::Down);
        }
        if !self.processor.is_outstanding(version) {
            return Err(AckFault::Stranger);
        }
        self.processor.acked(version);
        self.processor.sound();
        Ok(())
    }

    /// A link has failed, which ends the session. After a fault nothing changes: the first cause stays.
    pub fn fail(&mut self, link: u32)
        ensures state { self.new ≡ (if has_fault (reverse self.old.history.events) then self.old else faulted self.old (Link link)) }
        ensures sound { IsSound T.word self.new }
    {
        self.processor.sound();
        if self.processor.is_down() {
            return;
        }
        self.processor.fault(Cause::Link { link });
        self.processor.sound();
    }
}
