//! The lines of the next event, printed from what is kept of those before it.
ghost use Rattle.std.specs.Prelude.{◌≡◌, ◌+◌, ◌-◌, ◌<◌, ◌≤◌, [], ◌∷◌, ◌++◌, codes, flat_map, length, reverse, OnOk, OnErr, IfOk};
ghost use Rattle.std.specs.List.{range_with_len, slice_index_or};
ghost use Rattle.tao_base.specs.Lines.{words_line, hex_line};
ghost use Rattle.tao_base.specs.declared.session.Event.TheVariants.{Arrive, Done, Issue, Acked, Fault};
ghost use Rattle.tao_text.specs.Lines.{Extends};
ghost use Rattle.tao_model.specs.Events.{arrived};
ghost use Rattle.tao_model.specs.Lawful.{IsInRange};
ghost use Rattle.tao_model.specs.Transcript.{reply_line, again_before};
ghost use Rattle.tao_trace.specs.Printing.{printed, gone_on, sent_once, lines_at};
ghost use Rattle.tao_trace.specs.Tables.{NextOf, IsDoneNext};

use crate::lines::{push_arrive, push_cause, push_store};
use crate::tables::Tables;
use tao_base::{Event, Image, NoMemory, Op};
use tao_text::{line_hex, line_words};

impl<'a> Tables<'a> {
    /// Prints the lines of the next event and keeps it. On an error the tables are as they were.
    pub(crate) fn print_next(&mut self, out: &mut Image) -> Result<(), NoMemory>
        requires { self.old.place < length self.old.history.events }
        ensures ok { OnOk result (self.new ≡ gone_on self.old) }
        ensures lines { OnOk result (out.new ≡ out.old ++ lines_at self.old.history self.old.again self.old.place) }
        ensures err { OnErr result (self.new ≡ self.old) }
        ensures front { OnErr result (Extends out.old out.new) }
    {
        self.push_next(out)?;
        self.keep_next()
    }

    fn push_next(&self, out: &mut Image) -> Result<(), NoMemory>
        requires { self.now.place < length self.now.history.events }
        ensures ok { OnOk result (out.new ≡ out.old ++ lines_at self.now.history self.now.again self.now.place) }
        ensures err { OnErr result (Extends out.old out.new) }
    {
        match self.next_event() {
            Event::Arrive { client, op, word } => self.push_arrival(out, *client, op, *word),
            Event::Done { arrival, .. } => self.push_done(out, *arrival),
            Event::Issue {
                version,
                nonce,
                buckets,
            } => push_store(out, "store", *version, *nonce, buckets.as_slice()),
            Event::Acked { version } => self.push_acked(out, *version),
            Event::Fault { cause } => push_cause(out, cause),
        }
    }

    /// Keeps the next event.
    pub(crate) fn keep_next(&mut self) -> Result<(), NoMemory>
        requires { self.old.place < length self.old.history.events }
        ensures ok { OnOk result (self.new ≡ gone_on self.old) }
        ensures err { OnErr result (self.new ≡ self.old) }
    {
        match self.next_event() {
            Event::Arrive { client, op, word } => self.add_arrival(*client, op, *word),
            Event::Done { arrival, .. } => {
                self.add_done(*arrival);
                Ok(())
            }
            Event::Issue {
                version,
                nonce,
                buckets,
            } => self.add_issue(*version, *nonce, buckets.as_slice()),
            Event::Acked { version } => {
                self.add_acked(*version);
                Ok(())
            }
            Event::Fault { cause } => {
                self.add_fault(cause);
                Ok(())
            }
        }
    }

    fn push_arrival(&self, out: &mut Image, client: u32, op: &Op, word: u32) -> Result<(), NoMemory>
        requires next { NextOf self.now (Arrive client op.now word) }
        requires range { IsInRange self.now.history.opening.shape op.now }
        ensures ok { OnOk result (out.new ≡ out.old ++ lines_at self.now.history self.now.again self.now.place) }
        ensures err { OnErr result (Extends out.old out.new) }
    {
        let arrival = self.told.len() as u64;
        push_arrive(out, arrival, client, op)?;
        line_words(out, "fetch", &[arrival, u64::from(self.leaf_for(op, word))])?;
        Ok(())
    }

    #[tactic(auto, using(tao_text::proofs::Appended::extends_through))]
    fn push_done(&self, out: &mut Image, arrival: u64) -> Result<(), NoMemory>
        requires { IsDoneNext self.now arrival }
        ensures ok { OnOk result (out.new ≡ out.old ++ lines_at self.now.history self.now.again self.now.place) }
        ensures err { OnErr result (Extends out.old out.new) }
    {
        let released = self.places.released();
        let end = self.places.released_after(arrival);
        line_words(out, "done", &[arrival])?;
        self.push_replies(out, released, end)?;
        Ok(())
    }

    #[tactic(auto, using(tao_text::proofs::Appended::extends_through))]
    fn push_replies(&self, out: &mut Image, first: u64, end: u64) -> Result<(), NoMemory>
        requires low { first ≤ end }
        requires high { end ≤ arrived (printed self.now) }
        ensures ok { OnOk result (out.new ≡ out.old ++ flat_map (reply_line self.now.history.opening (printed self.now)) (range_with_len first (end - first))) }
        ensures err { OnErr result (Extends out.old out.new) }
    {
        for arrival in first..end {
            self.push_reply(out, arrival)?;
        }
        Ok(())
    }

    fn push_reply(&self, out: &mut Image, arrival: u64) -> Result<(), NoMemory>
        requires { arrival < arrived (printed self.now) }
        ensures ok { OnOk result (out.new ≡ out.old ++ reply_line self.now.history.opening (printed self.now) arrival) }
        ensures err { OnErr result (out.new ≡ out.old) }
    {
        let row = &self.told[arrival as usize];
        match row.reply {
            Some(value) => line_hex(out, "reply", &[arrival, u64::from(row.client)], value),
            None => Ok(()),
        }
    }

    #[tactic(auto, using(tao_text::proofs::Appended::extends_through))]
    fn push_acked(&self, out: &mut Image, version: u32) -> Result<(), NoMemory>
        requires { NextOf self.now (Acked version) }
        ensures ok { OnOk result (out.new ≡ out.old ++ lines_at self.now.history self.now.again self.now.place) }
        ensures err { OnErr result (Extends out.old out.new) }
    {
        self.push_again(out, version)?;
        line_words(out, "ack", &[u64::from(version)])?;
        Ok(())
    }

    // The line of a store that was sent again.
    fn push_again(&self, out: &mut Image, version: u32) -> Result<(), NoMemory>
        requires { NextOf self.now (Acked version) }
        ensures ok { OnOk result (out.new ≡ out.old ++ again_before (sent_once self.now.history self.now.again) (printed self.now) (Acked version)) }
        ensures err { OnErr result (Extends out.old out.new) }
    {
        if self.once > 0 {
            return Ok(());
        }
        let row = &self.sent[version as usize - 1];
        push_store(out, "again", version, row.nonce, row.buckets)
    }
}
