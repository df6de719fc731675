//! What is kept of the events that were printed: of each arrival, of each block, and which arrivals are done.
ghost use Rattle.std.specs.Prelude.{◌≡◌, ◌+◌, ◌-◌, ◌<◌, ◌≤◌, ◌%◌, ◌^◌, ◌↔◌, [], ◌∷◌, ◌++◌, length, map, reverse, slice_index, Some, None, OnOk, OnErr, IfOk, get_or};
ghost use Rattle.std.specs.List.{slice_index_or, count_by};
ghost use Rattle.std.specs.Option.{option_map};
ghost use Rattle.tao_base.specs.declared.calls.Op.TheVariants.{Read};
ghost use Rattle.tao_base.specs.Array.{array_step, block_at};
ghost use Rattle.tao_base.specs.Limits.{IsShape};
ghost use Rattle.tao_base.specs.Tree.{leaf_of};
ghost use Rattle.tao_base.specs.declared.session.Event.TheVariants.{Arrive, Done, Issue, Acked, Fault};
ghost use Rattle.tao_model.specs.Events.{arrived, word_at, NamesBelow};
ghost use Rattle.tao_model.specs.Requests.{real_now, next_word};
ghost use Rattle.tao_model.specs.Replies.{array_now};
ghost use Rattle.tao_model.specs.Lawful.{FollowsLawfully, IsInRange};
ghost use Rattle.tao_trace.specs.Printing.{printed, gone_on, at_start};
ghost use Rattle.tao_trace.specs.Tables.{is_ack, NextOf, IsDoneNext, word_fetched, reply_for};

use crate::places::Places;
use std::alloc::Global;
use std::marker::Model;
use tao_base::{Block, Bucket, Cause, Event, NoMemory, Op};
use tao_record::Record;

/// An arrival: who made it, its own word, and what it is answered, where it is no pad.
#[derive(Clone, Copy, Debug)]
pub(crate) struct Told<'a> {
    pub(crate) client: u32,
    pub(crate) word: u32,
    pub(crate) reply: Option<&'a Block>,
}

/// A write-back, as it is sent again.
#[derive(Clone, Copy, Debug)]
pub(crate) struct Sent<'a> {
    pub(crate) nonce: u64,
    pub(crate) buckets: &'a [Bucket],
}

/// What is kept of the events before a place of the record: the arrivals, the value of each block, the places of the tape, and the
/// write-backs. The next `once` acknowledgements are of stores that were sent once.
#[derive(Debug, Drop)]
pub(crate) struct Tables<'a> {
    pub(crate) history: &'a Record,
    pub(crate) place: usize,
    pub(crate) told: Vec<Told<'a>>,
    pub(crate) values: Vec<&'a Block>,
    pub(crate) places: Places,
    pub(crate) sent: Vec<Sent<'a>>,
    pub(crate) once: usize,
    pub(crate) again: usize,
}

impl<'a> Model for Tables<'a> {
    ghost use Rattle.std.specs.Prelude.{map};
    ghost use Rattle.tao_trace.specs.Printing.{PrinterState};
    ghost use Rattle.tao_trace.specs.Tables.{FitAll};

    ghost Value = { PrinterState };

    ghost view = { λ t. record { history = t.history.now.history; place = t.place; again = t.again } };

    ghost invariant = { λ t. FitAll t.history.now.history t.place t.again t.told.items (map (λ value. value.now) t.values.items) t.places t.sent.items t.once };
}

impl<'a> Tables<'a> {
    /// Before the first event. The last `again` acknowledgements are of stores that were sent again.
    pub(crate) fn new(
        alloc: Global,
        history: &'a Record,
        again: usize,
    ) -> Result<Tables<'a>, NoMemory>
        requires { FollowsLawfully history.now.history.opening (reverse history.now.history.events) }
        ensures { IfOk result (λ t. t ≡ at_start history.now.history again) }
    {
        Ok(Tables {
            history,
            place: 0,
            told: Vec::new(alloc),
            values: first_values(alloc, history.first())?,
            places: Places::new(alloc, history.params())?,
            sent: Vec::new(alloc),
            once: count_acks(history.events()).saturating_sub(again),
            again,
        })
    }

    /// How many events come.
    pub(crate) fn left(&self) -> usize
        ensures { result ≡ length self.now.history.events - self.now.place }
    {
        self.history.events().len() - self.place
    }

    /// Whether an arrival of this operation is real.
    pub(crate) fn is_real(&self, op: &Op) -> bool
        requires { IsInRange self.now.history.opening.shape op.now }
        ensures { result ≡ real_now (printed self.now) op.now }
    {
        self.places.is_real(op)
    }

    fn word_on(&self, block: usize, word: u32) -> u32
        requires { block < self.now.history.opening.shape.n }
        ensures { result ≡ word_fetched self.now.history.opening (printed self.now) (Read block) word }
    {
        if self.places.is_free(block) {
            self.next_word(block)
        } else {
            word
        }
    }

    /// The word that the next real arrival on the block uses.
    fn next_word(&self, block: usize) -> u32
        requires { block < self.now.history.opening.shape.n }
        ensures { result ≡ word_at self.now.history.opening (printed self.now) (next_word self.now.history.opening (printed self.now) block) }
    {
        let words = self.history.words();
        let place = self.places.next_on(block) as usize;
        if place < words.len() {
            words[place]
        } else {
            self.told[place - words.len()].word
        }
    }

    /// The leaf that an arrival of this operation fetches.
    pub(crate) fn leaf_for(&self, op: &Op, word: u32) -> u32
        requires { IsInRange self.now.history.opening.shape op.now }
        ensures { result ≡ leaf_of self.now.history.opening.shape.l (word_fetched self.now.history.opening (printed self.now) op.now word) }
    {
        self.word_for(op, word) % (1 << self.history.params().l())
    }

    // The word that an arrival of this operation uses, whose own is this one.
    fn word_for(&self, op: &Op, word: u32) -> u32
        requires { IsInRange self.now.history.opening.shape op.now }
        ensures { result ≡ word_fetched self.now.history.opening (printed self.now) op.now word }
    {
        match op {
            Op::Read(id) | Op::Write(id, _) => self.word_on(*id as usize, word),
            Op::Pad => word,
        }
    }

    fn value_on(&self, block: usize) -> &'a Block
        requires { block < self.now.history.opening.shape.n }
        ensures { result.now ≡ block_at (array_now self.now.history.opening (printed self.now)) block }
    {
        self.values[block]
    }

    /// What an arrival of this operation is answered.
    fn reply_to(&self, op: &Op) -> Option<&'a Block>
        requires { IsInRange self.now.history.opening.shape op.now }
        ensures { option_map (λ value. value.now) result ≡ reply_for (array_now self.now.history.opening (printed self.now)) op.now }
    {
        match op {
            Op::Read(id) | Op::Write(id, _) => Some(self.value_on(*id as usize)),
            Op::Pad => None,
        }
    }

    /// Keeps an arrival.
    pub(crate) fn add_arrival(&mut self, client: u32, op: &'a Op, word: u32) -> Result<(), NoMemory>
        requires next { NextOf self.old (Arrive client op.now word) }
        requires range { IsInRange self.old.history.opening.shape op.now }
        ensures ok { OnOk result (self.new ≡ gone_on self.old) }
        ensures err { OnErr result (self.new ≡ self.old) }
    {
        let next = self.next_place();
        let own = self.own_place();
        let reply = self.reply_to(op);
        self.told.push(Told {
            client,
            word,
            reply,
        })?;
        self.places.add_arrival(op, own);
        write(&mut self.values, op);
        self.place = next;
        Ok(())
    }

    // The place of the next arrival's own word.
    fn own_place(&self) -> u32
        ensures { result ≡ self.now.history.opening.shape.n + arrived (printed self.now) }
    {
        self.history.params().n() + self.told.len() as u32
    }

    /// Keeps a Done.
    pub(crate) fn add_done(&mut self, arrival: u64)
        requires { IsDoneNext self.old arrival }
        ensures { self.new ≡ gone_on self.old }
    {
        let next = self.next_place();
        self.places.add_done(arrival);
        self.place = next;
    }

    /// Keeps a write-back.
    pub(crate) fn add_issue(
        &mut self,
        version: u32,
        nonce: u64,
        buckets: &'a [Bucket],
    ) -> Result<(), NoMemory>
        requires { NextOf self.old (Issue version nonce buckets.now) }
        ensures ok { OnOk result (self.new ≡ gone_on self.old) }
        ensures err { OnErr result (self.new ≡ self.old) }
    {
        let next = self.next_place();
        self.sent.push(Sent { nonce, buckets })?;
        self.place = next;
        Ok(())
    }

    /// Keeps an acknowledgement.
    pub(crate) fn add_acked(&mut self, version: u32)
        requires { NextOf self.old (Acked version) }
        ensures { self.new ≡ gone_on self.old }
    {
        self.place = self.next_place();
        self.once = self.once.saturating_sub(1);
    }

    /// Keeps a Fault.
    pub(crate) fn add_fault(&mut self, cause: &Cause)
        requires { NextOf self.old (Fault cause.now) }
        ensures { self.new ≡ gone_on self.old }
    {
        self.place = self.next_place();
    }

    /// The next event.
    pub(crate) fn next_event(&self) -> &'a Event
        requires { self.now.place < length self.now.history.events }
        ensures { NextOf self.now result.now }
    {
        &self.history.events()[self.place]
    }

    /// The place behind the next event.
    pub(crate) fn next_place(&self) -> usize
        requires { self.now.place < length self.now.history.events }
        ensures { result ≡ self.now.place + 1 }
    {
        let _all = self.history.events().len();
        self.place + 1
    }
}

fn count_acks(events: &[Event]) -> usize
    ensures { result ≡ count_by is_ack events.now }
{
    events.iter().filter(|event| is_ack(event)).count()
}

fn is_ack(event: &Event) -> bool
    ensures { result ≡ is_ack event.now }
{
    matches!(event, Event::Acked { .. })
}

// The values before the first event.
fn first_values<'a>(alloc: Global, first: &'a [Block]) -> Result<Vec<&'a Block>, NoMemory>
    ensures { IfOk result (λ values. map (λ value. value.now) values.items ≡ first.now) }
{
    Ok(first.iter().collect(alloc)?)
}

// Puts what an operation writes.
fn write<'a>(values: &mut Vec<&'a Block>, op: &'a Op)
    requires { NamesBelow (length values.old.items) op.now }
    ensures { map (λ value. value.now) values.new.items ≡ array_step (map (λ value. value.now) values.old.items) op.now }
{
    match op {
        Op::Write(id, value) => values[*id as usize] = value,
        Op::Read(_) | Op::Pad => {}
    }
}
