//! What callers read of a processor. Each answer is a function of its record.
ghost use Rattle.std.specs.Prelude.{◌≡◌, ◌-◌, ◌<◌, ◌≤◌, ◌^◌, reverse, length, Some, None, count_by, is_some, if◌then◌else◌, Contains};
ghost use Rattle.std.specs.List.{slice_get};
ghost use Rattle.std.specs.Option.{option_copied};
ghost use Rattle.tao_base.specs.declared.session.Event.TheVariants.{Issue};
ghost use Rattle.tao_base.specs.Limits.{IsShape};
ghost use Rattle.tao_model.specs.Events.{arrived, dones, issues, acks, has_fault, cause_in, is_under_way, is_outstanding};
ghost use Rattle.tao_model.specs.Replies.{released};
ghost use Rattle.tao_model.specs.Requests.{fetched_leaf};
ghost use Rattle.tao_model.specs.Residence.{is_resident};
ghost use Rattle.tao_held.specs.Held.{served_answer, held};
ghost use Rattle.tao_processor.specs.Readers.{IsFirstOutstanding, cause_told};

use crate::forgetting::issued;
use crate::processor::Processor;
use tao_base::{Block, Bucket, Cause, Entries, Entry, Event, Params};
use tao_record::Record;

impl Processor {
    /// The record of the session.
    pub fn history(&self) -> &Record
        ensures { result.now.history ≡ self.now.history }
    {
        &self.session
    }

    /// Ends the session, and gives its record.
    pub fn into_history(self) -> Record
        ensures { result.history ≡ self.history }
    {
        self.session
    }

    /// The key.
    pub fn key(&self) -> &[u8; 32]
        ensures { result.now ≡ self.now.key }
    {
        &self.key
    }

    /// The parameters.
    pub fn params(&self) -> &Params
        ensures value { result.now ≡ self.now.history.opening.shape }
        ensures shape { IsShape self.now.history.opening.shape }
    {
        self.session.params()
    }

    /// How many operations have arrived.
    pub fn arrivals(&self) -> u64
        ensures { result ≡ arrived (reverse self.now.history.events) }
    {
        self.fetches.len() as u64
    }

    /// How many of their fetches are done.
    pub fn dones(&self) -> u64
        ensures { result ≡ dones (reverse self.now.history.events) }
    {
        self.dones
    }

    /// How many write-backs were issued.
    pub fn issues(&self) -> u32
        ensures { result ≡ issues (reverse self.now.history.events) }
    {
        self.issues
    }

    /// How many of them are acknowledged.
    pub fn acks(&self) -> u32
        ensures { result ≡ acks (reverse self.now.history.events) }
    {
        self.acks
    }

    /// The cause of the fault that ended the session, if one did.
    pub fn down(&self) -> Option<Cause>
        ensures { result ≡ cause_in (reverse self.now.history.events) }
    {
        cause_at_end(self.session.events())
    }

    /// Whether a fault ended the session.
    pub fn is_down(&self) -> bool
        ensures { result ≡ has_fault (reverse self.now.history.events) }
    {
        self.down().is_some()
    }

    /// Whether this arrival's fetch is under way.
    pub fn is_under_way(&self, arrival: u64) -> bool
        ensures { result ≡ is_under_way (reverse self.now.history.events) arrival }
    {
        arrival < self.arrivals() && !self.sequence.is_done(arrival)
    }

    /// The leaf whose path this arrival fetches.
    pub fn leaf_of(&self, arrival: u64) -> u32
        requires { arrival < arrived (reverse self.now.history.events) }
        ensures value { result ≡ fetched_leaf self.now.history.opening (reverse self.now.history.events) arrival }
        ensures leaf { result < 2 ^ self.now.history.opening.shape.l }
    {
        self.fetches[arrival as usize].leaf
    }

    /// How many arrivals, from the first on, may be answered.
    pub fn released(&self) -> u64
        ensures { result ≡ released (reverse self.now.history.events) }
    {
        self.sequence.released()
    }

    /// The answer of an arrival that may be answered.
    pub fn answer_of(&self, arrival: u64) -> Option<&Block>
        requires { arrival < released (reverse self.now.history.events) }
        ensures { option_copied result ≡ Some (served_answer self.now.history.opening (reverse self.now.history.events) arrival) }
    {
        self.requests.answer_of(arrival)
    }

    /// Whether the write-back of this version is outstanding.
    pub fn is_outstanding(&self, version: u32) -> bool
        ensures { result ≡ is_outstanding (reverse self.now.history.events) version }
    {
        version > 0 && version <= self.issues && !self.acknowledged.is_done(u64::from(version) - 1)
    }

    /// The first version whose write-back is outstanding.
    pub fn first_outstanding(&self) -> Option<u32>
        ensures { IsFirstOutstanding (reverse self.now.history.events) result }
    {
        let acknowledged = self.acknowledged.released() as u32;
        if acknowledged < self.issues {
            Some(acknowledged + 1)
        } else {
            None
        }
    }

    /// The first nonce and the buckets of the write-back of this version.
    pub fn issue_of(&self, version: u32) -> (u64, &[Bucket])
        requires first { 1 ≤ version }
        requires last { version ≤ issues (reverse self.now.history.events) }
        ensures { Contains self.now.history.events (Issue version result.0 result.1.now) }
    {
        issued(
            self.session.events(),
            self.places[version as usize - 1],
            version,
        )
    }

    /// Whether a node is resident.
    pub fn is_resident(&self, node: u32) -> bool
        ensures { result ≡ is_resident self.now.history.opening (reverse self.now.history.events) node }
    {
        self.holdings.is_resident(node)
    }

    /// How many nodes are resident.
    pub fn residents(&self) -> usize
        ensures { result ≡ count_by is_some self.now.holdings.nodes }
    {
        self.holdings.count()
    }

    /// The entries of a node, if it is resident.
    pub fn entries(&self, node: u32) -> Option<&Entries>
        requires { 1 ≤ node }
        ensures { option_copied result ≡ if is_resident self.now.history.opening (reverse self.now.history.events) node then Some (held self.now.history.opening (reverse self.now.history.events) node) else None }
    {
        self.holdings.entries(node)
    }

    /// The entries of the stash.
    pub fn stash(&self) -> &[Entry]
        ensures { result.now ≡ held self.now.history.opening (reverse self.now.history.events) 0 }
    {
        self.holdings.stash()
    }
}

// The cause of the last event, if that is a fault.
fn cause_at_end(events: &[Event]) -> Option<Cause>
    ensures { result ≡ cause_told (slice_get events.now (length events.now - 1)) }
{
    match events.last() {
        Some(Event::Fault { cause }) => Some(*cause),
        Some(Event::Arrive { .. }) => None,
        Some(Event::Done { .. }) => None,
        Some(Event::Issue { .. }) => None,
        Some(Event::Acked { .. }) => None,
        None => None,
    }
}
