//! The record of a session.
ghost use Rattle.std.specs.Prelude.{◌≡◌, ◌+◌, ◌-◌, ◌^◌, ◌<◌, ◌≤◌, false, max, [], ◌∷◌, ◌++◌, take, vec_len, vec_capacity, IfOk, OnOk, All};
ghost use Rattle.std.specs.Option.{SomeIff};
ghost use Rattle.tao_base.specs.Limits.{IsShape};
ghost use Rattle.tao_record.specs.Rooms.{Fit, BucketFits};
ghost use Rattle.tao_base.specs.declared.session.Event.TheVariants.{Arrive, Done, Issue, Acked, Fault};

use crate::copies::fill_buckets;
use crate::rooms::lengthen;
use std::alloc::Global;
use std::marker::Model;
use tao_base::{Block, Blocks, Bucket, Buckets, Cause, Event, NoMemory, Numbers, Op, Params};

/// What a session opened with, and its events in order, in the capacity that `reserve` made. The one Fault that a session may have is
/// preallocated from the start.
#[derive(Debug, Drop)]
pub struct Record {
    alloc: Global,
    p: Params,
    words: Numbers,
    first: Blocks,
    loaded: Buckets,
    events: Vec<Event>,
    // lists for the buckets of the Dones and the Issues to come, and the number of other events to come
    dones: Vec<Buckets>,
    issues: Vec<Buckets>,
    others: usize,
}

impl Model for Record {
    ghost use Rattle.std.specs.Prelude.{vec_len, vec_capacity};
    ghost use Rattle.tao_record.specs.State.{RecordState};
    ghost use Rattle.tao_record.specs.Rooms.{HasRoom};

    ghost Value = { RecordState };

    ghost view = { λ r. record {
      history = record {
        opening = record { shape = r.p; words = r.words; first = r.first; loaded = r.loaded };
        events = r.events.items;
      };
      dones = vec_len r.dones;
      issues = vec_len r.issues;
      others = r.others;
    } };

    ghost invariant = { λ r. HasRoom r.p r.events.items (vec_len r.events) (vec_capacity r.events) r.dones.items r.issues.items (vec_len r.dones) (vec_len r.issues) r.others };
}

impl Record {
    ghost use Rattle.tao_record.specs.State.{opened, added, FitDone, FitIssue, KeepsSpare};
    ghost use Rattle.std.specs.List.{list_any};
    ghost use Rattle.tao_base.specs.Session.{is_fault};

    /// An opening and no events. There is capacity for one Fault and for nothing else.
    pub fn begin(
        alloc: Global,
        p: &Params,
        words: Numbers,
        first: Blocks,
        loaded: Buckets,
    ) -> Result<Record, NoMemory>
        ensures { IfOk result (λ r. r ≡ opened p.now words first loaded) }
    {
        // its contract says that the parameters are within their limits
        let _within = p.l();
        Ok(Record {
            alloc,
            p: *p,
            words,
            first,
            loaded,
            events: Vec::with_capacity(alloc, 1)?,
            dones: Vec::new(alloc),
            issues: Vec::new(alloc),
            others: 0,
        })
    }

    /// Makes the spare Dones, Issues and other events at least these numbers.
    pub fn reserve(&mut self, dones: usize, issues: usize, others: usize) -> Result<(), NoMemory>
        ensures history { self.new.history ≡ self.old.history }
        ensures dones { OnOk result (self.new.dones ≡ max self.old.dones dones) }
        ensures issues { OnOk result (self.new.issues ≡ max self.old.issues issues) }
        ensures others { OnOk result (self.new.others ≡ max self.old.others others) }
        ensures spare { KeepsSpare self.old self.new }
    {
        let dones = self.dones.len().max(dones);
        let issues = self.issues.len().max(issues);
        let others = self.others.max(others);
        let Some(all) = sum_and_fault(dones, issues, others) else {
            return Err(NoMemory);
        };
        self.events.reserve(all)?;
        let path = self.p.l() as usize + 1;
        let nodes = self.p.nodes() as usize;
        let most = (self.p.k() as usize * path).min(nodes);
        lengthen(self.alloc, &self.p, &mut self.dones, dones, path)?;
        lengthen(self.alloc, &self.p, &mut self.issues, issues, most)?;
        self.others = others;
        Ok(())
    }

    /// A client has asked; the word is the next of the tape.
    pub fn add_arrive(&mut self, client: u32, op: Op, word: u32)
        requires { 0 < self.old.others }
        ensures { self.new ≡ record (added self.old (Arrive client op word)) { others = self.old.others - 1 } }
    {
        self.add_other(Event::Arrive { client, op, word });
    }

    /// The fetched buckets of this arrival were admitted. They are copied into a preallocated list.
    pub fn add_done(&mut self, arrival: u64, taken: &[Bucket])
        requires spare { 0 < self.old.dones }
        requires buckets { FitDone self.old.history.opening.shape taken.now }
        ensures { self.new ≡ record (added self.old (Done arrival taken.now)) { dones = self.old.dones - 1 } }
    {
        let taken = take_filled(&mut self.dones, taken);
        self.events.push_reserved(Event::Done { arrival, taken });
    }

    /// A write-back was issued. The buckets are copied into a preallocated list.
    pub fn add_issue(&mut self, version: u32, nonce: u64, buckets: &[Bucket])
        requires spare { 0 < self.old.issues }
        requires buckets { FitIssue self.old.history.opening.shape buckets.now }
        ensures { self.new ≡ record (added self.old (Issue version nonce buckets.now)) { issues = self.old.issues - 1 } }
    {
        let buckets = take_filled(&mut self.issues, buckets);
        self.events.push_reserved(Event::Issue {
            version,
            nonce,
            buckets,
        });
    }

    /// The write-back of this version was acknowledged.
    pub fn add_acked(&mut self, version: u32)
        requires { 0 < self.old.others }
        ensures { self.new ≡ record (added self.old (Acked version)) { others = self.old.others - 1 } }
    {
        self.add_other(Event::Acked { version });
    }

    /// The session is over. There is always capacity for this.
    pub fn add_fault(&mut self, cause: Cause)
        requires { list_any is_fault self.old.history.events ≡ false }
        ensures { self.new ≡ added self.old (Fault cause) }
    {
        self.events.push_reserved(Event::Fault { cause });
    }

    // An event that is no Done, no Issue and no Fault.
    fn add_other(&mut self, event: Event)
        requires { 0 < self.old.others }
        ensures { self.new ≡ record (added self.old event) { others = self.old.others - 1 } }
    {
        self.others -= 1;
        self.events.push_reserved(event);
    }

    /// The events, the oldest first.
    pub fn events(&self) -> &[Event]
        ensures { result.now ≡ self.now.history.events }
    {
        &self.events
    }

    /// The parameters of the session.
    pub fn params(&self) -> &Params
        ensures value { result.now ≡ self.now.history.opening.shape }
        ensures shape { IsShape self.now.history.opening.shape }
    {
        &self.p
    }

    /// A first tape word for each block.
    pub fn words(&self) -> &[u32]
        ensures { result.now ≡ self.now.history.opening.words }
    {
        self.words.as_slice()
    }

    /// The first array.
    pub fn first(&self) -> &[Block]
        ensures { result.now ≡ self.now.history.opening.first }
    {
        self.first.as_slice()
    }

    /// The buckets that the tree was loaded with.
    pub fn loaded(&self) -> &[Bucket]
        ensures { result.now ≡ self.now.history.opening.loaded }
    {
        self.loaded.as_slice()
    }
}

// The sum of the three, and one for the Fault, where a number of events can be so great.
fn sum_and_fault(dones: usize, issues: usize, others: usize) -> Option<usize>
    ensures { SomeIff result (dones + issues + others + 1 < 2 ^ 64) (dones + issues + others + 1) }
{
    dones
        .checked_add(issues)?
        .checked_add(others)?
        .checked_add(1)
}

// Takes the last of the spare rooms, and copies the buckets into it.
fn take_filled(spare: &mut Vec<Buckets>, buckets: &[Bucket]) -> Buckets
    requires some { 0 < vec_len spare.old }
    requires fit { All (λ rooms. Fit BucketFits rooms buckets.now) spare.old.items }
    ensures value { result ≡ buckets.now }
    ensures items { spare.new.items ≡ take (vec_len spare.old - 1) spare.old.items }
    ensures len { vec_len spare.new + 1 ≡ vec_len spare.old }
{
    let Some(mut rooms) = spare.pop() else {
        unreachable!()
    };
    fill_buckets(&mut rooms, buckets);
    rooms
}
