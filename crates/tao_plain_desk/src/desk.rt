//! The desk: it plays one whole operation after another, and keeps the record of all.
ghost use Rattle.std.specs.Prelude.{◌≡◌, ◌+◌, ◌<◌, ◌≤◌, ◌*◌, ◌^◌, ◌⊎◌, ◌∷◌, [], ◌++◌, length, reverse, slice_index, Some, None, Ok, Err, IfOk, IfErr, OnOk, OnErr, IfNone, All, vec_len};
ghost use Rattle.tao_base.specs.Array.{array_reply};
ghost use Rattle.tao_base.specs.Limits.{IsShape};
ghost use Rattle.tao_base.specs.declared.session.Event.TheVariants.{Arrive, Done, Issue, Acked};
ghost use Rattle.tao_model.specs.Replies.{array_now};
ghost use Rattle.tao_model.specs.Trace.{nodes_in};
ghost use Rattle.tao_plain_desk.specs.declared.faults.ArriveFault.TheVariants.{Memory};
ghost use Rattle.tao_base.specs.Limits.{session_limit};
ghost use Rattle.tao_base.specs.Tree.{node_count, leaf_of as leaf_of_word};
ghost use Rattle.tao_model.specs.Lawful.{IsInRange};
ghost use Rattle.tao_plain_desk.specs.Quiet.{AreEmpty, AreStamped};
ghost use Rattle.tao_plain_desk.specs.Whole.{op_refusal as op_refusal_of, empty_load as empty_load_of, empty_bucket as empty_bucket_of};

use crate::faults::ArriveFault;
use crate::paths::{gather_to, stamp_all, store_to};
use crate::values::{copy_for, exchange, take_place};
use std::alloc::Global;
use std::marker::Model;
use tao_base::{Block, Blocks, Bucket, Buckets, Entries, NoMemory, Numbers, Op, Params, Reply};
use tao_record::Record;

/// The proxy of one session with period 1. It answers from an array of its own; the server is a list of buckets in clear, without
/// entries.
#[derive(Debug, Drop)]
pub struct Desk {
    alloc: Global,
    p: Params,
    session: Record,
    tape: Numbers,
    array: Blocks,
    // the word of each block's position
    places: Numbers,
    server: Buckets,
    // the buckets of the path in work
    path: Buckets,
    arrivals: u32,
}

impl Model for Desk {
    ghost use Rattle.std.specs.Prelude.{◌≡◌};
    ghost use Rattle.tao_plain_desk.specs.Whole.{DeskState};
    ghost use Rattle.tao_plain_desk.specs.Quiet.{IsDesk};

    ghost Value = { DeskState };

    ghost view = { λ d. record { history = d.session.history; tape = d.tape } };

    ghost invariant = { λ d. (d.p ≡ d.session.history.opening.shape) × IsDesk d.session.history d.tape d.array d.places d.server d.path d.arrivals };
}

impl Desk {
    ghost use Rattle.tao_plain_desk.specs.Whole.{started, arrivals_of, words_left, IsSound, PlaysOne, refusal};

    /// A desk whose record is the opening: each block has its word of the tape and its value.
    pub fn start(alloc: Global, p: Params, words: Numbers, blocks: Blocks) -> Result<Desk, NoMemory>
        requires once { p.k ≡ 1 }
        requires words { p.n ≤ length words }
        requires count { length blocks ≡ p.n }
        requires values { All (λ value. length value ≡ p.b) blocks }
        ensures state { IfOk result (λ d. d ≡ started p words blocks) }
        ensures sound { IfOk result (λ d. IsSound d.history) }
        ensures left { IfOk result (λ d. words_left d + p.n ≡ length words) }
        ensures count { IfOk result (λ d. arrivals_of d.history ≡ 0) }
    {
        let n = p.n() as usize;
        let own = Numbers::from_slice(alloc, &words.as_slice()[..n])?;
        let places = Numbers::from_slice(alloc, own.as_slice())?;
        let server = empty_load(alloc, p.nodes())?;
        let loaded = empty_load(alloc, p.nodes())?;
        let array = copies(alloc, blocks.as_slice())?;
        let path = empty_load(alloc, p.l() + 1)?;
        let session = Record::begin(alloc, &p, own, blocks, loaded)?;
        Ok(Desk {
            alloc,
            p,
            session,
            tape: words,
            array,
            places,
            server,
            path,
            arrivals: 0,
        })
    }

    /// Plays one operation: it arrives, is fetched, is written back and is acknowledged. The reply has the value before it.
    pub fn do_one(&mut self, client: u32, op: Op) -> Result<Reply, ArriveFault>
        requires client { client < 64 }
        requires word { 0 < words_left self.old }
        ensures refused { IfErr result (λ e. (refusal self.old.history op ≡ Some e) ⊎ ((e ≡ Memory) × (refusal self.old.history op ≡ None))) }
        ensures taken { IfOk result (λ _. refusal self.old.history op ≡ None) }
        ensures err { OnErr result (self.new ≡ self.old) }
        ensures events { IfOk result (λ _. PlaysOne self.old.history self.new.history client op (slice_index self.old.tape (self.old.history.opening.shape.n + arrivals_of self.old.history))) }
        ensures arrival { IfOk result (λ r. (r.arrival ≡ arrivals_of self.old.history) × (r.client ≡ client)) }
        ensures reply { IfOk result (λ r. r.value ≡ array_reply (array_now self.old.history.opening (reverse self.old.history.events)) op) }
        ensures tape { self.new.tape ≡ self.old.tape }
        ensures left { IfOk result (λ _. words_left self.new + 1 ≡ words_left self.old) }
        ensures count { IfOk result (λ _. arrivals_of self.new.history ≡ arrivals_of self.old.history + 1) }
        ensures sound { IsSound self.new.history }
    {
        match self.refusal_of(&op) {
            Some(fault) => return Err(fault),
            None => {}
        }
        let Ok(value) = copy_for(self.alloc, self.array.as_slice(), &op) else {
            return Err(ArriveFault::Memory);
        };
        make_room(&mut self.session)?;
        let arrival = self.arrivals;
        let word = self.tape.as_slice()[self.p.n() as usize + arrival as usize];
        let leaf = leaf_of(&self.p, take_place(&mut self.places, &op, word));
        let value = exchange(&mut self.array, &op, value);
        let nonce = first_nonce(&self.p, arrival);
        gather_to(&self.p, leaf, self.server.as_slice(), &mut self.path);
        add_four(
            &mut self.session,
            client,
            op,
            word,
            arrival,
            nonce,
            &mut self.path,
        );
        store_to(self.path.as_slice(), &mut self.server);
        self.arrivals += 1;
        Ok(Reply {
            arrival: u64::from(arrival),
            client,
            value,
        })
    }

    // Why the operation is refused, if it is.
    fn refusal_of(&self, op: &Op) -> Option<ArriveFault>
        ensures value { result ≡ refusal self.now.history op.now }
        ensures room { IfNone result (arrivals_of self.now.history < session_limit self.now.history.opening.shape) }
        ensures range { IfNone result (IsInRange self.now.history.opening.shape op.now) }
    {
        if self.arrivals >= self.p.session_limit() {
            return Some(ArriveFault::SessionFull);
        }
        op_refusal(&self.p, op)
    }

    /// The plain array after all arrivals.
    pub fn final_array(&self, alloc: Global) -> Result<Blocks, NoMemory>
        ensures { IfOk result (λ blocks. blocks ≡ array_now self.now.history.opening (reverse self.now.history.events)) }
    {
        copies(alloc, self.array.as_slice())
    }

    pub fn params(&self) -> &Params
        ensures value { result.now ≡ self.now.history.opening.shape }
        ensures shape { IsShape self.now.history.opening.shape }
    {
        self.session.params()
    }

    /// The record so far.
    pub fn history(&self) -> &Record
        ensures value { result.now.history ≡ self.now.history }
        ensures sound { IsSound self.now.history }
    {
        &self.session
    }

    /// Hands the record out.
    pub fn into_history(self) -> Record
        ensures value { result.history ≡ self.history }
        ensures sound { IsSound self.history }
    {
        self.session
    }
}

// Why an operation is refused, whatever the session's length.
fn op_refusal(p: &Params, op: &Op) -> Option<ArriveFault>
    ensures value { result ≡ op_refusal_of p.now op.now }
    ensures range { IfNone result (IsInRange p.now op.now) }
{
    match op {
        Op::Read(id) => if *id < p.n() {
            None
        } else {
            Some(ArriveFault::NoBlock)
        },
        Op::Write(id, value) => {
            if *id >= p.n() {
                Some(ArriveFault::NoBlock)
            } else if value.as_slice().len() == p.b() as usize {
                None
            } else {
                Some(ArriveFault::BlockLength)
            }
        }
        Op::Pad => None,
    }
}

fn leaf_of(p: &Params, word: u32) -> u32
    ensures value { result ≡ leaf_of_word p.now.l word }
    ensures small { result < 2 ^ p.now.l }
{
    word % (1 << p.l())
}

// Preallocates the record's space for one operation.
fn make_room(session: &mut Record) -> Result<(), ArriveFault>
    ensures history { session.new.history ≡ session.old.history }
    ensures dones { OnOk result (0 < session.new.dones) }
    ensures issues { OnOk result (0 < session.new.issues) }
    ensures others { OnOk result (2 ≤ session.new.others) }
    ensures err { IfErr result (λ e. e ≡ Memory) }
{
    match session.reserve(1, 1, 2) {
        Ok(()) => Ok(()),
        Err(NoMemory) => Err(ArriveFault::Memory),
    }
}

// The nonce of the first bucket of the write-back behind this arrival.
fn first_nonce(p: &Params, arrival: u32) -> u64
    requires { arrival ≤ 65536 }
    ensures value { result ≡ node_count p.now.l + 1 + arrival * (p.now.l + 1) }
    ensures small { result < 2 ^ 32 }
{
    u64::from(p.nodes()) + 1 + u64::from(arrival) * u64::from(p.l() + 1)
}

#[tactic(auto, using(crate::proofs::DeskStep::fits_room, crate::proofs::DeskStep::one_path_room))]
// Adds the four events of an operation. The path comes with the fetched buckets and leaves with those written back.
fn add_four(
    session: &mut Record,
    client: u32,
    op: Op,
    word: u32,
    arrival: u32,
    nonce: u64,
    path: &mut Buckets,
)
    requires dones { 0 < session.old.dones }
    requires issues { 0 < session.old.issues }
    requires others { 2 ≤ session.old.others }
    requires once { session.old.history.opening.shape.k ≡ 1 }
    requires path { length path.old ≡ session.old.history.opening.shape.l + 1 }
    requires empty { AreEmpty path.old }
    requires arrival { arrival ≤ 65536 }
    requires nonce { nonce < 2 ^ 32 }
    ensures opening { session.new.history.opening ≡ session.old.history.opening }
    ensures events { session.new.history.events ≡ session.old.history.events ++ Arrive client op word ∷ Done arrival path.old ∷ Issue (arrival + 1) nonce path.new ∷ Acked (arrival + 1) ∷ [] }
    ensures stamped { AreStamped (nodes_in path.old) (arrival + 1) nonce path.new }
    ensures len { length path.new ≡ length path.old }
{
    session.add_arrive(client, op, word);
    session.add_done(u64::from(arrival), path.as_slice());
    let version = arrival + 1;
    stamp_all(path, version, nonce);
    session.add_issue(version, nonce, path.as_slice());
    session.add_acked(version);
}

#[tactic(auto, using(crate::proofs::PathBuckets::load_more))]
// Nodes 1 to `nodes`, each with version 0, its number as nonce, and no entries.
fn empty_load(alloc: Global, nodes: u32) -> Result<Buckets, NoMemory>
    requires { nodes < 2 ^ 31 }
    ensures { IfOk result (λ buckets. buckets ≡ empty_load_of nodes) }
{
    let mut buckets = Buckets::new(alloc);
    for node in 1..nodes + 1 {
        buckets.push(empty_bucket(alloc, node)?)?;
    }
    Ok(buckets)
}

fn empty_bucket(alloc: Global, node: u32) -> Result<Bucket, NoMemory>
    ensures { IfOk result (λ bucket. bucket ≡ empty_bucket_of node 0 node) }
{
    Ok(Bucket {
        node,
        version: 0,
        nonce: u64::from(node),
        entries: Entries::new(alloc)?,
    })
}

fn copies(alloc: Global, blocks: &[Block]) -> Result<Blocks, NoMemory>
    ensures { IfOk result (λ copy. copy ≡ blocks.now) }
{
    let mut copy = Blocks::new(alloc);
    for block in blocks {
        copy.push(Block::from_slice(alloc, block.as_slice())?)?;
    }
    Ok(copy)
}
