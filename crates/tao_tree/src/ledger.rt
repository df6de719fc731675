//! The log of a link in memory, which is preallocated.
ghost use Rattle.std.specs.Prelude.{◌≡◌, ◌+◌, ◌-◌, ◌*◌, ◌<◌, ◌≤◌, ◌&&◌, [], ◌++◌, length, take, nat_lt, nat_le, vec_len, vec_capacity, max, OnOk, OnErr, All};
ghost use Rattle.tao_base.specs.declared.links.Asked.TheVariants.{Fetch};
ghost use Rattle.tao_base.specs.Links.{asked_of};
ghost use Rattle.tao_tree.specs.Ledgers.{HasLen};
ghost use Rattle.tao_tree.specs.declared.ledger.Note.TheVariants.{Sent};

use std::alloc::Global;
use std::marker::Model;
use tao_base::{Image, NoMemory, Order, append_within};

/// One call: a fetch, or a store with the numbers of its nodes and of its image's bytes.
#[derive(Debug, Drop)]
pub(crate) enum Note {
    Fetched {
        id: u64,
        leaf: u32,
    },
    Sent {
        version: u32,
        nonce: u64,
        nodes: usize,
        bytes: usize,
    },
}

/// A log: the calls, the paths that answered fetches and the versions of acknowledged stores, with capacity for more of them. The nodes
/// and the images of all stores lie one behind another.
#[derive(Debug, Drop)]
pub(crate) struct Ledger {
    path_len: usize,
    bucket_len: usize,
    notes: Vec<Note>,
    nodes: Vec<u32>,
    images: Vec<u8>,
    answers: Vec<Image>,
    stored: Vec<u32>,
    // rooms for the paths to come
    spare: Vec<Image>,
    calls: usize,
    buckets: usize,
}

impl Model for Ledger {
    ghost use Rattle.std.specs.Prelude.{vec_len, vec_capacity};
    ghost use Rattle.tao_base.specs.Links.{told};
    ghost use Rattle.tao_tree.specs.Ledgers.{LedgerState, asked_in};
    ghost use Rattle.tao_tree.specs.Rooms.{HasRooms};

    ghost Value = { LedgerState };

    ghost view = { λ l. record {
      told = told (asked_in l.notes.items l.nodes.items l.images.items) l.answers.items l.stored.items;
      calls = l.calls;
      buckets = l.buckets;
      path_len = l.path_len;
      bucket_len = l.bucket_len;
    } };

    ghost invariant = { λ l. HasRooms l.path_len l.bucket_len l.calls l.buckets l.notes l.nodes l.images l.answers l.spare l.stored };
}

impl Ledger {
    ghost use Rattle.tao_tree.specs.Ledgers.{asked, answered, acknowledged, nothing};

    /// An empty log without capacity.
    pub(crate) fn new(alloc: Global, path_len: usize, bucket_len: usize) -> Ledger
        ensures { result ≡ nothing path_len bucket_len }
    {
        Ledger {
            path_len,
            bucket_len,
            notes: Vec::new(alloc),
            nodes: Vec::new(alloc),
            images: Vec::new(alloc),
            answers: Vec::new(alloc),
            stored: Vec::new(alloc),
            spare: Vec::new(alloc),
            calls: 0,
            buckets: 0,
        }
    }

    /// Preallocates so many more calls, and so many more buckets of stores in all.
    pub(crate) fn reserve(
        &mut self,
        alloc: Global,
        calls: usize,
        buckets: usize,
    ) -> Result<(), NoMemory>
        ensures ok { OnOk result (self.new ≡ record self.old { calls = self.old.calls + calls; buckets = self.old.buckets + buckets }) }
        ensures err { OnErr result (self.new ≡ self.old) }
    {
        let calls = self.calls.checked_add(calls).ok_or(NoMemory)?;
        let buckets = self.buckets.checked_add(buckets).ok_or(NoMemory)?;
        let bytes = buckets.checked_mul(self.bucket_len).ok_or(NoMemory)?;
        self.notes.reserve(calls)?;
        self.nodes.reserve(buckets)?;
        self.images.reserve(bytes)?;
        self.answers.reserve(calls)?;
        self.stored.reserve(calls)?;
        lengthen(alloc, &mut self.spare, calls, self.path_len)?;
        self.calls = calls;
        self.buckets = buckets;
        Ok(())
    }

    /// Whether there is capacity for a call, and for so many buckets where it is a store.
    pub(crate) fn has_room(&self, buckets: usize) -> bool
        ensures { result ≡ (nat_lt 0 self.now.calls && nat_le buckets self.now.buckets) }
    {
        0 < self.calls && buckets <= self.buckets
    }

    /// A fetch that failed.
    pub(crate) fn add_failed_fetch(&mut self, id: u64, leaf: u32)
        requires { 0 < self.old.calls }
        ensures { self.new ≡ asked self.old (Fetch id leaf) 0 }
    {
        self.calls -= 1;
        self.notes.push_reserved(Note::Fetched { id, leaf });
    }

    /// A fetch that this path answered.
    pub(crate) fn add_fetch(&mut self, id: u64, leaf: u32, path: &[u8])
        requires room { 0 < self.old.calls }
        requires path { length path.now ≡ self.old.path_len }
        ensures { self.new ≡ answered (asked self.old (Fetch id leaf) 0) path.now }
    {
        self.calls -= 1;
        self.notes.push_reserved(Note::Fetched { id, leaf });
        self.answers
            .push_reserved(take_filled(&mut self.spare, path));
    }

    /// A store that failed.
    pub(crate) fn add_failed_store(&mut self, order: &Order)
        requires calls { 0 < self.old.calls }
        requires buckets { length order.now.nodes ≤ self.old.buckets }
        requires image { length order.now.image ≡ length order.now.nodes * self.old.bucket_len }
        ensures { self.new ≡ asked self.old (asked_of order.now) (length order.now.nodes) }
    {
        self.calls -= 1;
        self.buckets -= order.nodes.as_slice().len();
        self.notes.push_reserved(note_of(order));
        append_within(&mut self.nodes, order.nodes.as_slice());
        append_within(&mut self.images, order.image.as_slice());
    }

    /// A store that was acknowledged.
    pub(crate) fn add_store(&mut self, order: &Order)
        requires calls { 0 < self.old.calls }
        requires buckets { length order.now.nodes ≤ self.old.buckets }
        requires image { length order.now.image ≡ length order.now.nodes * self.old.bucket_len }
        ensures { self.new ≡ acknowledged (asked self.old (asked_of order.now) (length order.now.nodes)) order.now.version }
    {
        self.calls -= 1;
        self.buckets -= order.nodes.as_slice().len();
        self.notes.push_reserved(note_of(order));
        append_within(&mut self.nodes, order.nodes.as_slice());
        append_within(&mut self.images, order.image.as_slice());
        self.stored.push_reserved(order.version);
    }
}

fn note_of(order: &Order) -> Note
    ensures { result ≡ Sent order.now.version order.now.nonce (length order.now.nodes) (length order.now.image) }
{
    Note::Sent {
        version: order.version,
        nonce: order.nonce,
        nodes: order.nodes.as_slice().len(),
        bytes: order.image.as_slice().len(),
    }
}

// Makes the list of rooms as long as is asked, where it is shorter.
fn lengthen(alloc: Global, spare: &mut Vec<Image>, asked: usize, len: usize) -> Result<(), NoMemory>
    requires { All (HasLen len) spare.old.items }
    ensures ok { OnOk result (asked ≤ vec_len spare.new) }
    ensures low { vec_len spare.old ≤ vec_len spare.new }
    ensures rooms { All (HasLen len) spare.new.items }
{
    for _ in spare.len()..asked {
        spare.push(Image::from_vec(vec![in alloc; 0; len]?))?;
    }
    Ok(())
}

// Takes the last of the rooms, and copies the path into it.
fn take_filled(spare: &mut Vec<Image>, path: &[u8]) -> Image
    requires some { 0 < vec_len spare.old }
    requires paths { All (HasLen (length path.now)) spare.old.items }
    ensures value { result ≡ path.now }
    ensures len { vec_len spare.new + 1 ≡ vec_len spare.old }
    ensures paths { All (HasLen (length path.now)) spare.new.items }
{
    match spare.pop() {
        Some(mut room) => {
            room.as_mut_slice().copy_from_slice(path);
            room
        }
        None => unreachable!(),
    }
}
