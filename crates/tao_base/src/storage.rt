//! What lies in the tree of the server, and what is sent there.
ghost use Rattle.std.specs.Prelude.{◌≡◌, ◌<◌, [], ◌∷◌, ◌++◌, length, take, IfOk, OnOk, OnErr, IsOk};
ghost use Rattle.std.specs.Borrow.{sem};

use crate::failures::NoMemory;
use crate::lists::{Block, Image, Numbers};
use std::alloc::Global;
use std::fmt;
use std::marker::Model;

/// One block in a bucket or in the stash.
#[derive(Debug, Drop)]
pub struct Entry {
    pub id: u32,
    pub value: Block,
}

/// The entries of a bucket. It has capacity for 8, as many as a bucket may have, so up to 8 are put without an allocation.
#[derive(Debug, Drop)]
pub struct Entries {
    items: Vec<Entry>,
}

impl Model for Entries {
    ghost use Rattle.std.specs.Prelude.{List, ◌≤◌, vec_capacity};
    ghost use Rattle.tao_base.specs.declared.storage.Entry.{Entry};

    ghost Value = { List Entry };

    ghost view = { λ it. it.items.items };

    ghost invariant = { λ it. 8 ≤ vec_capacity it.items };
}

impl Entries {
    ghost use Rattle.tao_base.specs.Items.{LendsEntries};

    pub fn new(alloc: Global) -> Result<Self, NoMemory>
        ensures { IfOk result (λ list. list ≡ []) }
    {
        match Vec::with_capacity(alloc, 8) {
            Ok(items) => Ok(Entries { items }),
            Err(_) => Err(NoMemory),
        }
    }

    pub fn push(&mut self, item: Entry) -> Result<(), NoMemory>
        ensures ok { OnOk result (self.new ≡ self.old ++ item ∷ []) }
        ensures err { OnErr result (self.new ≡ self.old) }
        ensures room { length self.old < 8 → IsOk result }
    {
        match self.items.push(item) {
            Ok(()) => Ok(()),
            Err(_) => Err(NoMemory),
        }
    }

    /// Appends an entry within the capacity of 8.
    pub fn push_reserved(&mut self, item: Entry)
        requires { length self.old < 8 }
        ensures { self.new ≡ self.old ++ item ∷ [] }
    {
        self.items.push_reserved(item);
    }

    /// Takes the last entry out.
    pub fn take_last(&mut self) -> Entry
        requires { 0 < length self.old }
        ensures { self.old ≡ self.new ++ result ∷ [] }
    {
        let last = self.items.len() - 1;
        self.items.swap_remove(last)
    }

    pub fn as_slice(&self) -> &[Entry]
        ensures { result.now ≡ self.now }
    {
        &self.items
    }

    pub fn as_mut_slice(&mut self) -> &mut [Entry]
        ensures* writes_back { sem 𝓛 (LendsEntries self.entry result) }
        ensures value { result.now ≡ self.old }
    {
        &mut self.items
    }

    /// Keeps the first `n` entries, or all where there are no more.
    pub fn truncate(&mut self, n: usize)
        ensures { self.new ≡ take n self.old }
    {
        self.items.truncate(n);
    }
}

/// A bucket of the tree: what lies at a node, with the version of the write that put it there and the nonce of its keystream.
#[derive(Debug, Drop)]
pub struct Bucket {
    pub node: u32,
    pub version: u32,
    pub nonce: u64,
    pub entries: Entries,
}

/// A write-back, as it is sent: the encodings of its buckets one after another, their nodes, the version of all, and the nonce of the
/// first bucket, from which the others count on.
#[derive(Debug, Drop)]
pub struct Order {
    pub version: u32,
    pub nonce: u64,
    pub nodes: Numbers,
    pub image: Image,
}

/// Why bytes are no bucket of the wanted node. The first that applies is told, in the order Length, Format, Padding, Node, Tag, and then
/// slot after slot Id, Dummy, Order.
#[derive(Clone, Copy, Debug, PartialEq, Eq)]
pub enum BucketFault {
    /// Not as many bytes as a bucket has.
    Length = 1,
    /// Another format than the wanted one.
    Format = 2,
    /// A bit is set where the header has none.
    Padding = 3,
    /// A bucket of another node.
    Node = 4,
    /// No block has that id.
    Id = 5,
    /// The ids don't rise, or an entry follows a dummy.
    Order = 6,
    /// A bit is set in a slot without an entry.
    Dummy = 7,
    /// The tag isn't that of the bytes before it.
    Tag = 8,
}

impl fmt::Display for BucketFault {
    fn fmt<W: fmt::Write>(&self, f: &mut fmt::Formatter<W>) -> fmt::Result {
        match self {
            BucketFault::Length => write!(f, "Length"),
            BucketFault::Format => write!(f, "Format"),
            BucketFault::Padding => write!(f, "Padding"),
            BucketFault::Node => write!(f, "Node"),
            BucketFault::Id => write!(f, "Id"),
            BucketFault::Order => write!(f, "Order"),
            BucketFault::Dummy => write!(f, "Dummy"),
            BucketFault::Tag => write!(f, "Tag"),
        }
    }
}
