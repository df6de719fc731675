//! What a world keeps of the requests that are under way.
ghost use Rattle.std.specs.Prelude.{◌≡◌, ◌+◌, ◌*◌, ◌^◌, ◌<◌, ◌≤◌, ◌==◌, [], not, false, true, length, replicate, slice_set, count_by, IfOk, slice_index, ◌&&◌};
ghost use Rattle.std.specs.List.{list_all, range_with_len};
ghost use Rattle.tao_base.specs.Limits.{bucket_len};
ghost use Rattle.tao_base.specs.Tree.{node_at, node_count};
ghost use Rattle.tao_tree.specs.Nodes.{bytes_at};
ghost use Rattle.tao_world.specs.Changes.{bucket_put, with_bucket, new_sending, with_put};
ghost use Rattle.tao_world.specs.Moving.{IsUnread};
ghost use Rattle.tao_world.specs.State.{is_set_at};
ghost use Rattle.tao_world.specs.Steps.{has_left};
ghost use Rattle.tao_world.specs.World.{IsRoom};

use std::alloc::Global;
use std::marker::Model;
use std::mem;
use tao_base::{NoMemory, Order, Params, path_node};
use tao_desk::Ask;
use tao_tree::Tree;

/// The buckets of a path as they were read, and which were. It is empty until the first is read.
#[derive(Debug, Drop)]
pub(crate) struct PathRoom {
    pub read: Vec<bool>,
    pub bytes: Vec<u8>,
}

impl Model for PathRoom {
    ghost use Rattle.tao_world.specs.World.{RoomState};

    ghost Value = { RoomState };

    ghost view = { λ r. record { read = r.read.items; bytes = r.bytes.items } };
}

impl PathRoom {
    /// Room for no path.
    pub(crate) fn none(alloc: Global) -> PathRoom
        ensures { result ≡ record { read = []; bytes = [] } }
    {
        PathRoom {
            read: Vec::new(alloc),
            bytes: Vec::new(alloc),
        }
    }

    // Room for a path of which nothing is read.
    fn new(alloc: Global, p: &Params) -> Result<PathRoom, NoMemory>
        ensures { IfOk result (λ room. IsUnread p.now room) }
    {
        let depths = p.l() as usize + 1;
        let len = p.bucket_len() as usize;
        Ok(PathRoom {
            read: vec![in alloc; false; depths]?,
            bytes: vec![in alloc; 0u8; depths * len]?,
        })
    }

    /// Whether it is room for no path.
    pub(crate) fn is_none(&self) -> bool
        ensures { result ≡ (length self.now.read == 0) }
    {
        self.read.is_empty()
    }

    /// Takes this room, if it is one for a path, or else a new one. Nothing is read in it.
    pub(crate) fn take_or_new(&mut self, alloc: Global, p: &Params) -> Result<PathRoom, NoMemory>
        requires { IsRoom p.now self.old.read self.old.bytes }
        ensures unread { IfOk result (λ room. IsUnread p.now room) }
        ensures room { IsRoom p.now self.new.read self.new.bytes }
    {
        if self.is_none() {
            return PathRoom::new(alloc, p);
        }
        let mut room = mem::replace(self, PathRoom::none(alloc));
        room.clear();
        Ok(room)
    }

    // Whether the bucket at depth `d` was read.
    fn is_read(&self, d: usize) -> bool
        ensures { result ≡ is_set_at self.now.read d }
    {
        d < self.read.len() && self.read[d]
    }

    // Forgets what was read.
    fn clear(&mut self)
        ensures { self.new ≡ record self.old { read = replicate (length self.old.read) false } }
    {
        self.read.fill(false);
    }

    // Reads a node's bucket from the tree, to depth `d`.
    fn read_node(&mut self, tree: &Tree, node: u32, d: usize)
        requires low { 1 ≤ node }
        requires high { node ≤ node_count tree.now.shape.l }
        requires depth { d < length self.old.read }
        requires bytes { length self.old.bytes ≡ length self.old.read * bucket_len tree.now.shape }
        ensures { self.new ≡ record { read = slice_set self.old.read d true; bytes = bucket_put (bucket_len tree.now.shape) self.old.bytes d (bytes_at tree.now node) } }
    {
        let len = tree.params().bucket_len() as usize;
        read_bucket(tree, node, &mut self.bytes, d, len);
        self.read[d] = true;
    }
}

// Reads a node's bucket in place of bucket `i` of these bytes.
fn read_bucket(tree: &Tree, node: u32, bytes: &mut [u8], i: usize, len: usize)
    requires low { 1 ≤ node }
    requires high { node ≤ node_count tree.now.shape.l }
    requires len { len ≡ bucket_len tree.now.shape }
    requires within { i * len + len ≤ length bytes.old }
    ensures { bytes.new ≡ bucket_put len bytes.old i (bytes_at tree.now node) }
{
    let at = i * len;
    tree.read(node, &mut bytes[at..at + len]);
}

/// A fetch under way.
#[derive(Debug, Drop)]
pub(crate) struct Fetch {
    pub ask: Ask,
    pub room: PathRoom,
}

impl Model for Fetch {
    ghost use Rattle.tao_world.specs.State.{Reading};

    ghost Value = { Reading };

    ghost view = { λ f. record { arrival = f.ask.arrival; leaf = f.ask.leaf; read = f.room.read; bytes = f.room.bytes } };
}

impl Fetch {
    /// A fetch of which nothing is read.
    pub(crate) fn new(alloc: Global, ask: Ask) -> Fetch
        ensures { result ≡ record { arrival = ask.arrival; leaf = ask.leaf; read = []; bytes = [] } }
    {
        Fetch {
            ask,
            room: PathRoom::none(alloc),
        }
    }

    /// Whether the bucket at depth `d` of its path was read.
    pub(crate) fn is_read(&self, d: u32) -> bool
        ensures { result ≡ is_set_at self.now.read d }
    {
        self.room.is_read(d as usize)
    }

    /// Whether all buckets above this depth were read.
    pub(crate) fn is_whole(&self, depths: u32) -> bool
        ensures { result ≡ list_all (is_set_at self.now.read) (range_with_len 0 depths) }
    {
        (0..depths).all(|d| self.is_read(d))
    }

    /// Reads the bucket at depth `d` of its path from the tree.
    pub(crate) fn read_from(&mut self, tree: &Tree, d: u32)
        requires leaf { self.old.leaf < 2 ^ tree.now.shape.l }
        requires depth { d ≤ tree.now.shape.l }
        requires flags { length self.old.read ≡ tree.now.shape.l + 1 }
        requires bytes { length self.old.bytes ≡ (tree.now.shape.l + 1) * bucket_len tree.now.shape }
        ensures { self.new ≡ with_bucket tree.now.shape self.old d (bytes_at tree.now (node_at tree.now.shape.l self.old.leaf d)) }
    {
        let node = path_node(tree.params(), self.ask.leaf(), d);
        self.room.read_node(tree, node, d as usize);
    }
}

/// A store under way: the order of its write-back, which of its nodes were put, and how many weren't.
#[derive(Debug, Drop)]
pub(crate) struct Store {
    pub order: Order,
    pub put: Vec<bool>,
    pub left: usize,
}

impl Model for Store {
    ghost use Rattle.tao_world.specs.State.{Sending};

    ghost Value = { Sending };

    ghost view = { λ s. record { order = s.order; put = s.put.items; left = s.left } };
}

impl Store {
    /// A store of which nothing was put. The flags may be more than it has nodes.
    pub(crate) fn new(order: Order, flags: Vec<bool>) -> Store
        requires unset { flags.items ≡ replicate (length flags.items) false }
        requires few { length order.nodes ≤ length flags.items }
        ensures { result ≡ new_sending order }
    {
        let left = order.nodes.as_slice().len();
        let mut put = flags;
        put.truncate(left);
        Store { order, put, left }
    }

    /// Whether node `j` was put.
    pub(crate) fn is_put(&self, j: usize) -> bool
        ensures { result ≡ is_set_at self.now.put j }
    {
        j < self.put.len() && self.put[j]
    }

    // Whether node `j` is this one, and wasn't put.
    fn is_left(&self, j: usize, node: u32) -> bool
        ensures { result ≡ (slice_index self.now.order.nodes j == node && not (is_set_at self.now.put j)) }
    {
        let nodes = self.order.nodes.as_slice();
        let there = if j < nodes.len() { nodes[j] } else { 0 };
        there == node && !self.is_put(j)
    }

    /// Whether it has this node and hasn't put it yet.
    pub(crate) fn has_left(&self, node: u32) -> bool
        ensures { result ≡ has_left node self.now }
    {
        (0..self.nodes()).any(|j| self.is_left(j, node))
    }

    /// How many nodes it has.
    pub(crate) fn nodes(&self) -> usize
        ensures { result ≡ length self.now.order.nodes }
    {
        self.order.nodes.as_slice().len()
    }

    #[tactic(auto, using(crate::proofs::Tables::some_left))]
    /// Notes that node `j` was put.
    pub(crate) fn set_put(&mut self, j: usize)
        requires within { j < length self.old.put }
        requires counted { self.old.left ≡ count_by not self.old.put }
        ensures { self.new ≡ with_put self.old j }
    {
        let again = self.put[j];
        self.put[j] = true;
        if !again {
            self.left -= 1;
        }
    }
}
