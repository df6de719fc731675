//! What the closing scan sees: of each block the first value.
ghost use Rattle.std.specs.Prelude.{List, ◌≡◌, ◌+◌, ◌<◌, ◌≤◌, [], ◌∷◌, ◌++◌, map, length, replicate, All, IfOk, vec_len, vec_capacity};
ghost use Rattle.std.specs.List.{filter_map, flat_map};
ghost use Rattle.std.specs.Option.{option_to_list};
ghost use Rattle.tao_base.specs.declared.storage.Entry.{Entry as TheEntry};
ghost use Rattle.tao_base.specs.Limits.{Shape};
ghost use Rattle.tao_base.specs.Tree.{node_count};
ghost use Rattle.tao_flush.specs.Blocks.{IsEntry};
ghost use Rattle.tao_images.specs.Paths.{held_in};
ghost use Rattle.tao_desk.specs.Scanning.{Sees};

use std::alloc::Global;
use std::snapshot::Snapshot;
use tao_base::{Block, Bucket, Entry, NoMemory, Params};
use tao_bucket::Room;

/// The first value of each block, whether it has one yet, and, for contracts alone, the buckets that were read.
#[derive(Drop)]
pub(crate) struct Seen {
    pub values: Vec<Block>,
    pub known: Vec<bool>,
    pub taken: Vec<Snapshot<Bucket>>,
}

impl Seen {
    /// Nothing was seen. There is room for all nodes.
    pub(crate) fn new(alloc: Global, p: &Params) -> Result<Seen, NoMemory>
        ensures sees { IfOk result (λ seen. Sees p.now [] seen.values.items seen.known.items) }
        ensures taken { IfOk result (λ seen. seen.taken.items ≡ []) }
        ensures space { IfOk result (λ seen. node_count p.now.l < vec_capacity seen.taken) }
    {
        let n = p.n() as usize;
        Ok(Seen {
            values: zero_blocks(alloc, n, p.b() as usize)?,
            known: vec![in alloc; false; n]?,
            taken: Vec::with_capacity(alloc, p.nodes() as usize + 1)?,
        })
    }

    /// Sees entries.
    pub(crate) fn see(&mut self, entries: &[Entry])
        requires each { (s : Shape) × (before : List TheEntry) × Sees s before self.old.values.items self.old.known.items × All (IsEntry s) entries.now }
        ensures sees { (s : Shape) (before : List TheEntry) → Sees s before self.old.values.items self.old.known.items → All (IsEntry s) entries.now
            → Sees s (before ++ entries.now) self.new.values.items self.new.known.items }
        ensures taken { self.new.taken ≡ self.old.taken }
    {
        for entry in entries {
            self.see_one(entry);
        }
    }

    // Sees one entry, which counts if it is the first of its block.
    fn see_one(&mut self, entry: &Entry)
        requires each { (s : Shape) × (before : List TheEntry) × Sees s before self.old.values.items self.old.known.items × IsEntry s entry.now }
        ensures sees { (s : Shape) (before : List TheEntry) → Sees s before self.old.values.items self.old.known.items → IsEntry s entry.now
            → Sees s (before ++ entry.now ∷ []) self.new.values.items self.new.known.items }
        ensures taken { self.new.taken ≡ self.old.taken }
    {
        let block = entry.id as usize;
        if self.known[block] {
            return;
        }
        self.values[block]
            .as_mut_slice()
            .copy_from_slice(entry.value.as_slice());
        self.known[block] = true;
    }

    /// Sees the entries of the buckets in rooms, and remembers the buckets.
    pub(crate) fn read(&mut self, rooms: &[Room])
        requires each { (s : Shape) × (before : List TheEntry) × Sees s before self.old.values.items self.old.known.items
            × All (λ bucket. All (IsEntry s) bucket.entries) (filter_map held_in rooms.now) }
        requires space { vec_len self.old.taken + length (filter_map held_in rooms.now) ≤ vec_capacity self.old.taken }
        ensures sees { (s : Shape) (before : List TheEntry) → Sees s before self.old.values.items self.old.known.items
            → All (λ bucket. All (IsEntry s) bucket.entries) (filter_map held_in rooms.now)
            → Sees s (before ++ flat_map (λ bucket. bucket.entries) (filter_map held_in rooms.now)) self.new.values.items self.new.known.items }
        ensures taken { map (λ bucket. bucket.value) self.new.taken.items ≡ map (λ bucket. bucket.value) self.old.taken.items ++ filter_map held_in rooms.now }
        ensures capacity { vec_capacity self.new.taken ≡ vec_capacity self.old.taken }
    {
        for room in rooms {
            self.read_one(room);
        }
    }

    // The same of one room.
    fn read_one(&mut self, room: &Room)
        requires each { (s : Shape) × (before : List TheEntry) × Sees s before self.old.values.items self.old.known.items
            × All (λ bucket. All (IsEntry s) bucket.entries) (option_to_list room.now.held) }
        requires space { vec_len self.old.taken + length (option_to_list room.now.held) ≤ vec_capacity self.old.taken }
        ensures sees { (s : Shape) (before : List TheEntry) → Sees s before self.old.values.items self.old.known.items
            → All (λ bucket. All (IsEntry s) bucket.entries) (option_to_list room.now.held)
            → Sees s (before ++ flat_map (λ bucket. bucket.entries) (option_to_list room.now.held)) self.new.values.items self.new.known.items }
        ensures taken { map (λ bucket. bucket.value) self.new.taken.items ≡ map (λ bucket. bucket.value) self.old.taken.items ++ option_to_list room.now.held }
        ensures capacity { vec_capacity self.new.taken ≡ vec_capacity self.old.taken }
    {
        let Some(bucket) = room.bucket() else {
            return;
        };
        self.see(bucket.entries.as_slice());
        self.taken.push_reserved(Snapshot::of(bucket));
    }
}

// Blocks of zero bytes, so many.
fn zero_blocks(alloc: Global, count: usize, len: usize) -> Result<Vec<Block>, NoMemory>
    ensures { IfOk result (λ blocks. blocks.items ≡ replicate count (replicate len 0)) }
{
    let mut blocks = Vec::with_capacity(alloc, count)?;
    for _ in 0..count {
        blocks.push(Block::from_vec(vec![in alloc; 0; len]?))?;
    }
    Ok(blocks)
}
