//! The blocks of a room: those of the bucket's entries, and those to spare.
ghost use Rattle.std.specs.Prelude.{◌≡◌, ◌+◌, ◌*◌, ◌<◌, ◌≤◌, [], ◌∷◌, ◌++◌, length, map, vec_len, vec_capacity, All, IfOk};
ghost use Rattle.std.specs.Option.{option_to_list};
ghost use Rattle.tao_bucket.specs.Encoding.{value_of, IsBlock, HasBlock};
ghost use Rattle.tao_bucket.specs.Reading.{entry_of, entries_of};
ghost use Rattle.tao_bucket.specs.Rooms.{IsStock};

use crate::slots::{id_field, slot_at};
use std::alloc::Global;
use std::mem;
use tao_base::{Block, Bucket, Entries, Entry, NoMemory, Params};

/// `count` blocks of `len` bytes.
pub(crate) fn zero_blocks(alloc: Global, count: usize, len: usize) -> Result<Vec<Block>, NoMemory>
    ensures count { IfOk result (λ blocks. vec_len blocks ≡ count) }
    ensures values { IfOk result (λ blocks. All (IsBlock len) blocks.items) }
    ensures capacity { IfOk result (λ blocks. count ≤ vec_capacity blocks) }
{
    let mut blocks = Vec::with_capacity(alloc, count)?;
    for _ in 0..count {
        blocks.push_reserved(Block::from_vec(vec![in alloc; 0; len]?));
    }
    Ok(blocks)
}

/// A bucket with as many blocks as one of the store may have, which `Room::exchange` takes.
pub fn stocked(alloc: Global, p: &Params) -> Result<Bucket, NoMemory>
    ensures { IfOk result (λ bucket. IsStock p.now.z p.now.b bucket.entries) }
{
    let mut entries = Entries::new(alloc)?;
    let z = p.z();
    let b = p.b() as usize;
    for _ in 0..z {
        let value = Block::from_vec(vec![in alloc; 0; b]?);
        entries.push_reserved(Entry { id: 0, value });
    }
    Ok(Bucket {
        node: 0,
        version: 0,
        nonce: 0,
        entries,
    })
}

/// Takes the blocks of all entries back, and the entries out.
pub(crate) fn release(alloc: Global, entries: &mut Entries, spare: &mut Vec<Block>)
    requires { vec_len spare.old + length entries.old ≤ vec_capacity spare.old }
    ensures entries { entries.new ≡ [] }
    ensures spare { spare.new.items ≡ spare.old.items ++ map value_of entries.old }
    ensures len { vec_len spare.new ≡ vec_len spare.old + length entries.old }
    ensures capacity { vec_capacity spare.new ≡ vec_capacity spare.old }
{
    take_blocks(alloc, entries.as_mut_slice(), spare);
    entries.truncate(0);
}

fn take_blocks(alloc: Global, entries: &mut [Entry], spare: &mut Vec<Block>)
    requires { vec_len spare.old + length entries.old ≤ vec_capacity spare.old }
    ensures spare { spare.new.items ≡ spare.old.items ++ map value_of entries.old }
    ensures len { vec_len spare.new ≡ vec_len spare.old + length entries.old }
    ensures capacity { vec_capacity spare.new ≡ vec_capacity spare.old }
{
    for i in 0..entries.len() {
        let entry = &mut entries[i];
        let value = mem::replace(&mut entry.value, Block::new(alloc));
        spare.push_reserved(value);
    }
}

#[tactic(auto, using(crate::proofs::Firsts::given_more), unfolding(crate::specs::Reading::entry_at))]
/// Puts the entries of the slots, with blocks of those to spare.
pub(crate) fn fill(p: &Params, slots: &[u8], entries: &mut Entries, spare: &mut Vec<Block>)
    requires slots { length slots.now ≡ p.now.z * (4 + p.now.b) }
    requires entries { entries.old ≡ [] }
    requires enough { p.now.z ≤ vec_len spare.old }
    requires values { All (IsBlock p.now.b) spare.old.items }
    ensures entries { entries.new ≡ entries_of p.now.z p.now.b slots.now }
    ensures entry_values { All (HasBlock p.now.b) entries.new }
    ensures len { length entries.new + vec_len spare.new ≡ vec_len spare.old }
    ensures values { All (IsBlock p.now.b) spare.new.items }
    ensures capacity { vec_capacity spare.new ≡ vec_capacity spare.old }
{
    for i in 0..p.z() as usize {
        put_slot(p, slot_at(p, slots, i), entries, spare);
    }
}

#[tactic(auto, unfolding(crate::specs::Reading::entry_of))]
// Puts the entry of a slot, where it has one.
fn put_slot(p: &Params, slot: &[u8], entries: &mut Entries, spare: &mut Vec<Block>)
    requires slot { length slot.now ≡ 4 + p.now.b }
    requires room { length entries.old < 8 }
    requires enough { 0 < vec_len spare.old }
    requires values { All (IsBlock p.now.b) spare.old.items }
    requires entry_values { All (HasBlock p.now.b) entries.old }
    ensures entries { entries.new ≡ entries.old ++ option_to_list (entry_of slot.now) }
    ensures entry_values { All (HasBlock p.now.b) entries.new }
    ensures len { length entries.new + vec_len spare.new ≡ length entries.old + vec_len spare.old }
    ensures values { All (IsBlock p.now.b) spare.new.items }
    ensures capacity { vec_capacity spare.new ≡ vec_capacity spare.old }
{
    let field = id_field(slot);
    if field == 0 {
        return;
    }
    let value = block_of(&slot[4..], spare);
    entries.push_reserved(Entry {
        id: field - 1,
        value,
    });
}

// A block with these bytes, of those to spare.
fn block_of(bytes: &[u8], spare: &mut Vec<Block>) -> Block
    requires enough { 0 < vec_len spare.old }
    requires values { All (IsBlock (length bytes.now)) spare.old.items }
    ensures value { result ≡ bytes.now }
    ensures len { vec_len spare.new + 1 ≡ vec_len spare.old }
    ensures values { All (IsBlock (length bytes.now)) spare.new.items }
    ensures capacity { vec_capacity spare.new ≡ vec_capacity spare.old }
{
    match spare.pop() {
        Some(mut block) => {
            block.as_mut_slice().copy_from_slice(bytes);
            block
        }
        None => unreachable!(),
    }
}
