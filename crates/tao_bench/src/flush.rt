//! Evictions in a store of blocks of 64 bytes, four to a bucket, in a tree of height 10.
ghost use Rattle.std.specs.Prelude.{◌≡◌, ◌+◌, ◌^◌, ◌<◌, length, vec_len, IfOk, All};
ghost use Rattle.tao_base.specs.Tree.{node_count};
ghost use Rattle.tao_flush.specs.Blocks.{AreNodeEntries};

use anyhow::ensure;
use std::alloc::Global;
use std::mem;
use tao_base::{Block, Bucket, Entries, NoMemory, Params, path_node};
use tao_flush::{Positions, Stash, flush, load};

/// What each turn does between taking a path from its nodes and giving it back.
#[derive(Clone, Copy)]
pub(crate) enum Turn {
    /// A block of the path gets another word and goes to the stash, and the path is evicted.
    Evicts,
    /// The same but for the eviction. So that the stash stays small, it is always the first block that goes there.
    Rests,
}

/// Loads a store of 4,096 blocks, and does this many turns.
pub(crate) fn checksum(alloc: Global, turn: Turn, count: u32) -> Result<u64, anyhow::Error> {
    let p = Params::new(10, 4, 64, 4_096, 1)?;
    let words = words_of(alloc, p.n())?;
    let blocks = blocks_of(alloc, &p)?;
    ensure!(words.len() == p.n() as usize, "a block has no word");
    ensure!(blocks.len() == p.n() as usize, "a block has no value");
    let mut positions = Positions::new(alloc, &p, &words)?;
    let (mut nodes, mut stash) = load(alloc, &p, &positions, &blocks)?;
    ensure!(
        nodes.as_slice().len() == p.nodes() as usize,
        "a node has no bucket"
    );
    let mut path = empty_path(alloc, &p)?;
    use_blocks(
        alloc,
        &p,
        &mut positions,
        &mut path,
        nodes.as_mut_slice(),
        &mut stash,
        turn,
        count,
    )?;
    Ok(entries_of(nodes.as_slice()))
}

// A cheap hash.
pub(crate) fn mixed(number: u32) -> u32 {
    let mut word = number.wrapping_add(1).wrapping_mul(0x9e37_79b1);
    word ^= word >> 15;
    word = word.wrapping_mul(0x85eb_ca77);
    word ^ word >> 13
}

fn words_of(alloc: Global, count: u32) -> Result<Vec<u32>, NoMemory> {
    let mut words = Vec::new(alloc);
    for block in 0..count {
        words.push(mixed(block))?;
    }
    Ok(words)
}

fn blocks_of(alloc: Global, p: &Params) -> Result<Vec<Block>, NoMemory>
    ensures { IfOk result (λ blocks. All (λ value. length value ≡ p.now.b) blocks.items) }
{
    let mut blocks = Vec::new(alloc);
    for _ in 0..p.n() {
        blocks.push(block_of(alloc, p)?)?;
    }
    Ok(blocks)
}

pub(crate) fn block_of(alloc: Global, p: &Params) -> Result<Block, NoMemory>
    ensures { IfOk result (λ value. length value ≡ p.now.b) }
{
    Ok(Block::from_vec(vec![in alloc; 7; p.b() as usize]?))
}

pub(crate) fn empty_path(alloc: Global, p: &Params) -> Result<Vec<Entries>, NoMemory>
    ensures { IfOk result (λ path. (vec_len path ≡ p.now.l + 1) × All (AreNodeEntries p.now) path.items) }
{
    let mut path = Vec::new(alloc);
    for _ in 0..p.l() + 1 {
        path.push(Entries::new(alloc)?)?;
    }
    Ok(path)
}

fn use_blocks(
    alloc: Global,
    p: &Params,
    positions: &mut Positions,
    path: &mut [Entries],
    nodes: &mut [Bucket],
    stash: &mut Stash,
    turn: Turn,
    count: u32,
) -> Result<(), NoMemory>
    requires positions { positions.old.shape ≡ p.now }
    requires stash { stash.old.shape ≡ p.now }
    requires path { length path.old ≡ p.now.l + 1 }
    requires entries { All (AreNodeEntries p.now) path.old }
    requires nodes { length nodes.old ≡ node_count p.now.l }
    requires buckets { All (λ bucket. AreNodeEntries p.now bucket.entries) nodes.old }
{
    for i in 0..count {
        let block = mixed(i) % p.n();
        let leaf = positions.leaf(block);
        swap_path(p, leaf, path, nodes);
        positions.set(block, mixed(block ^ i));
        let value = block_of(alloc, p)?;
        match turn {
            Turn::Evicts => {
                stash.put(block, value);
                flush(p, leaf, path, stash, positions);
            }
            Turn::Rests => stash.put(0, value),
        }
        swap_path(p, leaf, path, nodes);
    }
    Ok(())
}

// Exchanges the entries of the path's nodes with those given.
fn swap_path(p: &Params, leaf: u32, path: &mut [Entries], nodes: &mut [Bucket])
    requires leaf { leaf < 2 ^ p.now.l }
    requires path { length path.old ≡ p.now.l + 1 }
    requires entries { All (AreNodeEntries p.now) path.old }
    requires nodes { length nodes.old ≡ node_count p.now.l }
    requires buckets { All (λ bucket. AreNodeEntries p.now bucket.entries) nodes.old }
    ensures entries { All (AreNodeEntries p.now) path.new }
    ensures buckets { All (λ bucket. AreNodeEntries p.now bucket.entries) nodes.new }
{
    for depth in 0..p.l() + 1 {
        let node = path_node(p, leaf, depth) as usize;
        swap_entries(p, &mut path[depth as usize], &mut nodes[node - 1]);
    }
}

fn swap_entries(p: &Params, list: &mut Entries, bucket: &mut Bucket)
    requires list { AreNodeEntries p.now list.old }
    requires bucket { AreNodeEntries p.now bucket.old.entries }
    ensures list { AreNodeEntries p.now list.new }
    ensures bucket { AreNodeEntries p.now bucket.new.entries }
{
    mem::swap(list, &mut bucket.entries);
}

// A checksum of the ids in the nodes.
fn entries_of(nodes: &[Bucket]) -> u64 {
    let mut sum = 0u64;
    for bucket in nodes {
        for entry in bucket.entries.as_slice() {
            sum = sum.wrapping_mul(31).wrapping_add(u64::from(entry.id));
        }
    }
    sum
}
