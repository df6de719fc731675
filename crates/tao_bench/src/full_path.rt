//! Evictions of a full path of height 16, eight blocks of four bytes to a node, with some blocks in the stash.
ghost use Rattle.std.specs.Prelude.{◌≡◌, ◌+◌, ◌^◌, ◌<◌, ◌≤◌, length, All};
ghost use Rattle.tao_flush.specs.Blocks.{AreNodeEntries};

use crate::flush::{block_of, empty_path};
use std::alloc::Global;
use tao_base::{Entries, NoMemory, Params};
use tao_flush::{Positions, Stash, flush};

/// Evicts this many paths in a store of `n` blocks. Before each, the blocks of the path get new words, so that eight of them can go to each
/// node but no deeper, and `in_stash` of them stay in the stash.
pub(crate) fn checksum(
    alloc: Global,
    n: u32,
    in_stash: u32,
    count: u32,
) -> Result<u64, anyhow::Error>
    requires { in_stash ≤ 2 ^ 16 }
{
    let p = Params::new(16, 8, 4, n, 1)?;
    let words = vec![in alloc; 0; p.n() as usize]?;
    let mut positions = Positions::new(alloc, &p, &words)?;
    let mut stash = Stash::with_room(alloc, &p)?;
    let all = p.z() * (p.l() + 1) + in_stash;
    fill(alloc, &p, all, &mut stash)?;
    let mut path = empty_path(alloc, &p)?;
    evict_paths(&p, all, &mut positions, &mut path, &mut stash, count);
    let mut sum = 0u64;
    for list in &path {
        for entry in list.as_slice() {
            sum = sum.wrapping_mul(31).wrapping_add(u64::from(entry.id));
        }
    }
    Ok(sum)
}

// The ids of the blocks are spread out, so that their words lie far apart.
fn block_id(p: &Params, all: u32, i: u32) -> u32
    requires { 0 < all }
    ensures { result < p.now.n }
{
    i.wrapping_mul(p.n() / all) % p.n()
}

fn fill(alloc: Global, p: &Params, all: u32, stash: &mut Stash) -> Result<(), NoMemory>
    requires { stash.old.shape ≡ p.now }
    ensures { stash.new.shape ≡ p.now }
{
    for i in 0..all {
        stash.put(block_id(p, all, i), block_of(alloc, p)?);
    }
    Ok(())
}

fn evict_paths(
    p: &Params,
    all: u32,
    positions: &mut Positions,
    path: &mut [Entries],
    stash: &mut Stash,
    count: u32,
)
    requires all { 0 < all }
    requires positions { positions.old.shape ≡ p.now }
    requires stash { stash.old.shape ≡ p.now }
    requires path { length path.old ≡ p.now.l + 1 }
    requires entries { All (AreNodeEntries p.now) path.old }
{
    for turn in 0..count {
        let leaf = turn.wrapping_mul(0x9e37_79b1) % (1 << p.l());
        move_blocks(p, all, positions, leaf, turn.wrapping_mul(40_503));
        flush(p, leaf, path, stash, positions);
    }
}

fn move_blocks(p: &Params, all: u32, positions: &mut Positions, leaf: u32, turn: u32)
    requires all { 0 < all }
    requires positions { positions.old.shape ≡ p.now }
    ensures { positions.new.shape ≡ p.now }
{
    for i in 0..all {
        let depth = i.wrapping_add(turn) % all / p.z();
        positions.set(block_id(p, all, i), leaf_beside(p, leaf, depth));
    }
}

// A leaf whose path shares this leaf's path down to this depth.
fn leaf_beside(p: &Params, leaf: u32, depth: u32) -> u32 {
    if depth < p.l() {
        leaf ^ 1 << (p.l() - 1 - depth)
    } else if depth == p.l() {
        leaf
    } else {
        leaf ^ 1 << (p.l() - 1)
    }
}
