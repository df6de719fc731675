//! The load of a tree.
ghost use Rattle.std.specs.Prelude.{◌≡◌, ◌+◌, ◌^◌, ◌<◌, ◌≤◌, [], ◌∷◌, ◌++◌, length, vec_len, vec_capacity, IfOk, IfSome, All};
ghost use Rattle.std.specs.Option.{option_to_list};
ghost use Rattle.tao_base.specs.Tree.{node_at, node_count};
ghost use Rattle.tao_model.specs.Evictions.{load_contents, load_buckets};
ghost use Rattle.tao_model.specs.Greatest.{IsLast};
ghost use Rattle.tao_flush.specs.State.{leaf_in};
ghost use Rattle.tao_flush.specs.Blocks.{IsStash, AreNodeEntries};
ghost use Rattle.tao_flush.specs.Loads.{IsLoaded, LoadsNext, bucket_of, has_room};

use crate::positions::Positions;
use crate::stash::{Stash, most_places};
use std::alloc::Global;
use tao_base::{Block, Bucket, Buckets, Entries, Entry, NoMemory, Params, path_node};

/// The buckets of all nodes, from the root on, and the stash, once each block lies in the deepest node of its leaf's path that has room,
/// lower ids first. The bucket of node w has version 0 and nonce w.
pub fn load(
    alloc: Global,
    p: &Params,
    positions: &Positions,
    blocks: &[Block],
) -> Result<(Buckets, Stash), NoMemory>
    requires positions { positions.now.shape ≡ p.now }
    requires count { length blocks.now ≡ p.now.n }
    requires values { All (λ value. length value ≡ p.now.b) blocks.now }
    ensures loaded { IfOk result (λ r. IsLoaded p.now (leaf_in positions.now) blocks.now r.0 r.1.entries) }
    ensures entries { IfOk result (λ r. All (λ bucket. AreNodeEntries p.now bucket.entries) r.0) }
    ensures stash { IfOk result (λ r. IsStash p.now r.1.entries) }
    ensures shape { IfOk result (λ r. r.1.shape ≡ p.now) }
{
    let mut nodes = empty_nodes(alloc, p)?;
    let mut rest = Vec::with_capacity(alloc, most_places(p))?;
    place_blocks(alloc, p, positions, blocks, &mut nodes, &mut rest)?;
    let stash = Stash::with_entries(alloc, p, rest)?;
    Ok((Buckets::from_vec(nodes), stash))
}

fn empty_nodes(alloc: Global, p: &Params) -> Result<Vec<Bucket>, NoMemory>
    ensures { IfOk result (λ nodes. nodes.items ≡ load_buckets p.now (λ w. [])) }
{
    let mut nodes = Vec::with_capacity(alloc, p.nodes() as usize)?;
    for node in 1..p.nodes() + 1 {
        nodes.push(Bucket {
            node,
            version: 0,
            nonce: u64::from(node),
            entries: Entries::new(alloc)?,
        })?;
    }
    Ok(nodes)
}

// Puts the blocks into the empty nodes. What finds no room is the rest.
fn place_blocks(
    alloc: Global,
    p: &Params,
    positions: &Positions,
    blocks: &[Block],
    nodes: &mut Vec<Bucket>,
    rest: &mut Vec<Entry>,
) -> Result<(), NoMemory>
    requires positions { positions.now.shape ≡ p.now }
    requires count { length blocks.now ≡ p.now.n }
    requires nodes { nodes.old.items ≡ load_buckets p.now (λ w. []) }
    requires rest { rest.old.items ≡ [] }
    requires room { p.now.n ≤ vec_capacity rest.old }
    ensures nodes { IfOk result (λ _. nodes.new.items ≡ load_buckets p.now (load_contents p.now (leaf_in positions.now) blocks.now)) }
    ensures rest { IfOk result (λ _. rest.new.items ≡ load_contents p.now (leaf_in positions.now) blocks.now 0) }
    ensures capacity { vec_capacity rest.old ≤ vec_capacity rest.new }
{
    for id in 0..p.n() {
        let value = Block::from_slice(alloc, blocks[id as usize].as_slice())?;
        let back = place_block(p, positions, nodes, Entry { id, value });
        keep(rest, back);
    }
    Ok(())
}

// Puts an entry that came back behind those that were kept.
fn keep(rest: &mut Vec<Entry>, back: Option<Entry>)
    requires { vec_len rest.old < vec_capacity rest.old }
    ensures items { rest.new.items ≡ rest.old.items ++ option_to_list back }
    ensures len { vec_len rest.new ≤ vec_len rest.old + 1 }
    ensures capacity { vec_capacity rest.old ≤ vec_capacity rest.new }
{
    if let Some(entry) = back {
        rest.push_reserved(entry);
    }
}

// Puts the entry where it is to go, or gives it back.
fn place_block(
    p: &Params,
    positions: &Positions,
    nodes: &mut Vec<Bucket>,
    entry: Entry,
) -> Option<Entry>
    requires positions { positions.now.shape ≡ p.now }
    requires id { entry.id < p.now.n }
    requires nodes { vec_len nodes.old ≡ node_count p.now.l }
    ensures placed { LoadsNext p.now (leaf_in positions.now) nodes.old.items entry nodes.new.items result }
    ensures nodes { vec_len nodes.new ≡ vec_len nodes.old }
{
    let leaf = positions.leaf(entry.id);
    match deepest_with_room(p, leaf, nodes) {
        Some(depth) => {
            let node = path_node(p, leaf, depth) as usize;
            add_to(&mut nodes[node - 1], entry);
            None
        }
        None => Some(entry),
    }
}

fn add_to(bucket: &mut Bucket, entry: Entry)
    requires { length bucket.old.entries < 8 }
    ensures { bucket.new ≡ record bucket.old { entries = bucket.old.entries ++ entry ∷ [] } }
{
    bucket.entries.push_reserved(entry);
}

// The depth of the deepest node on the leaf's path that has room.
fn deepest_with_room(p: &Params, leaf: u32, nodes: &[Bucket]) -> Option<u32>
    requires leaf { leaf < 2 ^ p.now.l }
    requires nodes { length nodes.now ≡ node_count p.now.l }
    ensures deepest { IsLast (has_room p.now leaf nodes.now) (p.now.l + 1) result }
    ensures room { IfSome result (λ depth. length (bucket_of nodes.now (node_at p.now.l leaf depth)).entries < 8) }
{
    let z = p.z() as usize;
    let mut depth = p.l() + 1;
    while depth > 0 {
        depth -= 1;
        let node = path_node(p, leaf, depth) as usize;
        if nodes[node - 1].entries.as_slice().len() < z {
            return Some(depth);
        }
    }
    None
}
