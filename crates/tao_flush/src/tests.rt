ghost use Rattle.std.specs.Prelude.{◌≡◌, ◌+◌, ◌^◌, ◌<◌, length, vec_len, IfOk, All};
ghost use Rattle.tao_flush.specs.Blocks.{AreNodeEntries};

use crate::{Positions, Stash, flush, load};
use std::alloc::Global;
use std::test::Fail;
use tao_base::{Block, Bucket, Entries, Entry, NoMemory, Params};

// Where an entry lies (0 is the stash), its id and its first byte.
type Row = (u32, u32, u8);

// A block whose bytes are all the same.
fn block_of(alloc: Global, p: &Params, byte: u8) -> Result<Block, NoMemory>
    ensures { IfOk result (λ value. length value ≡ p.now.b) }
{
    Ok(Block::from_vec(vec![in alloc; byte; p.b() as usize]?))
}

// The entries of a node, with a byte that tells the copy.
fn entries_of(alloc: Global, p: &Params, ids: &[u32], byte: u8) -> Result<Entries, NoMemory>
    ensures { IfOk result (AreNodeEntries p.now) }
{
    let mut entries = Entries::new(alloc)?;
    for id in ids {
        add_entry(alloc, p, &mut entries, *id, byte)?;
    }
    Ok(entries)
}

fn add_entry(
    alloc: Global,
    p: &Params,
    entries: &mut Entries,
    id: u32,
    byte: u8,
) -> Result<(), NoMemory>
    requires { AreNodeEntries p.now entries.old }
    ensures { IfOk result (λ _. AreNodeEntries p.now entries.new) }
{
    let value = block_of(alloc, p, byte)?;
    if id >= p.n() || entries.as_slice().len() >= p.z() as usize {
        return Ok(());
    }
    entries.push(Entry { id, value })?;
    Ok(())
}

// The nodes of a path, each with its ids and its byte.
fn path_of(alloc: Global, p: &Params, nodes: &[(&[u32], u8)]) -> Result<Vec<Entries>, NoMemory>
    ensures { IfOk result (λ path. (vec_len path ≡ length nodes.now) × All (AreNodeEntries p.now) path.items) }
{
    let mut path = Vec::new(alloc);
    for node in nodes {
        path.push(entries_of(alloc, p, node.0, node.1)?)?;
    }
    Ok(path)
}

// A stash with these blocks, whose byte is 9.
fn stash_of(alloc: Global, p: &Params, ids: &[u32]) -> Result<Stash, NoMemory>
    ensures { IfOk result (λ stash. stash.shape ≡ p.now) }
{
    let mut stash = Stash::with_room(alloc, p)?;
    for id in ids {
        let value = block_of(alloc, p, 9)?;
        if *id < p.n() {
            stash.put(*id, value);
        }
    }
    Ok(stash)
}

fn flush_times(
    p: &Params,
    leaf: u32,
    path: &mut [Entries],
    stash: &mut Stash,
    positions: &Positions,
    times: u32,
)
    requires leaf { leaf < 2 ^ p.now.l }
    requires stash { stash.old.shape ≡ p.now }
    requires positions { positions.now.shape ≡ p.now }
    requires path { length path.old ≡ p.now.l + 1 }
    requires entries { All (AreNodeEntries p.now) path.old }
{
    for _ in 0..times {
        flush(p, leaf, path, stash, positions);
    }
}

fn show(rows: &mut Vec<Row>, node: u32, entries: &[Entry]) -> Result<(), NoMemory> {
    for entry in entries {
        let byte = entry.value.as_slice().first().copied().unwrap_or(0);
        rows.push((node, entry.id, byte))?;
    }
    Ok(())
}

fn show_path(rows: &mut Vec<Row>, path: &[Entries]) -> Result<(), NoMemory> {
    let mut place = 1u32;
    for entries in path {
        show(rows, place, entries.as_slice())?;
        place = place.wrapping_add(1);
    }
    Ok(())
}

// What lies in the stash, and at depth d of the path as place d + 1, after so many evictions along the leftmost path.
fn evicted(
    alloc: Global,
    p: &Params,
    words: &[u32],
    stash: &[u32],
    nodes: &[(&[u32], u8)],
    times: u32,
) -> Result<Vec<Row>, NoMemory> {
    if words.len() != p.n() as usize || nodes.len() != p.l() as usize + 1 {
        return Err(NoMemory);
    }
    let positions = Positions::new(alloc, p, words)?;
    let mut stash = stash_of(alloc, p, stash)?;
    let mut path = path_of(alloc, p, nodes)?;
    flush_times(p, 0, &mut path, &mut stash, &positions, times);
    let mut rows = Vec::new(alloc);
    show(&mut rows, 0, stash.entries())?;
    show_path(&mut rows, &path)?;
    Ok(rows)
}

#[test]
fn a_path_is_filled_from_the_leaf(rt: HostRuntime) -> Result<(), Fail> {
    let p = Params::new(2, 1, 4, 4, 1)?;
    let nodes = [([].as_slice(), 0), ([3].as_slice(), 7), ([].as_slice(), 0)];
    let wanted = [(0, 3, 7), (1, 2, 9), (2, 0, 9), (3, 1, 9)];
    // the second time nothing changes
    for times in 1..3 {
        let rows = evicted(rt.alloc(), &p, &[1, 0, 3, 0], &[0, 1, 2], &nodes, times)?;
        assert_eq!(rt; rows.as_slice(), wanted.as_slice());
    }
    Ok(())
}

#[test]
fn the_first_copy_counts(rt: HostRuntime) -> Result<(), Fail> {
    let p = Params::new(2, 2, 4, 4, 1)?;
    let nodes = [
        ([3, 1].as_slice(), 6),
        ([2, 3].as_slice(), 7),
        ([2, 2].as_slice(), 8),
    ];
    let wanted = [(1, 2, 7), (3, 1, 9), (3, 3, 6)];
    for times in 1..3 {
        let rows = evicted(rt.alloc(), &p, &[1, 4, 3, 0], &[1], &nodes, times)?;
        assert_eq!(rt; rows.as_slice(), wanted.as_slice());
    }
    Ok(())
}

// What a load of blocks 0, 1, 2 .. with these words puts into the stash and the nodes.
fn loaded(alloc: Global, p: &Params, words: &[u32]) -> Result<Vec<Row>, NoMemory> {
    let mut blocks = Vec::new(alloc);
    for id in 0..p.n() {
        blocks.push(block_of(alloc, p, (id % 256) as u8)?)?;
    }
    if words.len() != p.n() as usize || blocks.len() != p.n() as usize {
        return Err(NoMemory);
    }
    let positions = Positions::new(alloc, p, words)?;
    let (nodes, stash) = load(alloc, p, &positions, &blocks)?;
    let mut rows = Vec::new(alloc);
    show(&mut rows, 0, stash.entries())?;
    show_nodes(&mut rows, nodes.as_slice())?;
    Ok(rows)
}

fn show_nodes(rows: &mut Vec<Row>, nodes: &[Bucket]) -> Result<(), NoMemory> {
    for bucket in nodes {
        show(rows, bucket.node, bucket.entries.as_slice())?;
    }
    Ok(())
}

#[test]
fn a_load_goes_up_from_the_leaf(rt: HostRuntime) -> Result<(), Fail> {
    let p = Params::new(2, 1, 4, 4, 1)?;
    let rows = loaded(rt.alloc(), &p, &[0, 4, 8, 12])?;
    assert_eq!(rt;
        rows.as_slice(),
        [(0, 3, 3), (1, 2, 2), (2, 1, 1), (4, 0, 0)].as_slice()
    );
    Ok(())
}

#[test]
fn a_position_is_a_word_modulo_the_leaves(rt: HostRuntime) -> Result<(), Fail> {
    let p = Params::new(2, 1, 4, 1, 1)?;
    let mut positions = Positions::new(rt.alloc(), &p, &[6])?;
    assert_eq!(rt; positions.leaf(0), 2);
    positions.set(0, 4_294_967_295);
    assert_eq!(rt; positions.leaf(0), 3);
    Ok(())
}

#[test]
fn the_stash_is_a_map(rt: HostRuntime) -> Result<(), Fail> {
    let p = Params::new(2, 1, 4, 4, 1)?;
    let stash = stash_of(rt.alloc(), &p, &[3, 0, 3, 1])?;
    assert!(rt; stash.get(2).is_none());
    let three = stash.get(3).ok_or("there is none")?;
    assert_eq!(rt; three.as_slice(), [9; 4].as_slice());
    let mut rows = Vec::new(rt.alloc());
    show(&mut rows, 0, stash.entries())?;
    assert_eq!(rt;
        rows.as_slice(),
        [(0, 0, 9), (0, 1, 9), (0, 3, 9)].as_slice()
    );
    Ok(())
}
