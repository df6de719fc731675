ghost use Rattle.std.specs.Prelude.{◌≡◌, ◌≤◌, IfOk};

use crate::Slots;
use std::alloc::Global;
use std::test::Fail;
use tao_base::{Block, Bucket, Entries, Entry, NoMemory, Params};

// Slots of a tree of 7 nodes.
fn seven(alloc: Global, n: usize) -> Result<Slots, Fail>
    ensures { IfOk result (λ slots. slots.shape.l ≡ 2) }
{
    let p = Params::new(2, 1, 4, 1, 1)?;
    Ok(Slots::with_room(alloc, &p, n)?)
}

// A bucket whose one entry has the node's number as its id.
fn bucket_at(alloc: Global, node: u32) -> Result<Bucket, NoMemory>
    ensures { IfOk result (λ bucket. bucket.node ≡ node) }
{
    let mut entries = Entries::new(alloc)?;
    let value = Block::from_slice(alloc, &[1, 2, 3, 4])?;
    entries.push(Entry { id: node, value })?;
    Ok(Bucket {
        node,
        version: 8,
        nonce: 9,
        entries,
    })
}

fn put(alloc: Global, slots: &mut Slots, node: u32) -> Result<(), NoMemory>
    requires shape { slots.old.shape.l ≡ 2 }
    requires low { 1 ≤ node }
    requires high { node ≤ 7 }
    ensures { slots.new.shape.l ≡ 2 }
{
    slots.reserve(1)?;
    if slots.find(node).is_none() {
        slots.insert(bucket_at(alloc, node)?);
    }
    Ok(())
}

fn take_out(slots: &mut Slots, node: u32) -> u32
    requires { slots.old.shape.l ≡ 2 }
    ensures { slots.new.shape.l ≡ 2 }
{
    match slots.find(node) {
        Some(slot) => slots.remove(slot).node,
        None => 0,
    }
}

// The node of the parent's slot: 0 where the parent isn't held, 99 where the node itself isn't.
fn parent_of(slots: &Slots, node: u32) -> u32 {
    match slots.find(node) {
        Some(slot) => match slots.parent(slot) {
            Some(parent) => slots.get(parent).node,
            None => 0,
        },
        None => 99,
    }
}

fn child_of(slots: &Slots, node: u32, right: bool) -> u32 {
    match slots.find(node) {
        Some(slot) => match slots.child(slot, right) {
            Some(child) => slots.get(child).node,
            None => 0,
        },
        None => 99,
    }
}

// The parent and the children of each of these nodes, and the loose nodes forwards and backwards.
fn links_of(alloc: Global, slots: &Slots, nodes: &[u32]) -> Result<Vec<u32>, NoMemory> {
    let mut links = Vec::new(alloc);
    for node in nodes {
        links.push(parent_of(slots, *node))?;
        links.push(child_of(slots, *node, false))?;
        links.push(child_of(slots, *node, true))?;
    }
    links.extend_from_slice(&slots.loose_nodes(alloc)?)?;
    Ok(links)
}

fn only_id(entries: &Entries) -> u32 {
    match entries.as_slice() {
        [entry] => entry.id,
        _ => 0,
    }
}

// a parent that comes after its children, and goes before them
#[test]
fn slots_by_links(rt: HostRuntime) -> Result<(), Fail> {
    let alloc = rt.alloc();
    let mut slots = seven(alloc, 3)?;
    put(alloc, &mut slots, 2)?;
    put(alloc, &mut slots, 5)?;
    put(alloc, &mut slots, 1)?;
    let linked = [0, 2, 0, 1, 0, 5, 2, 0, 0, 1, 1];
    assert_eq!(rt;
        links_of(alloc, &slots, &[1, 2, 5])?.as_slice(),
        linked.as_slice()
    );
    assert_eq!(rt; take_out(&mut slots, 1), 1);
    let left = [99, 99, 99, 0, 0, 5, 2, 0, 0, 2, 2];
    assert_eq!(rt;
        links_of(alloc, &slots, &[1, 2, 5])?.as_slice(),
        left.as_slice()
    );
    assert_eq!(rt; slots.count(), 2);
    Ok(())
}

// a node between others that goes and comes again
#[test]
fn relinked_slots(rt: HostRuntime) -> Result<(), Fail> {
    let alloc = rt.alloc();
    let mut slots = seven(alloc, 7)?;
    put(alloc, &mut slots, 4)?;
    put(alloc, &mut slots, 5)?;
    put(alloc, &mut slots, 2)?;
    put(alloc, &mut slots, 1)?;
    put(alloc, &mut slots, 3)?;
    assert_eq!(rt; take_out(&mut slots, 2), 2);
    let apart = [0, 0, 3, 0, 0, 0, 0, 0, 0, 5, 4, 1, 1, 4, 5];
    assert_eq!(rt;
        links_of(alloc, &slots, &[1, 4, 5])?.as_slice(),
        apart.as_slice()
    );
    put(alloc, &mut slots, 2)?;
    let again = [0, 2, 3, 1, 4, 5, 2, 0, 0, 1, 1];
    assert_eq!(rt;
        links_of(alloc, &slots, &[1, 2, 4])?.as_slice(),
        again.as_slice()
    );
    Ok(())
}

// three loose slots that are removed, from the middle, the front and alone
#[test]
fn removed_slots_are_not_loose(rt: HostRuntime) -> Result<(), Fail> {
    let alloc = rt.alloc();
    let mut slots = seven(alloc, 3)?;
    put(alloc, &mut slots, 4)?;
    put(alloc, &mut slots, 5)?;
    put(alloc, &mut slots, 1)?;
    assert_eq!(rt;
        slots.loose_nodes(alloc)?.as_slice(),
        [1, 5, 4, 4, 5, 1].as_slice()
    );
    assert_eq!(rt; take_out(&mut slots, 5), 5);
    assert_eq!(rt;
        slots.loose_nodes(alloc)?.as_slice(),
        [1, 4, 4, 1].as_slice()
    );
    assert_eq!(rt; take_out(&mut slots, 1), 1);
    assert_eq!(rt; slots.loose_nodes(alloc)?.as_slice(), [4, 4].as_slice());
    assert_eq!(rt; take_out(&mut slots, 4), 4);
    assert!(rt; slots.loose_nodes(alloc)?.is_empty());
    Ok(())
}

// the one slot holds another node, and its entries go out and in
#[test]
fn reused_slot(rt: HostRuntime) -> Result<(), Fail> {
    let alloc = rt.alloc();
    let mut slots = seven(alloc, 1)?;
    put(alloc, &mut slots, 7)?;
    assert_eq!(rt; take_out(&mut slots, 7), 7);
    put(alloc, &mut slots, 6)?;
    assert!(rt; slots.find(7).is_none() && slots.on_path(3, 2).is_none());
    let mut entries = Entries::new(alloc)?;
    let Some(slot) = slots.on_path(2, 2) else {
        return Err(Fail::new("node 6 isn't found"));
    };
    slots.swap_entries(slot, &mut entries);
    let bucket = slots.get(slot);
    assert_eq!(rt;
        (
            bucket.node,
            bucket.version,
            bucket.nonce,
            bucket.entries.as_slice().len()
        ),
        (6, 8, 9, 0)
    );
    assert_eq!(rt; only_id(&entries), 6);
    Ok(())
}
