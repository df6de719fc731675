//! The links between the slots of neighbouring nodes, by the index that has the slot of each held node.
ghost use Rattle.std.specs.Prelude.{◌≡◌, ℕ, ◌^◌, ◌<◌, slice_set, length};
ghost use Rattle.std.specs.Option.{ForSome};
ghost use Rattle.tao_slots.specs.Columns.{buckets_in, links_in, nexts_in};
ghost use Rattle.tao_slots.specs.SlotMap.{entry};
ghost use Rattle.tao_slots.specs.Linked.{links_at, node_in, IsIndexed, IsRelinked, AreRight, AreRightApart};

use crate::loose::rehang;
use crate::slot::{Links, Slot};

/// The slot of a node, where it is held.
pub(crate) fn slot_at(index: &[Option<u32>], node: usize) -> Option<u32>
    ensures { result ≡ entry index.now node }
{
    if node < index.len() {
        index[node]
    } else {
        None
    }
}

// The links that the slot of a node has.
fn links_of(index: &[Option<u32>], node: u32) -> Links
    ensures { result ≡ links_at index.now node }
{
    let node = node as usize;
    Links {
        parent: slot_at(index, node / 2),
        left: slot_at(index, 2 * node),
        right: slot_at(index, 2 * node + 1),
    }
}

fn set_links(slots: &mut [Slot], place: usize, links: Links)
    requires { place < length slots.old }
    ensures links { links_in slots.new ≡ slice_set (links_in slots.old) place links }
    ensures buckets { buckets_in slots.new ≡ buckets_in slots.old }
    ensures nexts { nexts_in slots.new ≡ nexts_in slots.old }
{
    slots[place].links = links;
}

// Gives a slot the links of its node, and hangs it on the list of loose slots or takes it off, where its parent has come or gone.
fn relink(slots: &mut [Slot], loose: &mut Option<u32>, index: &[Option<u32>], at: Option<u32>)
    requires { ForSome at (λ i. i < length slots.old) }
    ensures { IsRelinked slots.old slots.new index.now at }
{
    let Some(place) = at else {
        return;
    };
    let Some(node) = node_in(slots, place) else {
        return;
    };
    let links = links_of(index, node);
    let was_loose = slots[place as usize].links.parent.is_none();
    rehang(slots, loose, place, was_loose, links.parent.is_none());
    set_links(slots, place as usize, links);
}

// The node of a slot, unless the slot is free.
fn node_in(slots: &[Slot], place: u32) -> Option<u32>
    requires { place < length slots.now }
    ensures { result ≡ node_in slots.now place }
{
    match &slots[place as usize].bucket {
        Some(bucket) => Some(bucket.node),
        None => None,
    }
}

/// Gives a node, its parent and its children their links, each where it is held.
pub(crate) fn relink_around(
    slots: &mut [Slot],
    loose: &mut Option<u32>,
    index: &[Option<u32>],
    node: u32,
)
    requires indexed { IsIndexed slots.old index.now }
    requires apart { AreRightApart slots.old index.now node }
    ensures buckets { buckets_in slots.new ≡ buckets_in slots.old }
    ensures nexts { nexts_in slots.new ≡ nexts_in slots.old }
    ensures right { AreRight slots.new index.now }
{
    let node = node as usize;
    relink(slots, loose, index, slot_at(index, node));
    relink(slots, loose, index, slot_at(index, node / 2));
    relink(slots, loose, index, slot_at(index, 2 * node));
    relink(slots, loose, index, slot_at(index, 2 * node + 1));
}
