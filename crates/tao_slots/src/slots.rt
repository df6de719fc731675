//! The slots of the nodes that are held.
ghost use Rattle.std.specs.Prelude.{◌≡◌, replicate, ◌+◌, ◌*◌, ◌/◌, ◌^◌, ◌<◌, ◌≤◌, None, IfOk, OnOk, OnErr, IsSome, IsSomeAnd, if◌then◌else◌};
ghost use Rattle.tao_base.specs.Tree.{node_at, node_count};

use crate::free::{FreeList, grow};
use crate::hold::{occupy, swap_in, vacate};
use crate::links::slot_at;
use crate::slot::{Slot, SlotId};
use std::alloc::Global;
use std::marker::Model;
use tao_base::{Bucket, Entries, NoMemory, Params, path_node};

/// Buckets in slots of one vector. Each slot has the slots of its node's parent and children, where they are held; the slots of nodes
/// whose parent isn't held form a list, and so do the free slots. Beside the vector an index has the slot of each node of the tree.
#[derive(Debug, Drop)]
pub struct Slots {
    p: Params,
    slots: Vec<Slot>,
    index: Vec<Option<u32>>,
    // the first loose slot
    loose: Option<u32>,
    free: FreeList,
}

impl Model for Slots {
    ghost use Rattle.tao_slots.specs.SlotMap.{SlotMap};

    ghost Value = { SlotMap };

    ghost use Rattle.tao_slots.specs.Linked.{map_of, AreParts};

    ghost view = { λ s. map_of s.p s.slots.items s.index.items s.free };

    ghost invariant = { λ s. AreParts s.p s.slots.items s.index.items s.free };
}

impl Slots {
    ghost use Rattle.tao_slots.specs.SlotMap.{SlotMap, bucket_at, node_of, bucket_in, held_count, empty_map, reserved, inserted, with_entries, removed, IsSlotOf, KeepsSlots, IsSlotMap};

    /// No node is held, and so many slots are spare.
    pub fn with_room(alloc: Global, p: &Params, n: usize) -> Result<Slots, NoMemory>
        ensures { IfOk result (λ slots. slots ≡ reserved (empty_map p.now) n) }
    {
        let index = no_places(alloc, p.nodes() as usize + 1)?;
        let mut slots = Slots {
            p: *p,
            slots: Vec::new(alloc),
            index,
            loose: None,
            free: FreeList {
                first: None,
                count: 0,
            },
        };
        slots.reserve(n)?;
        Ok(slots)
    }

    /// Makes the number of spare slots at least `n`.
    pub fn reserve(&mut self, n: usize) -> Result<(), NoMemory>
        ensures ok { OnOk result (self.new ≡ reserved self.old n) }
        ensures err { OnErr result (self.new ≡ self.old) }
    {
        let missing = n.saturating_sub(self.free.count);
        match self.slots.len().checked_add(missing) {
            Some(all) if all <= u32::MAX as usize => {}
            _ => return Err(NoMemory),
        }
        self.slots.reserve(missing)?;
        grow(&mut self.slots, &mut self.free, missing);
        Ok(())
    }

    /// Puts the bucket of a node that isn't held into a spare slot.
    pub fn insert(&mut self, bucket: Bucket) -> SlotId
        requires low { 1 ≤ bucket.node }
        requires high { bucket.node ≤ node_count self.old.shape.l }
        requires absent { bucket_at self.old bucket.node ≡ None }
        requires spare { 1 ≤ self.old.spare }
        ensures slot { node_of self.old result ≡ None }
        ensures map { self.new ≡ inserted self.old result bucket }
        ensures kept { KeepsSlots self.old self.new }
    {
        let place = occupy(
            &mut self.slots,
            &mut self.loose,
            &mut self.free,
            &mut self.index,
            bucket,
        );
        SlotId::new(place)
    }

    /// The slot of a node. None exactly where the node isn't held.
    pub fn find(&self, node: u32) -> Option<SlotId>
        ensures slot { IsSlotOf self.now result node }
        ensures sound { IsSlotMap self.now }
    {
        named(slot_at(&self.index, node as usize))
    }

    /// The bucket in a slot.
    pub fn get(&self, slot: SlotId) -> &Bucket
        requires { IsSome (node_of self.now slot) }
        ensures node { node_of self.now slot ≡ Some result.now.node }
        ensures bucket { bucket_at self.now result.now.node ≡ Some result.now }
    {
        match &self.slots[slot.place() as usize].bucket {
            Some(bucket) => bucket,
            None => unreachable!(),
        }
    }

    /// Exchanges the entries of the bucket in a slot with those given.
    pub fn swap_entries(&mut self, slot: SlotId, entries: &mut Entries)
        requires { IsSome (node_of self.old slot) }
        ensures map { IsSomeAnd (bucket_in self.old slot)
            (λ bucket. (self.new ≡ with_entries self.old bucket entries.old) × (entries.new ≡ bucket.entries)) }
        ensures kept { KeepsSlots self.old self.new }
    {
        swap_in(&mut self.slots, slot.place(), entries);
    }

    /// Takes a node's bucket out of its slot, which is then spare. The nodes below it stay.
    pub fn remove(&mut self, slot: SlotId) -> Bucket
        requires { IsSome (node_of self.old slot) }
        ensures bucket { bucket_in self.old slot ≡ Some result }
        ensures map { self.new ≡ removed self.old slot result }
        ensures kept { KeepsSlots self.old self.new }
    {
        vacate(
            &mut self.slots,
            &mut self.loose,
            &mut self.free,
            &mut self.index,
            slot.place(),
        )
    }

    /// The slot of the parent of a slot's node. None exactly where the parent isn't held.
    pub fn parent(&self, slot: SlotId) -> Option<SlotId>
        requires { IsSome (node_of self.now slot) }
        ensures slot { IsSomeAnd (node_of self.now slot) (λ node. IsSlotOf self.now result (node / 2)) }
        ensures sound { IsSlotMap self.now }
    {
        let slot = &self.slots[slot.place() as usize];
        named(slot.links.parent)
    }

    /// The slot of a child of a slot's node, the left or the right one. None exactly where that child isn't held.
    pub fn child(&self, slot: SlotId, right: bool) -> Option<SlotId>
        requires { IsSome (node_of self.now slot) }
        ensures slot { IsSomeAnd (node_of self.now slot)
            (λ node. IsSlotOf self.now result (2 * node + (if right then 1 else 0))) }
        ensures sound { IsSlotMap self.now }
    {
        let slot = &self.slots[slot.place() as usize];
        if right {
            named(slot.links.right)
        } else {
            named(slot.links.left)
        }
    }

    /// The slot of the node at a depth of the path to a leaf. None exactly where that node isn't held.
    pub fn on_path(&self, leaf: u32, depth: u32) -> Option<SlotId>
        requires leaf { leaf < 2 ^ self.now.shape.l }
        requires depth { depth ≤ self.now.shape.l }
        ensures slot { IsSlotOf self.now result (node_at self.now.shape.l leaf depth) }
        ensures sound { IsSlotMap self.now }
    {
        self.find(path_node(&self.p, leaf, depth))
    }

    /// How many nodes are held.
    pub fn count(&self) -> usize
        ensures { result ≡ held_count self.now }
    {
        self.slots.len() - self.free.count
    }
}

// The name of a slot.
fn named(place: Option<u32>) -> Option<SlotId>
    ensures { result ≡ place }
{
    match place {
        Some(place) => Some(SlotId::new(place)),
        None => None,
    }
}

// An index by which no node is held.
fn no_places(alloc: Global, n: usize) -> Result<Vec<Option<u32>>, NoMemory>
    ensures { IfOk result (λ index. index.items ≡ replicate n None) }
{
    Ok(vec![in alloc; None; n]?)
}

#[cfg(test)]
impl Slots {
    // The nodes of the loose slots, in the order of the list, and then those against it.
    pub(crate) fn loose_nodes(&self, alloc: Global) -> Result<Vec<u32>, NoMemory> {
        let mut nodes = Vec::new(alloc);
        let mut at = self.loose;
        let mut last = None;
        for _ in 0..self.slots.len() {
            let Some(place) = at else {
                break;
            };
            last = at;
            at = self.push_node(&mut nodes, place)?.1;
        }
        for _ in 0..self.slots.len() {
            let Some(place) = last else {
                break;
            };
            last = self.push_node(&mut nodes, place)?.0;
        }
        Ok(nodes)
    }

    // The places before and after a slot on the list, whose node is added: 0 where it was removed.
    fn push_node(
        &self,
        nodes: &mut Vec<u32>,
        place: u32,
    ) -> Result<(Option<u32>, Option<u32>), NoMemory> {
        let Some(slot) = self.slots.get(place as usize) else {
            return Ok((None, None));
        };
        nodes.push(match &slot.bucket {
            Some(bucket) => bucket.node,
            None => 0,
        })?;
        Ok((slot.before, slot.after))
    }
}
