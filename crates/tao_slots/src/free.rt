//! The list of free slots, in the vector that holds them.
ghost use Rattle.std.specs.Prelude.{◌≡◌, ◌+◌, ◌-◌, ◌^◌, ◌<◌, ◌≤◌, Option, ℕ, Some, None, length, slice_set, vec_len, vec_capacity};
ghost use Rattle.tao_slots.specs.Columns.{buckets_in, links_in, nexts_in, IsPushed};
ghost use Rattle.tao_slots.specs.Linked.{node_in, AreFree, AreFreeAfter, IsGrown};

use crate::slot::Slot;

/// The first of the free slots, and how many there are.
#[derive(Debug, Drop)]
pub(crate) struct FreeList {
    pub first: Option<u32>,
    pub count: usize,
}

/// Adds so many free slots, for which there is capacity, to the vector and to the list.
pub(crate) fn grow(slots: &mut Vec<Slot>, free: &mut FreeList, count: usize)
    requires room { vec_len slots.old + count ≤ vec_capacity slots.old }
    requires few { vec_len slots.old + count < 2 ^ 32 }
    requires list { AreFree slots.old.items free.old }
    requires within { free.old.count ≤ vec_len slots.old }
    ensures list { AreFree slots.new.items free.new }
    ensures grown { IsGrown slots.old.items slots.new.items count }
    ensures count { free.new.count ≡ free.old.count + count }
{
    for _ in 0..count {
        push_free(slots, free);
    }
}

fn push_free(slots: &mut Vec<Slot>, free: &mut FreeList)
    requires room { vec_len slots.old < vec_capacity slots.old }
    requires few { vec_len slots.old < 2 ^ 32 }
    requires list { AreFree slots.old.items free.old }
    requires within { free.old.count ≤ vec_len slots.old }
    ensures list { AreFree slots.new.items free.new }
    ensures pushed { IsPushed slots.old.items slots.new.items free.old.first }
    ensures len { vec_len slots.new ≡ vec_len slots.old + 1 }
    ensures capacity { vec_capacity slots.old ≤ vec_capacity slots.new }
    ensures count { free.new.count ≡ free.old.count + 1 }
{
    let place = slots.len() as u32;
    slots.push_reserved(Slot::free(free.first));
    free.first = Some(place);
    free.count += 1;
}

/// Takes the first slot off the list. The others stay on it, whatever the slot then holds.
pub(crate) fn take_first(slots: &[Slot], free: &mut FreeList) -> u32
    requires list { AreFree slots.now free.old }
    requires some { 0 < free.old.count }
    ensures within { result < length slots.now }
    ensures free { node_in slots.now result ≡ None }
    ensures list { (node : Option ℕ) → AreFreeAfter slots.now free.new result node }
    ensures count { free.new.count ≡ free.old.count - 1 }
{
    let Some(place) = free.first else {
        unreachable!()
    };
    free.first = slots[place as usize].next;
    free.count -= 1;
    place
}

/// Puts a slot that was emptied at the front of the list.
pub(crate) fn give_back(slots: &mut [Slot], free: &mut FreeList, place: u32)
    requires within { place < length slots.old }
    requires few { free.old.count < length slots.old }
    ensures buckets { buckets_in slots.new ≡ buckets_in slots.old }
    ensures links { links_in slots.new ≡ links_in slots.old }
    ensures nexts { nexts_in slots.new ≡ slice_set (nexts_in slots.old) place free.old.first }
    ensures first { free.new.first ≡ Some place }
    ensures count { free.new.count ≡ free.old.count + 1 }
{
    slots[place as usize].next = free.first;
    free.first = Some(place);
    free.count += 1;
}
