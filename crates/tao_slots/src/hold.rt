//! A node comes into a free slot, and goes out of its slot: the links and the index follow.
ghost use Rattle.std.specs.Prelude.{◌≡◌, ◌+◌, ◌-◌, ◌<◌, Some, None, slice_set, length, IsSome, IsSomeAnd};
ghost use Rattle.tao_slots.specs.Columns.{buckets_in, links_in, nexts_in, IsRefilled};
ghost use Rattle.tao_slots.specs.SlotMap.{entry};
ghost use Rattle.tao_slots.specs.Linked.{node_in, IsLinked, AreFree};

use crate::free::{FreeList, give_back, take_first};
use crate::links::relink_around;
use crate::loose::{hang, rehang};
use crate::slot::{Links, Slot};
use std::mem;
use tao_base::{Bucket, Entries};

/// Puts the bucket of a node that isn't held into the first free slot.
pub(crate) fn occupy(
    slots: &mut [Slot],
    loose: &mut Option<u32>,
    free: &mut FreeList,
    index: &mut [Option<u32>],
    bucket: Bucket,
) -> u32
    requires linked { IsLinked slots.old index.old }
    requires list { AreFree slots.old free.old }
    requires some { 0 < free.old.count }
    requires low { 0 < bucket.node }
    requires high { bucket.node < length index.old }
    requires absent { entry index.old bucket.node ≡ None }
    ensures linked { IsLinked slots.new index.new }
    ensures list { AreFree slots.new free.new }
    ensures count { free.new.count ≡ free.old.count - 1 }
    ensures within { result < length slots.old }
    ensures free { node_in slots.old result ≡ None }
    ensures buckets { buckets_in slots.new ≡ slice_set (buckets_in slots.old) result (Some bucket) }
    ensures index { index.new ≡ slice_set index.old bucket.node (Some result) }
{
    let place = take_first(slots, free);
    hold(slots, loose, index, place, bucket);
    place
}

/// Takes the bucket out of a slot that holds one, and makes the slot the first free one.
pub(crate) fn vacate(
    slots: &mut [Slot],
    loose: &mut Option<u32>,
    free: &mut FreeList,
    index: &mut [Option<u32>],
    place: u32,
) -> Bucket
    requires linked { IsLinked slots.old index.old }
    requires list { AreFree slots.old free.old }
    requires few { free.old.count < length slots.old }
    requires held { IsSome (node_in slots.old place) }
    ensures linked { IsLinked slots.new index.new }
    ensures list { AreFree slots.new free.new }
    ensures count { free.new.count ≡ free.old.count + 1 }
    ensures bucket { entry (buckets_in slots.old) place ≡ Some result }
    ensures buckets { buckets_in slots.new ≡ slice_set (buckets_in slots.old) place None }
    ensures index { index.new ≡ slice_set index.old result.node None }
{
    let bucket = let_go(slots, loose, index, place);
    give_back(slots, free, place);
    bucket
}

// Puts a bucket into a free slot, whose node isn't held.
fn hold(
    slots: &mut [Slot],
    loose: &mut Option<u32>,
    index: &mut [Option<u32>],
    place: u32,
    bucket: Bucket,
)
    requires linked { IsLinked slots.old index.old }
    requires slot { place < length slots.old }
    requires free { node_in slots.old place ≡ None }
    requires low { 0 < bucket.node }
    requires high { bucket.node < length index.old }
    requires absent { entry index.old bucket.node ≡ None }
    ensures linked { IsLinked slots.new index.new }
    ensures buckets { buckets_in slots.new ≡ slice_set (buckets_in slots.old) place (Some bucket) }
    ensures nexts { nexts_in slots.new ≡ nexts_in slots.old }
    ensures index { index.new ≡ slice_set index.old bucket.node (Some place) }
{
    let node = bucket.node;
    index[node as usize] = Some(place);
    fill(slots, place, bucket);
    hang(slots, loose, place);
    relink_around(slots, loose, index, node);
}

// A slot that is filled has no links as yet, so it is loose.
fn fill(slots: &mut [Slot], place: u32, bucket: Bucket)
    requires { place < length slots.old }
    ensures { IsRefilled slots.old slots.new place (Some bucket) }
{
    let slot = &mut slots[place as usize];
    slot.bucket = Some(bucket);
    slot.links = Links {
        parent: None,
        left: None,
        right: None,
    };
}

// Takes the bucket out of a slot that holds one. Its children become loose.
fn let_go(
    slots: &mut [Slot],
    loose: &mut Option<u32>,
    index: &mut [Option<u32>],
    place: u32,
) -> Bucket
    requires linked { IsLinked slots.old index.old }
    requires held { IsSome (node_in slots.old place) }
    ensures linked { IsLinked slots.new index.new }
    ensures bucket { entry (buckets_in slots.old) place ≡ Some result }
    ensures buckets { buckets_in slots.new ≡ slice_set (buckets_in slots.old) place None }
    ensures nexts { nexts_in slots.new ≡ nexts_in slots.old }
    ensures index { index.new ≡ slice_set index.old result.node None }
{
    let was_loose = slots[place as usize].links.parent.is_none();
    let bucket = empty(slots, place);
    rehang(slots, loose, place, was_loose, false);
    index[bucket.node as usize] = None;
    relink_around(slots, loose, index, bucket.node);
    bucket
}

fn empty(slots: &mut [Slot], place: u32) -> Bucket
    requires { IsSome (node_in slots.old place) }
    ensures bucket { entry (buckets_in slots.old) place ≡ Some result }
    ensures emptied { IsRefilled slots.old slots.new place None }
{
    let slot = &mut slots[place as usize];
    match slot.bucket.take() {
        Some(bucket) => bucket,
        None => unreachable!(),
    }
}

/// Exchanges the entries of the bucket in a slot with those given.
pub(crate) fn swap_in(slots: &mut [Slot], place: u32, entries: &mut Entries)
    requires { IsSome (node_in slots.old place) }
    ensures swapped { IsSomeAnd (entry (buckets_in slots.old) place)
        (λ bucket. IsRefilled slots.old slots.new place (Some (record bucket { entries = entries.old })) × (entries.new ≡ bucket.entries)) }
    ensures links { links_in slots.new ≡ links_in slots.old }
{
    match &mut slots[place as usize].bucket {
        Some(bucket) => mem::swap(&mut bucket.entries, entries),
        None => unreachable!(),
    }
}
