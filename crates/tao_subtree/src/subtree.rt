//! The resident nodes.
ghost use Rattle.std.specs.Prelude.{◌≡◌, ◌+◌, ◌^◌, ◌<◌, ◌≤◌, ℕ, None, max, IfOk, OnOk, OnErr, IsSome, IsSomeAnd, is_some, is_none, slice_set, if◌then◌else◌};
ghost use Rattle.std.specs.Option.{option_map, option_copied};
ghost use Rattle.tao_base.specs.Tree.{node_count};

use crate::paths::{lower, mark, raise};
use std::alloc::Global;
use std::marker::Model;
use tao_base::{Bucket, Entries, NoMemory, Params};
use tao_slots::Slots;

/// The resident nodes with their buckets. A node keeps its numbers when it leaves and is admitted again.
#[derive(Debug, Drop)]
pub struct Subtree {
    p: Params,
    slots: Slots,
    // indexed by node; index 0 isn't used
    counts: Vec<u32>,
    touches: Vec<u64>,
    versions: Vec<u32>,
}

impl Model for Subtree {
    ghost use Rattle.tao_subtree.specs.Residents.{SubtreeState};

    ghost Value = { SubtreeState };

    ghost use Rattle.tao_subtree.specs.Parts.{state_of, AreInStep};

    ghost view = { λ s. state_of s.p s.slots s.counts.items s.touches.items s.versions.items };

    ghost invariant = { λ s. AreInStep s.p s.slots s.counts.items s.touches.items s.versions.items };
}

impl Subtree {
    ghost use Rattle.tao_subtree.specs.Residents.{resident_at, version_at, AreFew, resident_count, empty_subtree, taken_in, with_entries, BeginsFetch, EndsFetch, CanEndFetch, Forgets, ForgetsOne, KeepsRoom, HasPlaces};

    /// No node is resident, and there is no capacity for one yet.
    pub fn new(alloc: Global, p: &Params) -> Result<Subtree, NoMemory>
        ensures { IfOk result (λ subtree. subtree ≡ empty_subtree p.now) }
    {
        let places = p.nodes() as usize + 1;
        Ok(Subtree {
            p: *p,
            slots: Slots::with_room(alloc, p, 0)?,
            counts: vec![in alloc; 0; places]?,
            touches: vec![in alloc; 0; places]?,
            versions: vec![in alloc; 0; places]?,
        })
    }

    /// Preallocates for at least `n` more residents.
    pub fn reserve(&mut self, n: usize) -> Result<(), NoMemory>
        ensures ok { OnOk result (self.new ≡ record self.old { spare = max self.old.spare n }) }
        ensures err { OnErr result (self.new ≡ self.old) }
    {
        self.slots.reserve(n)
    }

    /// Begins a fetch of the path to a leaf.
    pub fn begin_fetch(&mut self, leaf: u32)
        requires leaf { leaf < 2 ^ self.old.shape.l }
        requires few { AreFew self.old.counts }
        ensures { BeginsFetch self.old self.new leaf }
    {
        raise(&mut self.counts, &self.p, leaf);
    }

    /// Admits a fetched bucket: its node becomes resident. False if it is already; then nothing changes.
    pub fn take_in(&mut self, bucket: Bucket) -> bool
        requires low { 1 ≤ bucket.node }
        requires high { bucket.node ≤ node_count self.old.shape.l }
        requires spare { 1 ≤ self.old.spare }
        ensures value { result ≡ is_none (resident_at self.old bucket.node) }
        ensures state { self.new ≡ (if result then taken_in self.old bucket else self.old) }
        ensures kept { KeepsRoom self.old self.new }
    {
        if self.is_resident(bucket.node) {
            return false;
        }
        self.slots.insert(bucket);
        true
    }

    /// Ends a fetch of the path to a leaf, the `t`-th that ends, counted from 1.
    pub fn end_fetch(&mut self, leaf: u32, t: u64)
        requires leaf { leaf < 2 ^ self.old.shape.l }
        requires path { CanEndFetch self.old leaf }
        ensures { EndsFetch self.old self.new leaf t }
    {
        lower(&mut self.counts, &self.p, leaf);
        mark(&mut self.touches, &self.p, leaf, t);
    }

    /// Records that a write-back of a resident node was issued with this version.
    pub fn set_version(&mut self, node: u32, version: u32)
        requires resident { IsSome (resident_at self.old node) }
        requires newer { version_at self.old node < version }
        ensures { self.new ≡ record self.old { versions = slice_set self.old.versions node version } }
    {
        self.versions[node as usize] = version;
    }

    /// The write-back of this version was acknowledged: of its nodes, those leave that weren't touched since and that no fetch covers.
    pub fn forget(&mut self, version: u32, nodes: &[u32])
        ensures state { Forgets self.old self.new version nodes.now }
        ensures kept { KeepsRoom self.old self.new }
    {
        for node in nodes {
            self.forget_one(version, *node);
        }
    }

    // The same for one node.
    fn forget_one(&mut self, version: u32, node: u32)
        ensures state { ForgetsOne self.old self.new version node }
        ensures kept { KeepsRoom self.old self.new }
    {
        let last = u64::from(version) * u64::from(self.p.k());
        if let Some(slot) = self.slots.find(node) {
            if self.touches[node as usize] <= last && self.counts[node as usize] == 0 {
                self.slots.remove(slot);
            }
        }
    }

    /// Whether a node is resident; false for a number that isn't in the tree.
    pub fn is_resident(&self, node: u32) -> bool
        ensures value { result ≡ is_some (resident_at self.now node) }
        ensures places { HasPlaces self.now }
    {
        self.slots.find(node).is_some()
    }

    /// The version of the last issued write-back of a node, or 0.
    pub fn last_version(&self, node: u32) -> u32
        ensures { result ≡ version_at self.now node }
    {
        if (node as usize) < self.versions.len() {
            self.versions[node as usize]
        } else {
            0
        }
    }

    /// The entries of a node. None exactly if it isn't resident.
    pub fn entries(&self, node: u32) -> Option<&Entries>
        ensures { option_copied result ≡ option_map (λ bucket. bucket.entries) (resident_at self.now node) }
    {
        match self.slots.find(node) {
            Some(slot) => Some(&self.slots.get(slot).entries),
            None => None,
        }
    }

    /// Exchanges the entries of a resident node with those given.
    pub fn swap_entries(&mut self, node: u32, entries: &mut Entries)
        requires { IsSome (resident_at self.old node) }
        ensures state { IsSomeAnd (resident_at self.old node)
            (λ bucket. (self.new ≡ with_entries self.old node bucket entries.old) × (entries.new ≡ bucket.entries)) }
        ensures kept { KeepsRoom self.old self.new }
    {
        match self.slots.find(node) {
            Some(slot) => self.slots.swap_entries(slot, entries),
            None => unreachable!(),
        }
    }

    /// How many nodes are resident.
    pub fn count(&self) -> usize
        ensures { result ≡ resident_count self.now }
    {
        self.slots.count()
    }
}

#[cfg(test)]
impl Subtree {
    ghost use Rattle.std.specs.Prelude.{IsTrue, ◌↔◌};
    ghost use Rattle.tao_subtree.specs.Residents.{count_at};

    pub(crate) fn is_covered(&self, node: u32) -> bool
        ensures { IsTrue result ↔ (1 ≤ count_at self.now node) }
    {
        (node as usize) < self.counts.len() && 1 <= self.counts[node as usize]
    }
}
