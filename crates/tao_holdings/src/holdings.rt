//! What the proxy holds, as one type.
ghost use Rattle.std.specs.Prelude.{◌≡◌, ℕ, None, IfOk, slice_set, count_by, is_some, vec_len, vec_capacity, true, ◌+◌, ◌^◌, ◌<◌, ◌≤◌, [], map, not, filter, length, All};
ghost use Rattle.std.specs.List.{slice_index_or};
ghost use Rattle.std.specs.Option.{option_map, option_copied};
ghost use Rattle.std.specs.List.Sorted.{IsStrictlyIncreasing};
ghost use Rattle.tao_base.specs.Tree.{path, is_on_path};
ghost use Rattle.tao_held.specs.Steps.{take_in, with_path, found_copy, value_or_zeros, put, evict};
ghost use Rattle.tao_flush.specs.Blocks.{AreNodeEntries};
ghost use Rattle.tao_flush.specs.Loads.{IsLoaded};
ghost use Rattle.tao_base.specs.Buckets.{IsInForm};
ghost use Rattle.tao_model.specs.Placement.{entries_at};
ghost use Rattle.tao_model.specs.Trace.{nodes_in};
ghost use Rattle.tao_subtree.specs.Residents.{AreFew};
ghost use Rattle.tao_holdings.specs.Lists.{with_entries_of, with_buckets};
ghost use Rattle.tao_holdings.specs.Parts.{AreEmpty};

use crate::evicting::evict_path;
use crate::looks::{find_copy, write_found};
use crate::swaps::swap_buckets;
use crate::takings::take_all;
use crate::versions::set_all;
use std::alloc::Global;
use std::marker::Model;
use tao_base::{Block, Bucket, Buckets, Entries, Entry, NoMemory, Params};
use tao_flush::{Positions, Stash, load};
use tao_subtree::Subtree;

/// The resident nodes with all numbers of the nodes, the stash, and the positions.
#[derive(Debug, Drop)]
pub struct Holdings {
    p: Params,
    subtree: Subtree,
    stash: Stash,
    positions: Positions,
    // the entries of a path's nodes during an eviction, else empty
    lists: Vec<Entries>,
}

impl Model for Holdings {
    ghost use Rattle.tao_holdings.specs.Holding.{HoldingsState};

    ghost Value = { HoldingsState };

    ghost use Rattle.tao_holdings.specs.Parts.{state_of, IsHoldings};

    ghost view = { λ h. state_of h.p h.subtree h.stash h.positions };

    ghost invariant = { λ h. IsHoldings h.p h.subtree h.stash h.positions h.lists.items };
}

impl Holdings {
    ghost use Rattle.tao_holdings.specs.Holding.{is_held, contents_in, version_in, written_at, none_held, without, left_by, AreForms, count_in, touch_in, leaf_by, IsPathHeld, one_more, one_less, touched};

    /// Loads all blocks: the buckets of all nodes from the root on, and what is held once these are sent. Preallocates for all nodes.
    pub fn load(
        alloc: Global,
        p: &Params,
        words: &[u32],
        blocks: &[Block],
    ) -> Result<(Buckets, Holdings), NoMemory>
        requires words { length words.now ≡ p.now.n }
        requires blocks { length blocks.now ≡ p.now.n }
        requires values { All (λ value. length value ≡ p.now.b) blocks.now }
        ensures loaded { IfOk result (λ r. IsLoaded p.now (leaf_by r.1) blocks.now r.0 r.1.stash) }
        ensures entries { IfOk result (λ r. All (λ bucket. AreNodeEntries p.now bucket.entries) r.0) }
        ensures state { IfOk result (λ r. r.1 ≡ none_held p.now r.1.stash words.now) }
    {
        let positions = Positions::new(alloc, p, words)?;
        let (buckets, stash) = load(alloc, p, &positions, blocks)?;
        let mut subtree = Subtree::new(alloc, p)?;
        subtree.reserve(p.nodes() as usize + 1)?;
        let lists = empty_lists(alloc, p.l() + 1)?;
        let holdings = Holdings {
            p: *p,
            subtree,
            stash,
            positions,
            lists,
        };
        Ok((buckets, holdings))
    }

    /// Admits what was fetched of the path to a leaf: the buckets of the nodes that aren't held, root first.
    pub fn take_in(&mut self, leaf: u32, taken: &mut Vec<Bucket>)
        requires leaf { leaf < 2 ^ self.old.shape.l }
        requires nodes { nodes_in taken.old.items ≡ filter (λ w. not (is_held self.old w)) (path self.old.shape.l leaf) }
        requires in_form { All (IsInForm self.old.shape) taken.old.items }
        ensures held { is_held self.new ≡ with_path self.old.shape.l leaf (is_held self.old) }
        ensures contents { contents_in self.new ≡ take_in self.old.shape.l leaf (is_held self.old) (entries_at taken.old.items) (contents_in self.old) }
        ensures others { self.new ≡ record self.old { nodes = self.new.nodes } }
        ensures taken { taken.new.items ≡ [] }
        ensures capacity { vec_capacity taken.old ≤ vec_capacity taken.new }
    {
        // for the proof: there is a place for each node
        let _ = self.subtree.is_resident(1);
        take_all(&mut self.subtree, taken);
    }

    /// Overwrites the value with the block's: that of the stash, or else that of the first copy on the path to a leaf from the root on, or
    /// zero bytes if there is no copy.
    pub fn found(&self, leaf: u32, block: u32, value: &mut Block)
        requires leaf { leaf < 2 ^ self.now.shape.l }
        requires value { length value.old ≡ self.now.shape.b }
        ensures value { value.new ≡ value_or_zeros self.now.shape (found_copy self.now.shape.l leaf (contents_in self.now) block) }
        ensures len { length value.new ≡ self.now.shape.b }
    {
        let found = find_copy(&self.p, &self.subtree, &self.stash, leaf, block);
        write_found(found, value);
    }

    /// Puts the block with this value into the stash, and makes the word its position. It takes no memory.
    pub fn put(&mut self, block: u32, word: u32, value: Block)
        requires block { block < self.old.shape.n }
        requires value { length value ≡ self.old.shape.b }
        ensures contents { contents_in self.new ≡ put (contents_in self.old) block value }
        ensures others { self.new ≡ record self.old { stash = self.new.stash; words = slice_set self.old.words block word } }
    {
        // for the proof: the entries are in order
        let _ = self.stash.get(block);
        self.stash.put(block, value);
        self.positions.set(block, word);
    }

    /// The leaf that the block is assigned to.
    pub fn leaf(&self, block: u32) -> u32
        requires { block < self.now.shape.n }
        ensures value { result ≡ leaf_by self.now block }
        ensures leaf { result < 2 ^ self.now.shape.l }
    {
        self.positions.leaf(block)
    }

    /// Whether a node is held.
    pub fn is_resident(&self, node: u32) -> bool
        ensures { result ≡ is_held self.now node }
    {
        self.subtree.is_resident(node)
    }

    /// How many nodes are held.
    pub fn count(&self) -> usize
        ensures { result ≡ count_by is_some self.now.nodes }
    {
        self.subtree.count()
    }

    /// The version of a node's last issued write-back, or 0.
    pub fn last_version(&self, node: u32) -> u32
        ensures { result ≡ version_in self.now node }
    {
        self.subtree.last_version(node)
    }

    /// The entries of a node, if it is held.
    pub fn entries(&self, node: u32) -> Option<&Entries>
        ensures { option_copied result ≡ option_map (λ bucket. bucket.entries) (slice_index_or self.now.nodes node None) }
    {
        self.subtree.entries(node)
    }

    /// The entries of the stash.
    pub fn stash(&self) -> &[Entry]
        ensures { result.now ≡ self.now.stash }
    {
        self.stash.entries()
    }

    /// The invariant of what is held, for callers' proofs.
    pub fn forms(&self)
        ensures { AreForms self.now }
    {
        let _first = self.positions.leaf(0);
    }

    /// The write-back of this version, which has this node, was acknowledged: the node leaves, unless a fetch touched it since or covers it.
    pub fn forget_one(&mut self, version: u32, node: u32)
        ensures held { is_held self.new ≡ without self.old version node (is_held self.old) }
        ensures contents { contents_in self.new ≡ left_by self.old version node (contents_in self.old) }
        ensures others { self.new ≡ record self.old { nodes = self.new.nodes } }
    {
        self.subtree.forget(version, &[node]);
    }

    /// Begins a fetch of the path to a leaf.
    pub fn begin_fetch(&mut self, leaf: u32)
        requires leaf { leaf < 2 ^ self.old.shape.l }
        requires few { AreFew self.old.counts }
        ensures counts { count_in self.new ≡ one_more self.old.shape.l leaf (count_in self.old) }
        ensures others { self.new ≡ record self.old { counts = self.new.counts } }
    {
        self.subtree.begin_fetch(leaf);
    }

    /// Ends a fetch of the path to a leaf, the `t`-th that ends. Its nodes are touched by it.
    pub fn end_fetch(&mut self, leaf: u32, t: u64)
        requires leaf { leaf < 2 ^ self.old.shape.l }
        requires path { IsPathHeld self.old leaf }
        requires begun { (w : ℕ) → is_on_path self.old.shape.l leaf w ≡ true → 1 ≤ count_in self.old w }
        ensures counts { count_in self.new ≡ one_less self.old.shape.l leaf (count_in self.old) }
        ensures touches { touch_in self.new ≡ touched self.old.shape.l leaf t (touch_in self.old) }
        ensures others { self.new ≡ record self.old { counts = self.new.counts; touches = self.new.touches } }
    {
        self.subtree.end_fetch(leaf, t);
    }

    /// Exchanges the entries of these buckets with those of their nodes, all of which are held. Doing it again undoes it.
    pub fn exchange(&mut self, buckets: &mut [Bucket])
        requires rising { IsStrictlyIncreasing (nodes_in buckets.old) }
        requires held { All (λ bucket. is_held self.old bucket.node ≡ true) buckets.old }
        requires in_form { All (IsInForm self.old.shape) buckets.old }
        ensures held { is_held self.new ≡ is_held self.old }
        ensures contents { contents_in self.new ≡ with_buckets buckets.old (contents_in self.old) }
        ensures others { self.new ≡ record self.old { nodes = self.new.nodes } }
        ensures buckets { buckets.new ≡ map (with_entries_of (contents_in self.old)) buckets.old }
        ensures in_form { All (IsInForm self.old.shape) buckets.new }
    {
        swap_buckets(&mut self.subtree, buckets);
    }

    /// Records that a write-back of these nodes, all of which are held, was issued with this version.
    pub fn set_versions(&mut self, nodes: &[u32], version: u32)
        requires rising { IsStrictlyIncreasing nodes.now }
        requires held { All (λ node. is_held self.old node ≡ true) nodes.now }
        requires newer { All (λ node. version_in self.old node < version) nodes.now }
        ensures versions { version_in self.new ≡ written_at nodes.now version (version_in self.old) }
        ensures others { self.new ≡ record self.old { versions = self.new.versions } }
    {
        set_all(&mut self.subtree, nodes, version);
    }

    /// Evicts the path to a leaf. It takes no memory.
    pub fn evict(&mut self, leaf: u32)
        requires leaf { leaf < 2 ^ self.old.shape.l }
        requires path { IsPathHeld self.old leaf }
        ensures held { is_held self.new ≡ is_held self.old }
        ensures contents { contents_in self.new ≡ evict self.old.shape leaf (leaf_by self.old) (contents_in self.old) }
        ensures others { self.new ≡ record self.old { nodes = self.new.nodes; stash = self.new.stash } }
    {
        evict_path(
            &self.p,
            &mut self.subtree,
            leaf,
            &mut self.lists,
            &mut self.stash,
            &self.positions,
        );
    }
}

fn empty_lists(alloc: Global, count: u32) -> Result<Vec<Entries>, NoMemory>
    ensures { IfOk result (λ lists. AreEmpty count lists.items) }
{
    let mut lists = Vec::with_capacity(alloc, count as usize)?;
    for _ in 0..count {
        lists.push(Entries::new(alloc)?)?;
    }
    Ok(lists)
}
