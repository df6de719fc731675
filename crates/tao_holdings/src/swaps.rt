//! Exchanges the entries of nodes with given lists or buckets.
ghost use Rattle.std.specs.Prelude.{◌≡◌, ℕ, ◌+◌, ◌^◌, ◌<◌, true, [], ◌∷◌, length, map, is_some, All};
ghost use Rattle.tao_base.specs.Tree.{path, is_on_path};
ghost use Rattle.std.specs.List.Sorted.{IsStrictlyIncreasing};
ghost use Rattle.tao_flush.specs.Placing.{lists_on};
ghost use Rattle.tao_model.specs.Trace.{nodes_in};
ghost use Rattle.tao_subtree.specs.Residents.{resident_at, KeepsRoom};
ghost use Rattle.tao_holdings.specs.Lists.{held_in, entries_in, Relists, with_entries_of, lists_in};

use tao_base::{Bucket, Entries, Params, path_node};
use tao_subtree::Subtree;

/// Exchanges the lists of the path's nodes, from the root on, with those given.
pub(crate) fn swap_path(p: &Params, subtree: &mut Subtree, leaf: u32, lists: &mut [Entries])
    requires leaf { leaf < 2 ^ p.now.l }
    requires lists { length lists.old ≡ p.now.l + 1 }
    requires path { (w : ℕ) → is_on_path p.now.l leaf w ≡ true → is_some (resident_at subtree.old w) ≡ true }
    ensures residents { Relists (path p.now.l leaf) lists.old subtree.old.residents subtree.new.residents }
    ensures others { subtree.new ≡ record subtree.old { residents = subtree.new.residents; spare = subtree.new.spare } }
    ensures kept { KeepsRoom subtree.old subtree.new }
    ensures lists { lists.new ≡ lists_on p.now.l leaf (entries_in subtree.old.residents) }
{
    for depth in 0..p.l() + 1 {
        let node = path_node(p, leaf, depth);
        swap_one(subtree, node, &mut lists[depth as usize]);
    }
}

/// Exchanges the list of one node with the one given.
#[tactic(auto, using(crate::proofs::Swapped::swaps_one))]
pub(crate) fn swap_one(subtree: &mut Subtree, node: u32, list: &mut Entries)
    requires { is_some (resident_at subtree.old node) ≡ true }
    ensures residents { Relists (node ∷ []) (list.old ∷ []) subtree.old.residents subtree.new.residents }
    ensures others { subtree.new ≡ record subtree.old { residents = subtree.new.residents; spare = subtree.new.spare } }
    ensures kept { KeepsRoom subtree.old subtree.new }
    ensures list { list.new ≡ entries_in subtree.old.residents node }
{
    // for the proof: there is a place for each node
    let _ = subtree.is_resident(node);
    subtree.swap_entries(node, list);
}

/// Exchanges the entries of all these buckets with those of their nodes.
pub(crate) fn swap_buckets(subtree: &mut Subtree, buckets: &mut [Bucket])
    requires rising { IsStrictlyIncreasing (nodes_in buckets.old) }
    requires held { All (λ bucket. held_in subtree.old.residents bucket.node ≡ true) buckets.old }
    ensures residents { Relists (nodes_in buckets.old) (lists_in buckets.old) subtree.old.residents subtree.new.residents }
    ensures others { subtree.new ≡ record subtree.old { residents = subtree.new.residents; spare = subtree.new.spare } }
    ensures kept { KeepsRoom subtree.old subtree.new }
    ensures buckets { buckets.new ≡ map (with_entries_of (entries_in subtree.old.residents)) buckets.old }
{
    for i in 0..buckets.len() {
        swap_bucket(subtree, &mut buckets[i]);
    }
}

fn swap_bucket(subtree: &mut Subtree, bucket: &mut Bucket)
    requires { is_some (resident_at subtree.old bucket.old.node) ≡ true }
    ensures residents { Relists (bucket.old.node ∷ []) (bucket.old.entries ∷ []) subtree.old.residents subtree.new.residents }
    ensures others { subtree.new ≡ record subtree.old { residents = subtree.new.residents; spare = subtree.new.spare } }
    ensures kept { KeepsRoom subtree.old subtree.new }
    ensures bucket { bucket.new ≡ with_entries_of (entries_in subtree.old.residents) bucket.old }
{
    swap_one(subtree, bucket.node, &mut bucket.entries);
}
