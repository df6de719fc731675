//! Changes a number of each node of a path.
ghost use Rattle.std.specs.Prelude.{◌≡◌, ◌+◌, ◌^◌, ◌<◌, ◌≤◌, ℕ, true, cond, length, slice_index};
ghost use Rattle.tao_base.specs.Tree.{is_on_path};
ghost use Rattle.tao_subtree.specs.Residents.{AreFew, on_path_count};

use tao_base::{Params, path_node};

/// Adds 1 to the number of each node of the path to a leaf.
pub(crate) fn raise(counts: &mut [u32], p: &Params, leaf: u32)
    requires leaf { leaf < 2 ^ p.now.l }
    requires len { length counts.old ≡ 2 ^ (p.now.l + 1) }
    requires few { AreFew counts.old }
    ensures { (node : ℕ) → slice_index counts.new node ≡ slice_index counts.old node + on_path_count p.now.l leaf node }
{
    for depth in 0..p.l() + 1 {
        let node = path_node(p, leaf, depth) as usize;
        counts[node] += 1;
    }
}

/// Subtracts 1 from the number of each node of the path to a leaf.
pub(crate) fn lower(counts: &mut [u32], p: &Params, leaf: u32)
    requires leaf { leaf < 2 ^ p.now.l }
    requires len { length counts.old ≡ 2 ^ (p.now.l + 1) }
    requires some { (node : ℕ) → is_on_path p.now.l leaf node ≡ true → 1 ≤ slice_index counts.old node }
    ensures { (node : ℕ) → slice_index counts.new node + on_path_count p.now.l leaf node ≡ slice_index counts.old node }
{
    for depth in 0..p.l() + 1 {
        let node = path_node(p, leaf, depth) as usize;
        counts[node] -= 1;
    }
}

/// Sets the number of each node of the path to a leaf to `t`.
pub(crate) fn mark(touches: &mut [u64], p: &Params, leaf: u32, t: u64)
    requires leaf { leaf < 2 ^ p.now.l }
    requires len { length touches.old ≡ 2 ^ (p.now.l + 1) }
    ensures { (node : ℕ) → slice_index touches.new node ≡ cond (is_on_path p.now.l leaf node) t (slice_index touches.old node) }
{
    for depth in 0..p.l() + 1 {
        let node = path_node(p, leaf, depth) as usize;
        touches[node] = t;
    }
}
