//! The paths of the tree, in heap order: node 1 is the root, and the children of node w are 2w and 2w + 1.
ghost use Rattle.std.specs.Prelude.{◌≡◌, ◌+◌, ◌-◌, ◌^◌, ◌<◌, ◌≤◌, ◌↔◌, IsTrue, Contains};
ghost use Rattle.tao_base.specs.Tree.{node_at, node_count, path, is_on_path};

use crate::parameters::Params;

#[tactic(auto, using(crate::proofs::TreeLemmas::one_shifted, crate::proofs::TreeLemmas::one_le_node))]
/// The node at a depth of the path from the root (depth 0) to a leaf (depth l).
pub fn path_node(p: &Params, leaf: u32, depth: u32) -> u32
    requires leaf { leaf < 2 ^ p.now.l }
    requires depth { depth ≤ p.now.l }
    ensures value { result ≡ node_at p.now.l leaf depth }
    ensures low { 1 ≤ result }
    ensures high { result ≤ node_count p.now.l }
{
    ((1 << p.l()) + leaf) >> (p.l() - depth)
}

#[tactic(auto, using(crate::proofs::TreeLemmas::depth_within, crate::proofs::TreeLemmas::on_path_depth, crate::proofs::TreeLemmas::on_path_member))]
/// Whether the node is on the path to the leaf.
pub fn on_path(p: &Params, leaf: u32, node: u32) -> bool
    requires leaf { leaf < 2 ^ p.now.l }
    requires low { 1 ≤ node }
    requires high { node ≤ node_count p.now.l }
    ensures value { result ≡ is_on_path p.now.l leaf node }
    ensures member { IsTrue result ↔ Contains (path p.now.l leaf) node }
{
    path_node(p, leaf, node.ilog2()) == node
}
