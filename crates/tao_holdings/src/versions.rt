//! Sets the versions of residents.
ghost use Rattle.std.specs.Prelude.{◌≡◌, ◌<◌, ℕ, true, cond, nat_eq, is_some, All};
ghost use Rattle.std.specs.List.Sorted.{IsStrictlyIncreasing};
ghost use Rattle.tao_subtree.specs.Residents.{resident_at, version_at};
ghost use Rattle.tao_holdings.specs.Lists.{held_in};
ghost use Rattle.tao_holdings.specs.Holding.{written_at};

use tao_subtree::Subtree;

/// Records that a write-back of these residents was issued with this version.
pub(crate) fn set_all(subtree: &mut Subtree, nodes: &[u32], version: u32)
    requires rising { IsStrictlyIncreasing nodes.now }
    requires held { All (λ node. held_in subtree.old.residents node ≡ true) nodes.now }
    requires newer { All (λ node. version_at subtree.old node < version) nodes.now }
    ensures versions { (w : ℕ) → version_at subtree.new w ≡ written_at nodes.now version (version_at subtree.old) w }
    ensures others { subtree.new ≡ record subtree.old { versions = subtree.new.versions } }
{
    for i in 0..nodes.len() {
        set_one(subtree, nodes[i], version);
    }
}

#[tactic(auto, using(crate::proofs::Versioned::set_at))]
fn set_one(subtree: &mut Subtree, node: u32, version: u32)
    requires held { is_some (resident_at subtree.old node) ≡ true }
    requires newer { version_at subtree.old node < version }
    ensures versions { (w : ℕ) → version_at subtree.new w ≡ cond (nat_eq node w) version (version_at subtree.old w) }
    ensures others { subtree.new ≡ record subtree.old { versions = subtree.new.versions } }
{
    // for the proof: there is a place for each node
    let _ = subtree.is_resident(node);
    subtree.set_version(node, version);
}
