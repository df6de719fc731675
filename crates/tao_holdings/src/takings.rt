//! Admits fetched buckets.
ghost use Rattle.std.specs.Prelude.{◌≡◌, ◌+◌, ◌≤◌, false, [], All, is_some, slice_set, vec_capacity, Some};
ghost use Rattle.tao_base.specs.Tree.{node_count};
ghost use Rattle.tao_subtree.specs.Residents.{resident_at, resident_count, KeepsRoom};
ghost use Rattle.tao_holdings.specs.Lists.{with_taken, AreAway};

use tao_base::Bucket;
use tao_subtree::Subtree;

/// Admits all buckets.
pub(crate) fn take_all(subtree: &mut Subtree, taken: &mut Vec<Bucket>)
    requires low { All (λ bucket. 1 ≤ bucket.node) taken.old.items }
    requires high { All (λ bucket. bucket.node ≤ node_count subtree.old.shape.l) taken.old.items }
    requires away { AreAway subtree.old.residents taken.old.items }
    requires room { resident_count subtree.old + subtree.old.spare ≡ node_count subtree.old.shape.l + 1 }
    ensures state { subtree.new ≡ record subtree.old { residents = with_taken subtree.old.residents taken.old.items; spare = subtree.new.spare } }
    ensures kept { KeepsRoom subtree.old subtree.new }
    ensures taken { taken.new.items ≡ [] }
    ensures capacity { vec_capacity taken.old ≤ vec_capacity taken.new }
{
    while let Some(bucket) = taken.pop() {
        take_one(subtree, bucket);
    }
}

#[tactic(auto, using(crate::proofs::TakenIn::has_spare))]
fn take_one(subtree: &mut Subtree, bucket: Bucket)
    requires low { 1 ≤ bucket.node }
    requires high { bucket.node ≤ node_count subtree.old.shape.l }
    requires away { is_some (resident_at subtree.old bucket.node) ≡ false }
    requires room { resident_count subtree.old + subtree.old.spare ≡ node_count subtree.old.shape.l + 1 }
    ensures state { subtree.new ≡ record subtree.old { residents = slice_set subtree.old.residents bucket.node (Some bucket); spare = subtree.new.spare } }
    ensures kept { KeepsRoom subtree.old subtree.new }
{
    // for the proof: there is a place for each node
    let _ = subtree.is_resident(bucket.node);
    subtree.take_in(bucket);
}
