//! Evicts a path whose nodes are held.
ghost use Rattle.std.specs.Prelude.{◌≡◌, ℕ, ◌+◌, ◌^◌, ◌<◌, true};
ghost use Rattle.tao_base.specs.Tree.{is_on_path};
ghost use Rattle.tao_held.specs.Steps.{evict};
ghost use Rattle.tao_flush.specs.Blocks.{IsStash};
ghost use Rattle.tao_flush.specs.State.{leaf_in};
ghost use Rattle.tao_model.specs.Placement.{with_stash};
ghost use Rattle.tao_subtree.specs.Residents.{KeepsRoom};
ghost use Rattle.tao_holdings.specs.Lists.{held_in, entries_in, AreNodes};
ghost use Rattle.tao_holdings.specs.Parts.{AreEmpty};

use crate::swaps::swap_path;
use tao_base::{Entries, Params};
use tao_flush::{Positions, Stash, flush};
use tao_subtree::Subtree;

/// Evicts the path to a leaf. The lists are empty before and after.
pub(crate) fn evict_path(
    p: &Params,
    subtree: &mut Subtree,
    leaf: u32,
    lists: &mut [Entries],
    stash: &mut Stash,
    positions: &Positions,
)
    requires leaf { leaf < 2 ^ p.now.l }
    requires stash { stash.old.shape ≡ p.now }
    requires positions { positions.now.shape ≡ p.now }
    requires lists { AreEmpty (p.now.l + 1) lists.old }
    requires in_form { AreNodes p.now subtree.old.residents }
    requires path { (w : ℕ) → is_on_path p.now.l leaf w ≡ true → held_in subtree.old.residents w ≡ true }
    ensures held { held_in subtree.new.residents ≡ held_in subtree.old.residents }
    ensures contents { with_stash stash.new.entries (entries_in subtree.new.residents)
        ≡ evict p.now leaf (leaf_in positions.now) (with_stash stash.old.entries (entries_in subtree.old.residents)) }
    ensures in_form { AreNodes p.now subtree.new.residents }
    ensures in_order { IsStash p.now stash.new.entries }
    ensures shape { stash.new.shape ≡ stash.old.shape }
    ensures others { subtree.new ≡ record subtree.old { residents = subtree.new.residents; spare = subtree.new.spare } }
    ensures kept { KeepsRoom subtree.old subtree.new }
    ensures lists { lists.new ≡ lists.old }
{
    swap_path(p, subtree, leaf, lists);
    flush(p, leaf, lists, stash, positions);
    swap_path(p, subtree, leaf, lists);
}
