//! The eviction of Path ORAM. It is fast since a block moves by its handle alone, with no copy of its bytes, and what is sorted are 64-bit
//! keys of the path's entries alone.
ghost use Rattle.std.specs.Prelude.{◌≡◌, ◌+◌, ◌^◌, ◌<◌, length, All};
ghost use Rattle.tao_flush.specs.Blocks.{IsStash, AreNodeEntries};
ghost use Rattle.tao_flush.specs.Paths.{Evicts};
ghost use Rattle.tao_flush.specs.State.{leaf_in};

use crate::gathering::gather_path;
use crate::merging::make_way;
use crate::placing::Eviction;
use crate::positions::Positions;
use crate::stash::Stash;
use tao_base::{Entries, Params};

/// Gathers the blocks of the stash and of the path (root first), of several copies the first, and places them anew: each node, from the
/// leaf up, takes as many of lowest id as may lie there and fit. The rest is the stash. It takes no memory.
pub fn flush(p: &Params, leaf: u32, path: &mut [Entries], stash: &mut Stash, positions: &Positions)
    requires leaf { leaf < 2 ^ p.now.l }
    requires stash { stash.old.shape ≡ p.now }
    requires positions { positions.now.shape ≡ p.now }
    requires path { length path.old ≡ p.now.l + 1 }
    requires entries { All (AreNodeEntries p.now) path.old }
    ensures evicted { Evicts p.now leaf (leaf_in positions.now) stash.old.entries path.old stash.new.entries path.new }
    ensures shape { stash.new.shape ≡ stash.old.shape }
    ensures stash { IsStash p.now stash.new.entries }
    ensures entries { All (AreNodeEntries p.now) path.new }
{
    // tells the prover that the parameters are within their limits
    let _within = p.n();
    let count = gather_path(path, &mut stash.copies);
    make_way(stash.alloc, &mut stash.entries, count);
    let eviction = Eviction {
        alloc: stash.alloc,
        p: *p,
        leaf,
        positions,
    };
    eviction.place_copies(path, count, &mut stash.copies, &mut stash.entries);
}
