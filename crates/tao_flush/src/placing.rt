//! One pass in rising id: each block goes to the deepest node of the path that it may lie in and that has room, or stays.
ghost use Rattle.std.specs.Prelude.{◌≡◌, ◌+◌, ◌^◌, ◌<◌, ◌≤◌, [], length, take, drop, IfSome};
ghost use Rattle.std.specs.List.{slice_index_or};
ghost use Rattle.tao_model.specs.Greatest.{IsLast};
ghost use Rattle.tao_flush.specs.Placing.{fits, IsEviction, KeepsFrom, PlacesOne, AreShared};

use crate::positions::Positions;
use std::alloc::Global;
use tao_base::{Entries, Entry, Params};

/// What an eviction places by: the parameters, the leaf of its path, and the positions of the blocks.
#[derive(Clone, Copy)]
pub(crate) struct Eviction<'a> {
    pub(crate) alloc: Global,
    pub(crate) p: Params,
    pub(crate) leaf: u32,
    pub(crate) positions: &'a Positions,
}

impl Eviction<'_> {
    /// Puts an entry where it is to go: into a node, or at a place of the list of the rest. Answers the place for the next one.
    pub(crate) fn place_entry(
        &self,
        path: &mut [Entries],
        rest: &mut [Entry],
        kept: usize,
        entry: Entry,
    ) -> usize
        requires eviction { IsEviction self.now }
        requires block { entry.id < self.now.p.n }
        requires path { length path.old ≡ self.now.p.l + 1 }
        requires room { kept < length rest.old }
        ensures placed { PlacesOne self.now path.old (take kept rest.old) entry path.new (take result rest.new) }
        ensures most { result ≤ kept + 1 }
        ensures behind { KeepsFrom (kept + 1) rest.old rest.new }
    {
        let own = self.positions.leaf(entry.id);
        match deepest_with_room(&self.p, self.leaf, own, path) {
            Some(depth) => {
                path[depth as usize].push_reserved(entry);
                kept
            }
            None => {
                rest[kept] = entry;
                kept + 1
            }
        }
    }
}

#[tactic(auto, using(crate::proofs::SharedPaths::shared_fits, crate::proofs::SharedPaths::deeper_fails))]
// The depth of the deepest node on the paths of both leaves that has room.
fn deepest_with_room(p: &Params, leaf: u32, other: u32, path: &[Entries]) -> Option<u32>
    requires leaf { leaf < 2 ^ p.now.l }
    requires other { other < 2 ^ p.now.l }
    requires path { length path.now ≡ p.now.l + 1 }
    ensures deepest { IsLast (fits p.now leaf other path.now) (p.now.l + 1) result }
    ensures room { IfSome result (λ depth. length (slice_index_or path.now depth []) < 8) }
{
    let z = p.z() as usize;
    let shared = shared_depth(p, leaf, other);
    let mut depth = shared + 1;
    while depth > 0 {
        depth -= 1;
        if path[depth as usize].as_slice().len() < z {
            return Some(depth);
        }
    }
    None
}

// The depth of the deepest node that is on the paths of both leaves.
fn shared_depth(p: &Params, leaf: u32, other: u32) -> u32
    requires leaf { leaf < 2 ^ p.now.l }
    requires other { other < 2 ^ p.now.l }
    ensures within { result ≤ p.now.l }
    ensures shared { AreShared p.now.l leaf other result }
{
    p.l() - (32 - (other ^ leaf).leading_zeros())
}
