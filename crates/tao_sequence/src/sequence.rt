//! Which arrivals of a session are done, and how many of them may be answered.
ghost use Rattle.std.specs.Prelude.{◌≡◌, ◌<◌, ◌≤◌, true, false, length, replicate, slice_set, IfOk};
ghost use Rattle.tao_base.specs.Limits.{session_limit};
ghost use Rattle.tao_sequence.specs.Release.{is_done_in, IsReleased, IsFirstUndone};

use std::alloc::Global;
use std::marker::Model;
use tao_base::{NoMemory, Params};

/// A flag for each arrival that a session may have, and the number of those released, which only rises: all calls of a session together
/// pass each flag once.
#[derive(Debug, Drop)]
pub struct Sequence {
    done: Vec<bool>,
    released: usize,
}

impl Model for Sequence {
    ghost use Rattle.std.specs.Prelude.{List, Bool};
    ghost use Rattle.tao_sequence.specs.Release.{IsReleased};

    ghost Value = { List Bool };

    ghost view = { λ s. s.done.items };

    ghost invariant = { λ s. IsReleased s.done.items s.released };
}

impl Sequence {
    /// No arrival is done. The one call that takes memory.
    pub fn new(alloc: Global, p: &Params) -> Result<Sequence, NoMemory>
        ensures { IfOk result (λ s. s ≡ replicate (session_limit p.now) false) }
    {
        let done = vec![in alloc; false; p.session_limit() as usize]?;
        Ok(Sequence { done, released: 0 })
    }

    /// This arrival is done.
    pub fn done(&mut self, arrival: u64)
        requires limit { arrival < length self.old }
        requires once { is_done_in self.old arrival ≡ false }
        ensures { self.new ≡ slice_set self.old arrival true }
    {
        self.released = self.released_after(arrival) as usize;
        self.done[arrival as usize] = true;
    }

    /// How many arrivals, from the first on, are all done once this one is too.
    #[tactic(auto, using(crate::proofs::Flags::released_further, crate::proofs::Flags::released_no_further))]
    pub fn released_after(&self, arrival: u64) -> u64
        requires { arrival < length self.now }
        ensures { IsReleased (slice_set self.now arrival true) result }
    {
        if arrival as usize == self.released {
            first_undone(&self.done, self.released + 1) as u64
        } else {
            self.released()
        }
    }

    /// Whether this arrival is done. One that a session can't have isn't.
    pub fn is_done(&self, arrival: u64) -> bool
        ensures { result ≡ is_done_in self.now arrival }
    {
        self.done.get(arrival as usize).copied().unwrap_or(false)
    }

    /// How many arrivals, from the first on, are all done.
    pub fn released(&self) -> u64
        ensures { IsReleased self.now result }
    {
        self.released as u64
    }
}

// The first arrival from this one on that isn't done.
fn first_undone(done: &[bool], from: usize) -> usize
    requires { from ≤ length done.now }
    ensures { IsFirstUndone done.now from result }
{
    let mut place = from;
    while place < done.len() && done[place] {
        place += 1;
    }
    place
}
