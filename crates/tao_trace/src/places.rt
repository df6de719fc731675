//! Which arrivals are real, and which places of the tape they use.
ghost use Rattle.std.specs.Prelude.{◌≡◌, ◌<◌, length, slice_index, slice_set, true, false, IfOk};
ghost use Rattle.std.specs.List.{range_with_len};
ghost use Rattle.tao_base.specs.declared.calls.Op.TheVariants.{Read};
ghost use Rattle.tao_model.specs.Events.{NamesBelow};
ghost use Rattle.tao_sequence.specs.Release.{is_done_in, IsReleased};
ghost use Rattle.tao_trace.specs.Places.{first_places, is_free_in, is_real_in, place_in, with_arrival, with_done};

use std::alloc::Global;
use std::marker::Model;
use tao_base::{NoMemory, Op, Params};
use tao_sequence::Sequence;

/// Of each block the place of the word that its next real arrival uses, and which arrivals are done.
#[derive(Debug, Drop)]
pub(crate) struct Places {
    next: Vec<u32>,
    sequence: Sequence,
}

impl Model for Places {
    ghost use Rattle.tao_trace.specs.Places.{PlacesState};

    ghost Value = { PlacesState };

    ghost view = { λ p. record { next = p.next.items; done = p.sequence } };
}

impl Places {
    /// Before the first arrival.
    pub(crate) fn new(alloc: Global, p: &Params) -> Result<Places, NoMemory>
        ensures { IfOk result (λ places. places ≡ first_places p.now) }
    {
        Ok(Places {
            next: first_next(alloc, p.n())?,
            sequence: Sequence::new(alloc, p)?,
        })
    }

    /// The place of the word that the next real arrival on the block uses.
    pub(crate) fn next_on(&self, block: usize) -> u32
        requires { block < length self.now.next }
        ensures { result ≡ slice_index self.now.next block }
    {
        self.next[block]
    }

    /// Whether an arrival of this operation is real: on a block, and no real one there is under way.
    pub(crate) fn is_real(&self, op: &Op) -> bool
        requires { NamesBelow (length self.now.next) op.now }
        ensures { result ≡ is_real_in self.now op.now }
    {
        match op {
            Op::Read(id) | Op::Write(id, _) => self.is_free(*id as usize),
            Op::Pad => false,
        }
    }

    /// Whether no real arrival on the block is under way.
    pub(crate) fn is_free(&self, block: usize) -> bool
        requires { block < length self.now.next }
        ensures { result ≡ is_free_in self.now block }
    {
        let blocks = self.next.len();
        let place = self.next[block] as usize;
        if place < blocks {
            return true;
        }
        self.sequence.is_done((place - blocks) as u64)
    }

    /// The place that an arrival of this operation uses; `own` is that of its own word.
    pub(crate) fn place_of(&self, op: &Op, own: u32) -> u32
        requires { NamesBelow (length self.now.next) op.now }
        ensures { result ≡ place_in self.now op.now own }
    {
        match op {
            Op::Read(id) | Op::Write(id, _) => self.place_on(*id as usize, own),
            Op::Pad => own,
        }
    }

    fn place_on(&self, block: usize, own: u32) -> u32
        requires { block < length self.now.next }
        ensures { result ≡ place_in self.now (Read block) own }
    {
        if self.is_free(block) {
            self.next[block]
        } else {
            own
        }
    }

    /// Keeps an arrival; `own` is the place of its own word.
    pub(crate) fn add_arrival(&mut self, op: &Op, own: u32)
        requires { NamesBelow (length self.old.next) op.now }
        ensures { self.new ≡ with_arrival self.old op.now own }
    {
        match op {
            Op::Read(id) | Op::Write(id, _) => self.move_next(*id as usize, own),
            Op::Pad => {}
        }
    }

    fn move_next(&mut self, block: usize, own: u32)
        requires { block < length self.old.next }
        ensures { self.new ≡ with_arrival self.old (Read block) own }
    {
        if self.is_free(block) {
            self.next[block] = own;
        }
    }

    /// Keeps a Done.
    pub(crate) fn add_done(&mut self, arrival: u64)
        requires limit { arrival < length self.old.done }
        requires once { is_done_in self.old.done arrival ≡ false }
        ensures { self.new ≡ with_done self.old arrival }
    {
        self.sequence.done(arrival);
    }

    /// How many arrivals, from the first on, are all done.
    pub(crate) fn released(&self) -> u64
        ensures { IsReleased self.now.done result }
    {
        self.sequence.released()
    }

    /// The same once this arrival is done too.
    pub(crate) fn released_after(&self, arrival: u64) -> u64
        requires { arrival < length self.now.done }
        ensures { IsReleased (slice_set self.now.done arrival true) result }
    {
        self.sequence.released_after(arrival)
    }
}

// Each block's own place.
fn first_next(alloc: Global, blocks: u32) -> Result<Vec<u32>, NoMemory>
    ensures { IfOk result (λ next. next.items ≡ range_with_len 0 blocks) }
{
    let mut next = Vec::with_capacity(alloc, blocks as usize)?;
    for block in 0..blocks {
        next.push(block)?;
    }
    Ok(next)
}
