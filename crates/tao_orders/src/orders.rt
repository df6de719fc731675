//! The queue: what is put and what is taken.
ghost use Rattle.std.specs.Prelude.{◌≡◌, ◌≤◌, ◌<◌, ◌∷◌, ◌++◌, [], IfOk, OnOk, OnErr, IfErr, IfSome, OnSome, IfNone, IsTrue, vec_capacity};
ghost use Rattle.crossbeam_queue.specs.Passes.{ruled_capacity};
ghost use Rattle.tao_orders.specs.Works.{number_of, IsNumbered, MayPut, EachOnce, IsNewest};

use crate::hand::Line;
use crate::passes::{PutPass, TakePass};
use crate::plays::{Opens, Puts, Takes};
use crate::work::{Slip, Work};
use std::alloc::Global;
use std::sync::Wait;
use std::thread;
use tao_base::NoMemory;

/// A queue of work, of a fixed capacity.
#[derive(Drop)]
pub struct Orders {
    pub(crate) line: Line,
    // preallocated for what is left at the end
    pub(crate) room: Vec<Work>,
    ghost empty: { room.items ≡ [] },
    ghost room_is_kept: { ruled_capacity line ≤ vec_capacity room },
}

impl Orders {
    ghost use Rattle.tao_orders.specs.Passes.{IsPutPassOf, IsTakePassOf, capacity_of, put_of, works_of, took_of, share_of, WasFull};
    ghost use Rattle.tao_orders.specs.Shares.{IsWhole};

    /// An empty queue, with the pass that puts and a pass that takes.
    pub fn new(alloc: Global, capacity: usize) -> Result<(Orders, PutPass, TakePass), NoMemory>
        requires { 0 < capacity }
        ensures passes { IfOk result (λ r. IsPutPassOf r.0 r.1 × IsTakePassOf r.0 r.2) }
        ensures nothing { IfOk result (λ r. (put_of r.1 ≡ []) × (works_of r.2 ≡ [])) }
        ensures share { IfOk result (λ r. IsWhole (share_of r.2)) }
        ensures capacity { IfOk result (λ r. capacity_of r.0 ≡ capacity) }
    {
        let room = Vec::with_capacity(alloc, capacity)?;
        let (line, mut pass) = Line::ruled(alloc, capacity)?;
        let taking = line.another::<Opens>(&mut pass);
        Ok((
            Orders { line, room },
            PutPass { pass, count: 0 },
            TakePass { pass: taking },
        ))
    }

    /// Appends a piece of work. It comes back only if the queue was full at some moment of the call.
    pub fn put<R: Wait>(&self, rt: &R, pass: &mut PutPass, work: Work) -> Result<(), Work>
        requires pass { IsPutPassOf self.now pass.old }
        requires order { MayPut (put_of pass.old) work }
        ensures pass { IsPutPassOf self.now pass.new }
        ensures ok { OnOk result (put_of pass.new ≡ put_of pass.old ++ work ∷ []) }
        ensures back { IfErr result (λ back. back ≡ work) }
        // The pass doesn't see what is taken, so it can't tell that the queue isn't full once `capacity` pieces were put: tests try this.
        ensures full { OnErr result ((put_of pass.new ≡ put_of pass.old) × WasFull self.now (put_of pass.old)) }
    {
        let number = pass.count;
        wait_unless(rt, number < u64::MAX);
        match self
            .line
            .push_as::<Puts, R>(rt, &mut pass.pass, Slip { number, work })
        {
            Ok(()) => {
                pass.count = number + 1;
                Ok(())
            }
            Err(slip) => Err(slip.work),
        }
    }

    /// Takes the oldest piece of work. None only if the queue was empty at some moment of the call.
    pub fn take<R: Wait>(&self, rt: &R, pass: &mut TakePass) -> Option<Work>
        requires pass { IsTakePassOf self.now pass.old }
        ensures pass { IsTakePassOf self.now pass.new × (share_of pass.new ≡ share_of pass.old) }
        ensures some { IfSome result (λ work. works_of pass.new ≡ works_of pass.old ++ work ∷ []) }
        ensures numbered { IfSome result IsNumbered }
        ensures newest { IfSome result (λ work. IsNewest (took_of pass.old) (number_of work)) }
        // The pass doesn't see what is put, so no clause tells that the queue was empty: tests try this.
        ensures none { IfNone result (works_of pass.new ≡ works_of pass.old) }
        ensures once { EachOnce (took_of pass.new) }
    {
        match self.line.pop_as::<Takes, R>(rt, &mut pass.pass) {
            Some(slip) => Some(slip.work),
            None => None,
        }
    }
}

/// Waits forever unless the fact holds. It always does, but that can't be proved.
pub(crate) fn wait_unless<R: Wait>(rt: &R, holds: bool)
    ensures { IsTrue holds }
{
    if holds {
        return;
    }
    for _ in rt.forever() {
        thread::yield_now();
    }
    unreachable!()
}
