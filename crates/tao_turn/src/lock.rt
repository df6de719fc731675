//! Makes a turn lock, and takes it apart.
ghost use Rattle.std.specs.Prelude.{◌≡◌, ◌<◌, [], ◌∷◌, Some, IfOk, IfErr, IsOkAnd};
ghost use Rattle.std.specs.List.{range_with_len};
ghost use Rattle.tao_turn.specs.Histories.{newcomer, AreLeftOut, HasAll, MayFind};

use crate::journal::Journal;
use crate::pass::TurnPass;
use crate::rule::{Key, Turns};
use crate::view::View;
use atomic_table::{Refused, Table};
use std::alloc::Global;
use std::snapshot::Snapshot;
use tao_base::NoMemory;

/// A value that one thread at a time takes out, in the order of the tickets.
#[derive(Drop)]
pub struct TurnLock<T: Journal> {
    pub(crate) table: Table<Option<T>, View<T::Entry>, Key<T>, Turns<T>, Global>,
    ghost words: { table.shared.table_id.words ≡ 3 },
    ghost slots: { table.shared.table_id.slots ≡ 1 },
}

/// A turn was never left, so the value is lost: the next ticket, and the one that is served.
#[derive(Debug, Drop)]
pub struct LeftOut {
    pub ticket: u64,
    pub serving: u64,
}

impl<T: Journal> TurnLock<T> {
    ghost use Rattle.tao_turn.specs.Passes.{IsPassOf, seats_of, known};

    /// A lock whose shares are the numbers below `seats`, and the pass that has them all. If memory runs out, the value comes back.
    pub fn new(
        alloc: Global,
        value: T,
        seats: u32,
    ) -> Result<(TurnLock<T>, TurnPass<T::Entry>), (T, NoMemory)>
        requires { 0 < seats }
        ensures pass { IfOk result (λ r. IsPassOf r.0 r.1) }
        ensures seats { IfOk result (λ r. seats_of r.0 ≡ seats) }
        ensures known { IfOk result (λ r. known r.1 ≡ newcomer (T.entries value) (range_with_len 0 seats)) }
        ensures back { IfErr result (λ e. e.0 ≡ value) }
    {
        let mark = value.mark();
        let about = (seats, Snapshot::of(&value));
        let mut slots = Vec::new(alloc);
        if slots.reserve(1).is_err() {
            slots.destroy_empty();
            return Err((value, NoMemory));
        }
        slots.push_reserved(Some(value));
        match Table::new(alloc, &[0, 0, mark], slots, &about) {
            Ok((table, seat)) => Ok((
                TurnLock { table },
                TurnPass {
                    badge: seat.into_badge(),
                },
            )),
            Err(refused) => Err((the_one(refused), NoMemory)),
        }
    }

    /// Takes the value out for good. With all shares it never fails.
    pub fn close(self, pass: TurnPass<T::Entry>) -> Result<T, LeftOut>
        requires pass { IsPassOf self pass }
        ensures ok { IfOk result (λ value. MayFind T.maker T.mark_of (known pass) (T.entries value)) }
        ensures left_out { IfErr result (λ e. AreLeftOut (seats_of self) (known pass) e.ticket e.serving) }
        ensures all { HasAll (seats_of self) (known pass).shares → IsOkAnd result (λ value. T.entries value ≡ (known pass).seen) }
    {
        let TurnLock { table } = self;
        let TurnPass { badge } = pass;
        let mut closed = table.close_with(badge.into_seat::<Option<T>>());
        let ticket = closed.word(0);
        let serving = closed.word(1);
        let slot = closed.take(0);
        closed.free();
        if ticket != serving {
            drop(slot);
            return Err(LeftOut { ticket, serving });
        }
        match slot {
            Some(value) => Ok(value),
            None => unreachable!(),
        }
    }
}

// The one value that comes back.
fn the_one<T>(refused: Refused<Option<T>, Global>) -> T
    requires { (x : T) × (refused.slots.items ≡ Some x ∷ []) }
    ensures { refused.slots.items ≡ Some result ∷ [] }
{
    let Refused { mut slots } = refused;
    let last = slots.pop();
    slots.destroy_empty();
    match last {
        Some(Some(value)) => value,
        Some(None) => unreachable!(),
        None => unreachable!(),
    }
}
