//! A turn: a ticket is drawn, awaited and served; the value comes out and goes back, and its mark is published.
ghost use Rattle.std.specs.Prelude.{◌≡◌, ◌≤◌, [], ◌∷◌, length, true};
ghost use Rattle.tao_turn.specs.Histories.{MayFind, OwnMade, after_turn};
ghost use Rattle.tao_turn.specs.Lists.{Begins};
ghost use Rattle.tao_turn.specs.Steps.{Took};
ghost use Rattle.tao_turn.specs.declared.view.Stage.TheVariants.{Idle, Waiting};

use crate::journal::Journal;
use crate::lock::TurnLock;
use crate::pass::{Held, TurnPass};
use crate::plays::{Advance, Draw, Look, Publish};
use crate::view::View;
use atomic_table::Seat;
use crossbeam_utils::Backoff;
use std::sync::Wait;

impl<T: Journal> TurnLock<T> {
    ghost use Rattle.tao_turn.specs.Passes.{IsPassOf, IsTurnOf, known, known_before, ticket_of, found, value_of};

    /// Waits for a turn, and takes the value out.
    pub fn enter<R: Wait>(&self, rt: &R, pass: TurnPass<T::Entry>) -> Held<T>
        requires pass { IsPassOf self.now pass }
        ensures turn { IsTurnOf self.now result }
        ensures known { known_before result ≡ known pass }
        ensures ticket { (known pass).ended ≤ ticket_of result }
        ensures found { found result ≡ T.entries (value_of result) }
        ensures follows { MayFind T.maker T.mark_of (known pass) (T.entries (value_of result)) }
    {
        let TurnPass { badge } = pass;
        let mut seat = badge.into_seat::<Option<T>>();
        let ticket = self.draw(rt, &mut seat);
        self.wait(rt, &mut seat, ticket);
        let value = self.table.shared.exchange(&mut seat, 0, None);
        match value {
            Some(value) => Held { value, seat },
            None => unreachable!(),
        }
    }

    /// Puts the value back, and ends the turn. The list may have grown by entries of nobody and of the pass's own shares.
    pub fn leave(&self, held: Held<T>) -> TurnPass<T::Entry>
        requires turn { IsTurnOf self.now held }
        requires longer { Begins (found held) (T.entries (value_of held)) }
        requires own { OwnMade T.maker (T.entries (value_of held)) (length (found held)) (known_before held).shares }
        ensures pass { IsPassOf self.now result }
        ensures known { known result ≡ after_turn (known_before held) (ticket_of held) (found held) (T.entries (value_of held)) }
    {
        let Held { value, mut seat } = held;
        let mark = value.mark();
        match self.table.shared.exchange(&mut seat, 0, Some(value)) {
            None => {}
            Some(_) => unreachable!(),
        }
        self.table.shared.fetch_add::<Advance<T>>(&mut seat, 1, 1);
        self.table.shared.fetch_max::<Publish>(&mut seat, 2, mark);
        TurnPass {
            badge: seat.into_badge(),
        }
    }

    // Draws a ticket. The maximum is never drawn, so that tickets don't wrap.
    fn draw<R: Wait>(&self, rt: &R, seat: &mut Seat<Option<T>, View<T::Entry>>) -> u64
        requires seat { (seat.old.table_id ≡ self.now.table.shared.table_id) × (seat.old.me.1 ≡ []) }
        requires idle { seat.old.me.0.stage ≡ Idle }
        ensures seat { (seat.new.table_id ≡ seat.old.table_id) × (seat.new.id ≡ seat.old.id) }
        ensures waits { seat.new.me ≡ (record seat.old.me.0 { stage = Waiting result }, []) }
    {
        let shared = &self.table.shared;
        let backoff = Backoff::new();
        for _ in rt.forever() {
            let next = shared.peek(0);
            if next < u64::MAX {
                let was = shared.compare_exchange::<Draw>(seat, 0, next, next + 1);
                if was == next {
                    return next;
                }
            }
            backoff.snooze();
        }
        unreachable!()
    }

    // Waits until the ticket is served, and takes the slot.
    fn wait<R: Wait>(&self, rt: &R, seat: &mut Seat<Option<T>, View<T::Entry>>, ticket: u64)
        requires seat { (seat.old.table_id ≡ self.now.table.shared.table_id) × (seat.old.me.1 ≡ []) }
        requires waits { seat.old.me.0.stage ≡ Waiting ticket }
        ensures seat { (seat.new.table_id ≡ seat.old.table_id) × (seat.new.id ≡ seat.old.id) }
        ensures took { Took T.entries T.mark_of T.maker ticket seat.old.me seat.new.me }
    {
        let backoff = Backoff::new();
        for _ in rt.forever() {
            if self.table.shared.load::<Look<T>>(seat, 1) == ticket {
                return;
            }
            backoff.snooze();
        }
        unreachable!()
    }
}
