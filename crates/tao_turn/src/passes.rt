//! What passes do outside of turns: split off and join shares, and read the mark.
ghost use Rattle.std.specs.Prelude.{◌≡◌, ◌≤◌, [], true, false, None};
ghost use Rattle.tao_turn.specs.Histories.{without, only, joined, AreOfOne};
ghost use Rattle.tao_turn.specs.Lists.{has, removed, is_empty};
ghost use Rattle.tao_turn.specs.Views.{joined_view};
ghost use Rattle.tao_turn.specs.declared.view.Stage.TheVariants.{Idle};

use crate::journal::Journal;
use crate::lock::TurnLock;
use crate::pass::TurnPass;
use crate::plays::{Cut, Glance, Merge, Recall, Share};
use crate::view::View;
use atomic_table::{Badge, Seat};
use std::marker::Brand;
use std::mem;

impl<T: Journal> TurnLock<T> {
    ghost use Rattle.tao_turn.specs.Passes.{IsPassOf, known};

    /// The mark of some list that the lock had: no less than that of what the pass has seen, and no more than that of any list that it
    /// finds later.
    pub fn glance(&self, pass: &mut TurnPass<T::Entry>) -> u64
        requires pass { IsPassOf self.now pass.old }
        ensures pass { IsPassOf self.now pass.new }
        ensures told { known pass.new ≡ record (known pass.old) { told = result } }
        ensures seen { T.mark_of (known pass.old).seen ≤ result }
        ensures rises { (known pass.old).told ≤ result }
    {
        let badge = mem::replace(&mut pass.badge, Badge::blank());
        let mut seat = badge.into_seat::<Option<T>>();
        let mark = self.table.shared.load::<Glance<T>>(&mut seat, 2);
        pass.badge = seat.into_badge();
        mark
    }

    /// Moves a share to a pass of its own. At least one other has to stay.
    pub fn split(&self, pass: &mut TurnPass<T::Entry>, share: u32) -> TurnPass<T::Entry>
        requires pass { IsPassOf self.now pass.old }
        requires share { has share (known pass.old).shares ≡ true }
        requires another { is_empty (removed share (known pass.old).shares) ≡ false }
        ensures passes { IsPassOf self.now pass.new × IsPassOf self.now result }
        ensures old { known pass.new ≡ without share (known pass.old) }
        ensures new { known result ≡ only share (known pass.old) }
    {
        self.split_at::<Brand>(pass, share)
    }

    fn split_at<N: Share>(&self, pass: &mut TurnPass<T::Entry>, share: u32) -> TurnPass<T::Entry>
        requires pass { IsPassOf self.now pass.old }
        requires number { share ≡ N.number }
        requires share { has share (known pass.old).shares ≡ true }
        requires another { is_empty (removed share (known pass.old).shares) ≡ false }
        ensures passes { IsPassOf self.now pass.new × IsPassOf self.now result }
        ensures old { known pass.new ≡ without share (known pass.old) }
        ensures new { known result ≡ only share (known pass.old) }
    {
        let badge = mem::replace(&mut pass.badge, Badge::blank());
        let mut seat = badge.into_seat::<Option<T>>();
        let other = self.table.shared.split_seat::<Cut<N>>(&mut seat);
        pass.badge = seat.into_badge();
        TurnPass {
            badge: other.into_badge(),
        }
    }

    /// Joins the other pass to this one.
    pub fn join(&self, pass: &mut TurnPass<T::Entry>, other: TurnPass<T::Entry>)
        requires passes { IsPassOf self.now pass.old × IsPassOf self.now other }
        ensures pass { IsPassOf self.now pass.new }
        ensures known { known pass.new ≡ joined (known pass.old) (known other) }
        ensures one { AreOfOne T.maker (known pass.old) (known other) }
    {
        let badge = mem::replace(&mut pass.badge, Badge::blank());
        let mut seat = badge.into_seat::<Option<T>>();
        let TurnPass { badge } = other;
        self.merge(&mut seat, badge.into_seat::<Option<T>>());
        pass.badge = seat.into_badge();
    }

    // Joins the other seat to this one, and asks the rule about the two.
    fn merge(
        &self,
        seat: &mut Seat<Option<T>, View<T::Entry>>,
        other: Seat<Option<T>, View<T::Entry>>,
    )
        requires tables { (seat.old.table_id ≡ self.now.table.shared.table_id) × (other.table_id ≡ self.now.table.shared.table_id) }
        requires idle { (seat.old.me.0.stage ≡ Idle) × (other.me.0.stage ≡ Idle) }
        requires slots { (seat.old.me.1 ≡ []) × (other.me.1 ≡ []) }
        ensures seat { (seat.new.table_id ≡ seat.old.table_id) × (seat.new.id ≡ seat.old.id) }
        ensures joined { seat.new.me ≡ (record (joined_view seat.old.me.0 other.me.0) { joined = None }, []) }
        ensures one { AreOfOne T.maker seat.old.me.0.known other.me.0.known }
    {
        self.table.shared.join_seat::<Merge>(seat, other);
        self.table.shared.load::<Recall<T>>(seat, 0);
    }
}
