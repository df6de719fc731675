//! The tokens of a turn lock: a pass, with which a thread takes turns, and a turn.
ghost use Rattle.std.specs.Prelude.{◌≡◌, false, []};
ghost use Rattle.tao_turn.specs.Histories.{newcomer};

use crate::journal::Journal;
use crate::view::View;
use atomic_table::{Badge, Seat};

/// The right to take turns under its shares. It has no bytes.
#[derive(Drop)]
pub struct TurnPass<E> {
    pub(crate) badge: Badge<View<E>>,
}

/// A turn: the value is out of the lock until `leave`. If it is dropped or forgotten, the lock never serves another ticket.
#[derive(Drop)]
pub struct Held<T: Journal> {
    pub(crate) value: T,
    pub(crate) seat: Seat<Option<T>, View<T::Entry>>,
}

impl<E> TurnPass<E> {
    ghost use Rattle.tao_turn.specs.Passes.{is_idle, known};

    /// A pass of no lock, to stand in for one that is taken out from behind a `&mut`.
    pub fn blank() -> TurnPass<E>
        ensures no_pass { is_idle result ≡ false }
        ensures known { known result ≡ newcomer [] [] }
    {
        TurnPass {
            badge: Badge::blank(),
        }
    }
}
