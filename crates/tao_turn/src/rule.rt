//! The rule that each step keeps.
ghost use Rattle.tao_turn.specs.Rule.{Turn};
ghost use Rattle.tao_turn.specs.Views.{first_view};

use crate::journal::Journal;
use crate::view::View;
use atomic_table::{Table, TableRule};
use std::alloc::Global;
use std::marker::PhantomData;
use std::snapshot::Snapshot;

pub struct Turns<T> {
    marker: PhantomData<T>,
}

/// The number of shares, and the first value.
pub type Key<T> = (u32, Snapshot<T>);

impl<T: Journal> TableRule<Option<T>, View<T::Entry>, Key<T>> for Turns<T> {
    ghost holds = { λ key. Turn T.entries T.mark_of T.maker key.0 };

    ghost first = { λ key. first_view T.mark_of key.0 (T.entries key.1.value) };
}
