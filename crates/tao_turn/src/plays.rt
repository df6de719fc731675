//! What each step tells. These types are for the proofs alone.
ghost use Rattle.std.specs.Prelude.{ℕ};
ghost use Rattle.tao_turn.specs.Steps.{Drew, Looked, Left, Published, Glanced, Recalled};
ghost use Rattle.tao_turn.specs.Views.{view_without, view_only, joined_view, spent_view};

use crate::journal::Journal;
use crate::view::View;
use atomic_table::{Join, Play, Split};
use std::marker::{Brand, PhantomData};

/// A ticket is drawn.
pub struct Draw;

impl<T, E> Play<Option<T>, View<E>> for Draw {
    ghost then = { Drew };
}

/// The served ticket is read, and the value is taken if the ticket is one's own.
pub struct Look<T> {
    marker: PhantomData<T>,
}

impl<T: Journal> Play<Option<T>, View<T::Entry>> for Look<T> {
    ghost then = { Looked T.entries T.mark_of T.maker };
}

/// The next ticket is served, and the value given back.
pub struct Advance<T> {
    marker: PhantomData<T>,
}

impl<T: Journal> Play<Option<T>, View<T::Entry>> for Advance<T> {
    ghost then = { Left T.entries };
}

/// The mark is raised to that of what was seen.
pub struct Publish;

impl<T, E> Play<Option<T>, View<E>> for Publish {
    ghost then = { Published };
}

/// The mark is read.
pub struct Glance<T> {
    marker: PhantomData<T>,
}

impl<T: Journal> Play<Option<T>, View<T::Entry>> for Glance<T> {
    ghost then = { Glanced T.mark_of };
}

/// What the rule says of two views that were joined.
pub struct Recall<T> {
    marker: PhantomData<T>,
}

impl<T: Journal> Play<Option<T>, View<T::Entry>> for Recall<T> {
    ghost then = { Recalled T.maker };
}

/// The share that a split moves. Each call picks it.
pub trait Share {
    ghost number: { ℕ };
}

impl Share for Brand {
    ghost number = { 0 };
}

/// One share goes to a seat of its own.
pub struct Cut<N> {
    marker: PhantomData<N>,
}

impl<E, N: Share> Split<View<E>> for Cut<N> {
    ghost left = { view_without N.number };

    ghost right = { view_only N.number };
}

/// Two seats become one.
pub struct Merge;

impl<E> Join<View<E>> for Merge {
    ghost both = { joined_view };

    ghost spent = { spent_view };
}
