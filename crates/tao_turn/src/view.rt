//! What a pass knows, and the stages of a turn. These types are for the proofs alone.

use std::collections::LinkedList;

/// What contracts see of a pass: how many turns of the lock it knows to have ended, the list that it has seen, the positions that were
/// added in its turns, the mark that it last glanced, and its shares.
pub struct Knowledge<E> {
    pub ended: u64,
    pub seen: LinkedList<E>,
    pub added: LinkedList<u64>,
    pub told: u64,
    pub shares: LinkedList<u32>,
}

/// At what stage of a turn a seat is.
pub enum Stage<E> {
    Idle,
    /// With this ticket.
    Waiting(u64),
    /// With this ticket, and the list that was found.
    Holding(u64, LinkedList<E>),
    /// The value is given back, and its mark isn't published yet.
    Unpublished,
    /// It was joined away.
    Spent,
}

/// The view of a seat.
pub struct View<E> {
    pub stage: Stage<E>,
    pub known: Knowledge<E>,
    /// The last mark that it published.
    pub published: u64,
    /// Of a join that was just made: what the two knew.
    pub joined: Option<(Knowledge<E>, Knowledge<E>)>,
}
