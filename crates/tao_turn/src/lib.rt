//! A lock whose turns extend one history, and a mark of that history that is read without a turn.
#![tactic(auto)]

mod journal;
mod laws;
mod lending;
mod lock;
mod pass;
mod passes;
mod plays;
mod rule;
#[cfg(test)]
mod tests;
mod turns;
mod view;

pub use journal::Journal;
pub use laws::{merging_rises, stays_in_order};
pub use lock::{LeftOut, TurnLock};
pub use pass::{Held, TurnPass};
pub use view::{Knowledge, Stage, View};
