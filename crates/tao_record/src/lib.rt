//! The record of a session: an append-only list of events, which is preallocated.
#![tactic(auto)]

mod copies;
mod record;
mod rooms;
#[cfg(test)]
mod tests;

pub use record::Record;
