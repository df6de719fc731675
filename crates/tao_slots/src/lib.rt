//! The buckets that the proxy holds: nodes of the tree that are linked by index in one vector.
#![tactic(auto)]

mod free;
mod hold;
mod links;
mod loose;
mod slot;
mod slots;
#[cfg(test)]
mod tests;

pub use slot::SlotId;
pub use slots::Slots;
