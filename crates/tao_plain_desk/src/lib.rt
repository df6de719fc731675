//! The proxy's state machine, for whole operations: each is fetched, written back and acknowledged before the next one comes.
#![tactic(auto)]

mod desk;
mod faults;
mod paths;
#[cfg(test)]
mod tests;
mod values;

pub use desk::Desk;
pub use faults::ArriveFault;
