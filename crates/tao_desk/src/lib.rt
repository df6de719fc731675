//! The desk: operations arrive, their paths are fetched, full periods are written back; each call has its whole promise in its contract.
#![tactic(auto)]

mod ask;
mod desk;
mod faults;
mod seeing;

pub use ask::Ask;
pub use desk::Desk;
pub use desk::scan::Scan;
pub use faults::{AckFault, AgainFault, ArriveFault, DoneFault, ScanFault, StartFault};

#[cfg(test)]
mod tests;
