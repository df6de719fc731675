//! The proxy's state machine, one event a call: all its tables are functions of the record.
#![tactic(auto)]

mod fetches;
mod finishing;
mod forgetting;
mod looking;
mod opening;
mod processor;
mod rooms;
mod tags;
mod topping;
mod writing;

pub use processor::Processor;
