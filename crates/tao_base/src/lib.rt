//! What all crates of the store speak of: parameters, tree paths, plain types, and the traits of the outside.
#![tactic(auto)]

mod calls;
mod doors;
mod failures;
mod gates;
mod links;
mod lists;
mod parameters;
mod paths;
mod session;
mod sinks;
mod sources;
mod storage;
#[cfg(test)]
mod tests;
mod transfers;

pub use calls::{Op, Reply};
pub use doors::{DoorFault, Doors, Duplex};
pub use failures::{Failed, NoMemory};
pub use gates::{Gate, HoldGate, OpenGate};
pub use links::{Asked, Link};
pub use lists::{Block, Blocks, Buckets, Image, Items, Numbers, Ops};
pub use parameters::{Form, ParamFault, Params};
pub use paths::{on_path, path_node};
pub use session::{Cause, Event};
pub use sinks::{ByteSink, Sink};
pub use sources::{ByteSource, Source};
pub use storage::{Bucket, BucketFault, Entries, Entry, Order};
pub use transfers::{append_within, are_same, fill, insert_within, is_listed, write_all};
