//! The tree that the server keeps, and the links that lead to it.
#![tactic(auto)]

mod answers;
mod forgeries;
mod laws;
mod ledger;
mod mem_doors;
mod mem_link;
mod paths;
mod planted;
mod rack;
mod shared;
mod stream_link;
#[cfg(test)]
mod tests;
mod tree;
mod tree_link;

pub use forgeries::Forgery;
pub use laws::{newest_stays, reach_fits, stream_fits};
pub use mem_doors::{FailTable, MemDoors};
pub use mem_link::MemLink;
pub use paths::read_path;
pub use planted::Shaped;
pub use rack::Streams;
pub use shared::SharedTree;
pub use stream_link::StreamLink;
pub use tree::Tree;
pub use tree_link::TreeLink;
