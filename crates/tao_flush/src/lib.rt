//! Greedy placement: the blocks' positions, the stash, the load of a tree and the eviction along a path.
#![tactic(auto)]

mod eviction;
mod gathering;
mod laws;
mod loading;
mod merging;
mod placing;
mod positions;
mod ranking;
mod rising;
mod stash;
#[cfg(test)]
mod tests;

pub use eviction::flush;
pub use laws::lists_laid_out;
pub use loading::load;
pub use positions::Positions;
pub use stash::Stash;
