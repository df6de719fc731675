//! What the proxy holds: the resident nodes, the stash and the positions, and what a fetch makes of them.
#![tactic(auto)]

mod evicting;
mod holdings;
mod laws;
mod looks;
mod swaps;
mod takings;
#[cfg(test)]
mod tests;
mod versions;

pub use holdings::Holdings;
pub use laws::exchanged_back;
