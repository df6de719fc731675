//! The nodes that are resident at the proxy, and for each node of the tree its fetches under way, its touch and its version.
#![tactic(auto)]

mod paths;
mod subtree;
#[cfg(test)]
mod tests;

pub use subtree::Subtree;
