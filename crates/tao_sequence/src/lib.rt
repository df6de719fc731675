//! The order of release: answers go out in the order of arrival, so an arrival's answer waits until every earlier one is done.
#![tactic(auto)]

mod sequence;
#[cfg(test)]
mod tests;

pub use sequence::Sequence;
