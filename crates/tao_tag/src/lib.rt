//! Keyed tags: HMAC (RFC 2104) with SHA-256.
#![tactic(auto)]

mod tags;
#[cfg(test)]
mod tests;

pub use tags::{hmac, tag_key};
