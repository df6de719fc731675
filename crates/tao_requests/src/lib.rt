//! The requests of clients and their answers: which arrival fetches for its block, and the answers in the order of arrival.
#![tactic(auto)]

mod laws;
mod queues;
mod request;
mod requests;
mod rooms;
mod settling;
#[cfg(test)]
mod tests;

pub use laws::{
    answers_are_plain, follows_arrive, follows_fake, follows_further, follows_none, follows_real,
    kind_is_real, value_is_plain,
};
pub use request::{Kind, Request};
pub use requests::Requests;
