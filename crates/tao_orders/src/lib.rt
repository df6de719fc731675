//! A FIFO queue of write-backs and of Stops, which end their writers: one pass puts, and any number of passes take.
#![tactic(auto)]

mod finish;
mod hand;
mod laws;
mod orders;
mod passes;
mod plays;
#[cfg(test)]
mod tests;
mod work;

pub use finish::Left;
pub use laws::joined_is_whole;
pub use orders::Orders;
pub use passes::{PutPass, TakePass};
pub use work::Work;
