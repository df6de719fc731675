//! What lies in the queue.

use tao_base::Order;

/// A write-back to be stored, or the Stop that ends a writer.
#[derive(Debug, Drop)]
pub enum Work {
    Order(Order),
    Stop,
}

/// A piece of work with its place among all that were put, counted from 0.
#[derive(Drop)]
pub struct Slip {
    pub number: u64,
    pub work: Work,
}
