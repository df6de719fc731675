//! One request, as contracts see it.
use tao_base::{Block, Op};

/// Whether an arrival's fetch is for its block or only looks like one.
#[derive(Clone, Copy, Debug, PartialEq, Eq)]
pub enum Kind {
    Real,
    Fake,
}

/// An operation and, once it is settled, its answer: the value before the operation, or no bytes for a pad.
#[derive(Debug, Drop)]
pub struct Request {
    pub op: Op,
    pub kind: Kind,
    pub answer: Option<Block>,
}
