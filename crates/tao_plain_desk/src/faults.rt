//! Why an operation is refused.
use std::error::Error;
use std::fmt;

/// The first cause that applies. A refusal changes nothing.
#[derive(Clone, Copy, Debug, PartialEq, Eq)]
pub enum ArriveFault {
    /// The session has as many arrivals as it may have.
    SessionFull = 2,
    /// There is no block of that number.
    NoBlock = 3,
    /// The value doesn't have as many bytes as a block.
    BlockLength = 4,
    /// Memory ran out.
    Memory = 5,
}

impl fmt::Display for ArriveFault {
    fn fmt<W: fmt::Write>(&self, f: &mut fmt::Formatter<W>) -> fmt::Result {
        match self {
            ArriveFault::SessionFull => write!(f, "the session is full"),
            ArriveFault::NoBlock => write!(f, "there is no such block"),
            ArriveFault::BlockLength => write!(f, "the value is not of a block's length"),
            ArriveFault::Memory => write!(f, "out of memory"),
        }
    }
}

impl Error for ArriveFault {}
