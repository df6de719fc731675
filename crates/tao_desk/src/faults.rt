//! Why calls of a desk are refused.
use std::error::Error;
use std::fmt;
use tao_base::BucketFault;

/// Why a session can't begin. The first cause that applies.
#[derive(Clone, Copy, Debug, PartialEq, Eq)]
pub enum StartFault {
    /// There isn't one first value for each block.
    BlockCount = 1,
    /// A value doesn't have as many bytes as a block.
    BlockLength = 2,
    /// Memory ran out.
    Memory = 3,
}

/// Why an operation is refused. The first cause that applies; a refusal changes nothing.
#[derive(Clone, Copy, Debug, PartialEq, Eq)]
pub enum ArriveFault {
    /// A fault has ended the session.
    Down = 1,
    /// The session has as many arrivals as it may have, or the tape has no more words.
    SessionFull = 2,
    /// There is no block of that number.
    NoBlock = 3,
    /// The value doesn't have as many bytes as a block.
    BlockLength = 4,
    /// Memory ran out.
    Memory = 5,
}

/// Why the answer to a fetch is refused. The first cause that applies; one of bytes ends the session.
#[derive(Clone, Copy, Debug, PartialEq, Eq)]
pub enum DoneFault {
    /// A fault has ended the session.
    Down,
    /// No such fetch is under way.
    Stranger,
    /// The bytes of this node are no bucket of it, or its tag isn't that of the latest write.
    Damaged { node: u32, fault: BucketFault },
    /// The bucket of this node has another version than the latest write.
    Stale { node: u32, wanted: u32, found: u32 },
}

/// Why an acknowledgement is refused. A refusal changes nothing.
#[derive(Clone, Copy, Debug, PartialEq, Eq)]
pub enum AckFault {
    /// A fault has ended the session.
    Down = 1,
    /// No write-back of this version is outstanding.
    Stranger = 2,
}

/// Why an order isn't made again.
#[derive(Clone, Copy, Debug, PartialEq, Eq)]
pub enum AgainFault {
    /// No write-back of this version is outstanding.
    Stranger = 1,
    /// Memory ran out.
    Memory = 2,
}

/// Why the closing scan can't begin. The first cause that applies.
#[derive(Clone, Copy, Debug, PartialEq, Eq)]
pub enum ScanFault {
    /// A fault has ended the session.
    Down,
    /// So many fetches are under way, or so many write-backs are outstanding.
    Busy { undone: u64, outstanding: u32 },
    /// Memory ran out.
    Memory,
}

impl fmt::Display for StartFault {
    fn fmt<W: fmt::Write>(&self, f: &mut fmt::Formatter<W>) -> fmt::Result {
        match self {
            StartFault::BlockCount => write!(f, "there isn't one value for each block"),
            StartFault::BlockLength => write!(f, "a value is not of a block's length"),
            StartFault::Memory => write!(f, "out of memory"),
        }
    }
}

impl fmt::Display for ArriveFault {
    fn fmt<W: fmt::Write>(&self, f: &mut fmt::Formatter<W>) -> fmt::Result {
        match self {
            ArriveFault::Down => write!(f, "the session has ended"),
            ArriveFault::SessionFull => write!(f, "the session is full"),
            ArriveFault::NoBlock => write!(f, "there is no such block"),
            ArriveFault::BlockLength => write!(f, "the value is not of a block's length"),
            ArriveFault::Memory => write!(f, "out of memory"),
        }
    }
}

impl fmt::Display for DoneFault {
    fn fmt<W: fmt::Write>(&self, f: &mut fmt::Formatter<W>) -> fmt::Result {
        match self {
            DoneFault::Down => write!(f, "the session has ended"),
            DoneFault::Stranger => write!(f, "no such fetch is under way"),
            DoneFault::Damaged { node, fault } => write!(f, "node {}: {}", node, fault),
            DoneFault::Stale {
                node,
                wanted,
                found,
            } => write!(f, "node {}: version {} instead of {}", node, found, wanted),
        }
    }
}

impl fmt::Display for AckFault {
    fn fmt<W: fmt::Write>(&self, f: &mut fmt::Formatter<W>) -> fmt::Result {
        match self {
            AckFault::Down => write!(f, "the session has ended"),
            AckFault::Stranger => write!(f, "no such write-back is outstanding"),
        }
    }
}

impl fmt::Display for AgainFault {
    fn fmt<W: fmt::Write>(&self, f: &mut fmt::Formatter<W>) -> fmt::Result {
        match self {
            AgainFault::Stranger => write!(f, "no such write-back is outstanding"),
            AgainFault::Memory => write!(f, "out of memory"),
        }
    }
}

impl fmt::Display for ScanFault {
    fn fmt<W: fmt::Write>(&self, f: &mut fmt::Formatter<W>) -> fmt::Result {
        match self {
            ScanFault::Down => write!(f, "the session has ended"),
            ScanFault::Busy {
                undone,
                outstanding,
            } => write!(
                f,
                "{} fetches are under way and {} write-backs are outstanding",
                undone, outstanding
            ),
            ScanFault::Memory => write!(f, "out of memory"),
        }
    }
}

impl Error for StartFault {}

impl Error for ArriveFault {}

impl Error for DoneFault {}

impl Error for AckFault {}

impl Error for AgainFault {}

impl Error for ScanFault {}
