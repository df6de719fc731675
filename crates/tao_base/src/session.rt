//! What the record of a session is made of.
use crate::calls::Op;
use crate::lists::Buckets;
use crate::storage::BucketFault;

/// Why a session ended. A fetch is named by its arrival's number, one of the closing scan by 2^32 plus its leaf; a link by its number.
#[derive(Clone, Copy, Debug, PartialEq, Eq)]
pub enum Cause {
    /// What the server gave for this node is no bucket of it.
    Damaged {
        fetch: u64,
        node: u32,
        fault: BucketFault,
    },
    /// What the server gave for this node has another version than the latest.
    Stale {
        fetch: u64,
        node: u32,
        wanted: u32,
        found: u32,
    },
    /// The link of this number has failed.
    Link {
        link: u32,
    },
}

/// One event of a session.
#[derive(Debug, Drop)]
pub enum Event {
    /// A client has asked; the tape word is the next one.
    Arrive {
        client: u32,
        op: Op,
        word: u32,
    },
    /// The fetched buckets of this arrival were admitted: those of its path's nodes that the proxy didn't hold, root first.
    Done {
        arrival: u64,
        taken: Buckets,
    },
    /// A write-back was issued.
    Issue {
        version: u32,
        nonce: u64,
        buckets: Buckets,
    },
    /// The write-back of this version was acknowledged.
    Acked {
        version: u32,
    },
    /// The session is over.
    Fault {
        cause: Cause,
    },
}
