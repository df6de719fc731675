//! What is sent over a stream, and why bytes that came are no frame.
use std::error::Error;
use std::fmt;
use tao_base::{Block, Image};

/// What is sent over a stream.
#[derive(Debug, Drop)]
pub enum Message {
    /// The proxy asks the node for the buckets of the path to this leaf.
    Fetch { id: u64, leaf: u32 },
    /// The node's answer to the Fetch of this id: the buckets one after another, the root's first.
    Path { id: u64, image: Image },
    /// The proxy sends the buckets of this version, one after another.
    Store { version: u32, image: Image },
    /// The node has the buckets of this version.
    Stored { version: u32 },
    /// A client asks for a block.
    Get { block: u32 },
    /// A client asks that a block get this value.
    Put { block: u32, value: Block },
    /// The proxy's answer to a client: the value before the operation.
    Value { value: Block },
    /// The proxy's answer to a client whose operation it refused, by the number of the fault.
    Refused { code: u8 },
}

/// Why no message was handed out.
#[derive(Clone, Copy, Debug, PartialEq, Eq)]
pub enum WireFault {
    /// The length field is above the limit.
    Long = 1,
    /// The kind byte isn't 1 to 8.
    Kind = 2,
    /// The length field is 0, or no message of this kind has such a body.
    Body = 3,
    /// Out of memory. It is the one fault that isn't sticky.
    Memory = 4,
}

impl fmt::Display for WireFault {
    ghost use Rattle.std.specs.Prelude.{Some};
    ghost use Rattle.tao_wire.specs.Names.{fault_name};

    ghost output = { λ fault. Some (fault_name fault) };

    fn fmt<W: fmt::Write>(&self, f: &mut fmt::Formatter<W>) -> fmt::Result {
        match self {
            WireFault::Long => write!(f, "Long"),
            WireFault::Kind => write!(f, "Kind"),
            WireFault::Body => write!(f, "Body"),
            WireFault::Memory => write!(f, "Memory"),
        }
    }
}

impl Error for WireFault {}
