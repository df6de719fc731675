//! What a client asks and what it is answered.
use crate::lists::Block;

/// What a client asks of the store. A pad is on no block: it is there so that the server can't tell a quiet client from a busy one.
#[derive(Debug, Drop)]
pub enum Op {
    /// Reads the block of this number.
    Read(u32),
    /// Writes the block of this number; the value has as many bytes as a block.
    Write(u32, Block),
    Pad,
}

/// The answer to the arrival of this number, made by this client: the value before the operation, and no bytes for a pad.
#[derive(Debug, Drop)]
pub struct Reply {
    pub arrival: u64,
    pub client: u32,
    pub value: Block,
}
