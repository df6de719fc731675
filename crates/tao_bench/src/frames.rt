//! A long frame that comes byte by byte.

use crate::checksum::checksum_of;
use anyhow::ensure;
use std::alloc::Global;
use tao_base::{Block, Image};
use tao_wire::{Decoder, Message, encode};

const LIMIT: u32 = 1 << 25;

/// Feeds the frame of a value of this many bytes singly, and asks for a message after each.
pub(crate) fn checksum(alloc: Global, count: u32) -> Result<u64, anyhow::Error> {
    ensure!(count < LIMIT, "a value has at most 2^25 - 1 bytes");
    // A length field that promises a frame at the limit, and nothing after it.
    let mut waiting = Decoder::new(alloc, LIMIT)?;
    waiting.feed(&LIMIT.to_be_bytes())?;
    let value = Block::from_vec(vec![in alloc; 7; count as usize]?);
    let mut frame = Image::new(alloc);
    encode(&Message::Value { value }, &mut frame)?;
    let mut decoder = Decoder::new(alloc, LIMIT)?;
    let mut sum = 0;
    for byte in frame.as_slice() {
        decoder.feed(&[*byte])?;
        if let Some(Message::Value { value }) = decoder.next_message()? {
            sum = checksum_of(value.as_slice());
        }
    }
    Ok(sum)
}
