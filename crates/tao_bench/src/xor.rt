//! Keystreams of the length of a bucket's slots.

use crate::checksum::checksum_of;
use tao_tape::xor_stream;

/// Xors this many streams of 272 bytes over one another.
pub(crate) fn checksum(count: u32) -> u64 {
    let mut bytes = [0; 272];
    for nonce in 0..count {
        xor_stream(&[0; 32], u64::from(nonce), &mut bytes);
    }
    checksum_of(&bytes)
}
