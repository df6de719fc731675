//! Buckets of four blocks of 64 bytes.
ghost use Rattle.std.specs.Prelude.{◌≤◌, IfOk};
ghost use Rattle.tao_base.specs.Buckets.{IsInForm};

use crate::checksum::checksum_of;
use std::alloc::Global;
use tao_base::{Block, Bucket, Entries, Entry, NoMemory, Params};
use tao_bucket::{Room, decode, encode_into};

/// Encodes and decodes a full bucket under this many nonces, in format 1.
pub(crate) fn checksum(alloc: Global, count: u32) -> Result<u64, anyhow::Error> {
    let p = Params::new(4, 4, 64, 64, 1)?;
    let mut bucket = full_bucket(alloc, &p)?;
    let mut room = Room::new(alloc, &p)?;
    let mut bytes = [0; 292];
    let mut taken = 0;
    for nonce in 0..count {
        bucket.nonce = u64::from(nonce);
        encode_into(&bucket, &p, &[0; 32], 1, &mut bytes);
        if decode(&p, &[0; 32], 1, 1, &bytes, &mut room).is_ok() {
            taken += 1;
        }
    }
    Ok(checksum_of(&bytes).wrapping_add(taken))
}

// A bucket of the root with its first blocks, as many as it may have.
fn full_bucket(alloc: Global, p: &Params) -> Result<Bucket, NoMemory>
    requires { p.now.z ≤ p.now.n }
    ensures { IfOk result (IsInForm p.now) }
{
    let mut entries = Entries::new(alloc)?;
    for id in 0..p.z() {
        let value = Block::from_vec(vec![in alloc; id as u8; p.b() as usize]?);
        entries.push(Entry { id, value })?;
    }
    Ok(Bucket {
        node: 1,
        version: 0,
        nonce: 0,
        entries,
    })
}
