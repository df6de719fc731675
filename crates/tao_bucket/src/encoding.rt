//! A bucket as bytes.
ghost use Rattle.std.specs.Prelude.{◌≡◌, ◌<◌, ◌^◌, length};
ghost use Rattle.tao_base.specs.Limits.{bucket_len, slots_len};
ghost use Rattle.tao_base.specs.Buckets.{IsInForm};
ghost use Rattle.tao_bucket.specs.Encoding.{IsWritten, Encodes, body};

use crate::header::header_bytes;
use crate::slots::write_slots;
use crate::tail::{body_len, write_tail};
use tao_base::{Bucket, Params};
use tao_tape::xor_stream;

/// Writes the encoding of a bucket in this format, under the store's key.
#[tactic(auto, unfolding(crate::specs::Encoding::encoded))]
pub fn encode_into(bucket: &Bucket, p: &Params, key: &[u8; 32], format: u8, out: &mut [u8])
    requires form { IsInForm p.now bucket.now }
    requires format { IsWritten p.now.form format }
    requires len { length out.old ≡ bucket_len p.now }
    ensures { Encodes key.now p.now format bucket.now out.new }
{
    let len = body_len(p);
    let (body, tail) = out.split_at_mut(len);
    write_body(bucket, p, key, format, body);
    write_tail(p, key, format, body, tail);
}

// Writes the header and the slots.
fn write_body(bucket: &Bucket, p: &Params, key: &[u8; 32], format: u8, out: &mut [u8])
    requires form { IsInForm p.now bucket.now }
    requires len { length out.old ≡ slots_len p.now.z p.now.b }
    ensures body { out.new ≡ body key.now p.now format bucket.now }
    ensures node { bucket.now.node < 2 ^ 32 }
    ensures version { bucket.now.version < 2 ^ 32 }
    ensures nonce { bucket.now.nonce < 2 ^ 64 }
{
    let (header, slots) = out.split_at_mut(20);
    header.copy_from_slice(&header_bytes(format, bucket.node, bucket.version, bucket.nonce));
    write_slots(p, bucket.entries.as_slice(), slots);
    xor_stream(key, bucket.nonce, slots);
}
