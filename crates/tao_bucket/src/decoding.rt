//! Bytes as a bucket.
ghost use Rattle.std.specs.Prelude.{◌≡◌, Ok, Some, None, OnOk, OnErr, IsSomeAnd, length};
ghost use Rattle.std.specs.Result.{result_err};
ghost use Rattle.tao_base.specs.Limits.{IsShape, bucket_len};
ghost use Rattle.tao_base.specs.declared.storage.Bucket.{Bucket};
ghost use Rattle.tao_bucket.specs.Encoding.{IsWritten, Encodes};
ghost use Rattle.tao_bucket.specs.Reading.{bucket_fault, read_bucket};
ghost use Rattle.tao_bucket.specs.Rooms.{holding, emptied};

use crate::header::check_header;
use crate::room::Room;
use crate::tail::check_tail;
use tao_base::{BucketFault, Params};

/// Puts the bucket of node `want` that these bytes encode into the room, or answers the first fault and leaves the room empty. Any
/// version and any nonce is accepted.
pub fn decode(
    p: &Params,
    key: &[u8; 32],
    want: u32,
    format: u8,
    bytes: &[u8],
    room: &mut Room,
) -> Result<(), BucketFault>
    requires format { IsWritten p.now.form format }
    requires z { room.old.z ≡ p.now.z }
    requires b { room.old.b ≡ p.now.b }
    ensures value { OnOk result (room.new.held ≡ Some (read_bucket key.now p.now bytes.now)) }
    // What the room holds is what these bytes encode.
    ensures found { OnOk result (IsSomeAnd room.new.held (λ bucket. (bucket.node ≡ want) × Encodes key.now p.now format bucket bytes.now)) }
    // What these bytes encode is what the room holds.
    ensures only { (bucket : Bucket) → bucket.node ≡ want → Encodes key.now p.now format bucket bytes.now
        → (result ≡ Ok tt) × (room.new.held ≡ Some bucket) }
    ensures fault { result_err result ≡ bucket_fault key.now p.now want format bytes.now }
    ensures len { OnOk result (length bytes.now ≡ bucket_len p.now) }
    ensures empty { OnErr result (room.new.held ≡ None) }
    ensures kept { room.new ≡ record room.old { held = room.new.held } }
{
    read_into(p, key, want, format, bytes, room)
}

#[tactic(auto, unfolding(crate::specs::Reading::bucket_fault))]
fn read_into(
    p: &Params,
    key: &[u8; 32],
    want: u32,
    format: u8,
    bytes: &[u8],
    room: &mut Room,
) -> Result<(), BucketFault>
    requires z { room.old.z ≡ p.now.z }
    requires b { room.old.b ≡ p.now.b }
    ensures fault { result_err result ≡ bucket_fault key.now p.now want format bytes.now }
    ensures ok { OnOk result (room.new ≡ holding room.old (read_bucket key.now p.now bytes.now)) }
    ensures err { OnErr result (room.new ≡ emptied room.old) }
    ensures len { OnOk result (length bytes.now ≡ bucket_len p.now) }
    ensures shape { IsShape p.now }
{
    room.empty();
    check_header(p, want, format, bytes)?;
    check_tail(p, key, format, bytes)?;
    room.take_in(p, key, bytes)
}
