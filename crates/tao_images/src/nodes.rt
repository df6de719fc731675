//! The bytes of one node, read against its latest write.
ghost use Rattle.std.specs.Prelude.{◌≡◌, ◌==◌, ◌&&◌, not, length, drop, Some, None, OnOk, OnErr, IsSomeAnd};
ghost use Rattle.std.specs.Result.{result_err};
ghost use Rattle.tao_base.specs.Limits.{bucket_len, slots_len};
ghost use Rattle.tao_base.specs.Transfers.{same};
ghost use Rattle.tao_bucket.specs.Reading.{read_bucket};
ghost use Rattle.tao_images.specs.Nodes.{node_refusal, Holds};

use tao_base::{BucketFault, Params, are_same};
use tao_bucket::{Room, decode, format_of, tail_of, version_of};

/// Why the bytes of a node are refused.
#[derive(Clone, Copy, Debug, PartialEq, Eq)]
pub enum Refused {
    /// They are no bucket of the node, or its tag isn't that of the latest write.
    Damaged { node: u32, fault: BucketFault },
    /// The bucket has another version than the latest write.
    Stale { node: u32, wanted: u32, found: u32 },
}

/// Reads the bucket of a node into the room, where its latest write had this version and this tag. In format 1 any tag will do.
#[tactic(auto, unfolding(crate::specs::Nodes::node_refusal))]
pub fn read_node(
    p: &Params,
    key: &[u8; 32],
    node: u32,
    version: u32,
    tag: &[u8; 32],
    bytes: &[u8],
    room: &mut Room,
) -> Result<(), Refused>
    requires z { room.old.z ≡ p.now.z }
    requires b { room.old.b ≡ p.now.b }
    ensures fault { result_err result ≡ node_refusal key.now p.now version tag.now node bytes.now }
    ensures value { OnOk result (room.new.held ≡ Some (read_bucket key.now p.now bytes.now)) }
    ensures found { OnOk result (IsSomeAnd room.new.held (Holds key.now p.now version tag.now node bytes.now)) }
    ensures empty { OnErr result (room.new.held ≡ None) }
    ensures kept { room.new ≡ record room.old { held = room.new.held } }
{
    let format = format_of(p, version);
    match decode(p, key, node, format, bytes, room) {
        Ok(()) => {}
        Err(fault) => return Err(Refused::Damaged { node, fault }),
    }
    let found = version_of(bytes);
    if found != version {
        room.empty();
        return Err(Refused::Stale {
            node,
            wanted: version,
            found,
        });
    }
    if has_other_tag(p, format, bytes, tag) {
        room.empty();
        return Err(Refused::Damaged {
            node,
            fault: BucketFault::Tag,
        });
    }
    Ok(())
}

// Whether the bucket has a tag, and another one than this.
fn has_other_tag(p: &Params, format: u8, bytes: &[u8], tag: &[u8; 32]) -> bool
    requires { length bytes.now ≡ bucket_len p.now }
    ensures { result ≡ (format == 2 && not (same (drop (slots_len p.now.z p.now.b) bytes.now) tag.now)) }
{
    format == 2 && !are_same(tail_of(p, bytes), tag)
}
