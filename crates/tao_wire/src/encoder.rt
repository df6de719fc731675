//! Frames that are written.
ghost use Rattle.std.specs.Prelude.{◌≡◌, ℕ, ◌+◌, ◌^◌, ◌≤◌, [], ◌∷◌, ◌++◌, length, take, OnOk, OnErr};
ghost use Rattle.std.specs.Int.{w32, to_be_bytes};
ghost use Rattle.tao_wire.specs.Frames.{content, frame};

use crate::message::Message;
use tao_base::{Image, NoMemory};

/// Appends the frame of a message: the length of kind byte and body as a big-endian u32, the kind byte, and the body.
pub fn encode(message: &Message, out: &mut Image) -> Result<(), NoMemory>
    requires { length (content message.now) ≤ 2 ^ 25 }
    ensures ok { OnOk result (out.new ≡ out.old ++ frame message.now) }
    ensures err { OnErr result (out.new ≡ out.old) }
{
    match message {
        Message::Fetch { id, leaf } => put(out, 1, &id.to_be_bytes(), &leaf.to_be_bytes()),
        Message::Path { id, image } => put(out, 2, &id.to_be_bytes(), image.as_slice()),
        Message::Store { version, image } => put(out, 3, &version.to_be_bytes(), image.as_slice()),
        Message::Stored { version } => put(out, 4, &version.to_be_bytes(), &[]),
        Message::Get { block } => put(out, 5, &block.to_be_bytes(), &[]),
        Message::Put { block, value } => put(out, 6, &block.to_be_bytes(), value.as_slice()),
        Message::Value { value } => put(out, 7, &[], value.as_slice()),
        Message::Refused { code } => put(out, 8, &[], &[*code]),
    }
}

// Appends a frame of this kind, whose body is these two parts.
fn put(out: &mut Image, kind: u8, first: &[u8], rest: &[u8]) -> Result<(), NoMemory>
    requires { 1 + length first.now + length rest.now ≤ 2 ^ 25 }
    ensures ok { OnOk result (out.new ≡ out.old ++ (to_be_bytes w32 (1 + length first.now + length rest.now) ++ kind ∷ (first.now ++ rest.now))) }
    ensures err { OnErr result (out.new ≡ out.old) }
{
    let before = out.as_slice().len();
    let len = (1 + first.len() + rest.len()) as u32;
    let done = append(out, &len.to_be_bytes(), &[kind], first, rest);
    if done.is_err() {
        out.truncate(before);
    }
    done
}

// Appends the four parts, or only a prefix of them when out of memory.
fn append(
    out: &mut Image,
    len: &[u8],
    kind: &[u8],
    first: &[u8],
    rest: &[u8],
) -> Result<(), NoMemory>
    ensures ok { OnOk result (out.new ≡ out.old ++ (len.now ++ (kind.now ++ (first.now ++ rest.now)))) }
    ensures kept { take (length out.old) out.new ≡ out.old }
{
    out.extend_from_slice(len)?;
    out.extend_from_slice(kind)?;
    out.extend_from_slice(first)?;
    out.extend_from_slice(rest)
}
