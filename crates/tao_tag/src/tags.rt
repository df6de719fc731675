//! The tag of a text under a key, and the key for the tags of buckets.
ghost use Rattle.std.specs.Prelude.{◌≡◌, ◌≤◌, length};
ghost use Rattle.tao_tag.specs.Tags.{hmac, padded, tag_key};

use sha2::{Digest, Sha256};

#[tactic(auto, unfolding(crate::specs::Tags::hmac))]
/// The tag of a text: HMAC (RFC 2104) with SHA-256 (FIPS 180-4). The key has at most 64 bytes, which is a block of that hash.
pub fn hmac(key: &[u8], text: &[u8]) -> [u8; 32]
    requires { length key.now ≤ 64 }
    ensures { result ≡ hmac key.now text.now }
{
    let mut inner = Sha256::new();
    inner.update(padded(key, 0x36));
    inner.update(text);
    let mut outer = Sha256::new();
    outer.update(padded(key, 0x5c));
    outer.update(inner.finalize());
    outer.finalize()
}

#[tactic(auto, unfolding(crate::specs::Tags::tag_key))]
/// The key for tagging a store's buckets: the tag of the single byte 01 under the store's key, whose keystreams the buckets are xored with.
pub fn tag_key(key: &[u8; 32]) -> [u8; 32]
    ensures { result ≡ tag_key key.now }
{
    hmac(key, &[1])
}

// The key, padded with zero bytes to a block, each byte xored with `pad`.
fn padded(key: &[u8], pad: u8) -> [u8; 64]
    requires { length key.now ≤ 64 }
    ensures { result ≡ padded key.now pad }
{
    let mut block = [pad; 64];
    for i in 0..key.len() {
        block[i] = key[i] ^ pad;
    }
    block
}
