//! Bytes xored with a keystream.
ghost use Rattle.std.specs.Prelude.{◌≡◌, ℕ, ◌+◌, ◌≤◌, ◌<◌, List, length, slice_index, bit_xor};
ghost use Rattle.tao_tape.specs.Keystream.{xored};

use rand_chacha::ChaCha20Rng;
use rand_core::SeedableRng;
use rand_core::utils::NextWord;

/// Xors each byte with the byte of stream `nonce` at the same place. A stream is the keystream of ChaCha20 (RFC 8439) from block 0 on, with
/// 64 bits each for the block counter and the nonce; its words are little-endian.
pub fn xor_stream(key: &[u8; 32], nonce: u64, bytes: &mut [u8])
    ensures { bytes.new ≡ xored key.now nonce bytes.old }
{
    let mut stream = ChaCha20Rng::from_seed(*key);
    stream.set_stream(nonce);
    let words = bytes.len() / 4;
    for i in 0..words {
        xor_word(stream.next_word().to_le_bytes(), 4 * i, bytes);
    }
    if 4 * words < bytes.len() {
        xor_last(stream.next_word().to_le_bytes(), 4 * words, bytes);
    }
}

// Xors the four bytes from `at` on.
#[inline(always)]
fn xor_word(word: [u8; 4], at: usize, bytes: &mut [u8])
    requires { at + 4 ≤ length bytes.old }
    ensures within { (c : ℕ) → c < 4 → slice_index bytes.new (at + c) ≡ bit_xor (slice_index bytes.old (at + c)) (slice_index word c) }
    ensures below { (t : ℕ) → t < at → slice_index bytes.new t ≡ slice_index bytes.old t }
    ensures above { (t : ℕ) → at + 4 ≤ t → slice_index bytes.new t ≡ slice_index bytes.old t }
{
    bytes[at] ^= word[0];
    bytes[at + 1] ^= word[1];
    bytes[at + 2] ^= word[2];
    bytes[at + 3] ^= word[3];
}

// Xors the last bytes, from `at` on, which are fewer than a word.
fn xor_last(word: [u8; 4], at: usize, bytes: &mut [u8])
    requires from { at ≤ length bytes.old }
    requires few { length bytes.old ≤ at + 4 }
    ensures within { (c : ℕ) → at + c < length bytes.old → slice_index bytes.new (at + c) ≡ bit_xor (slice_index bytes.old (at + c)) (slice_index word c) }
    ensures below { (t : ℕ) → t < at → slice_index bytes.new t ≡ slice_index bytes.old t }
{
    for c in 0..bytes.len() - at {
        bytes[at + c] ^= word[c];
    }
}

/// Xoring twice with the same stream gives the bytes back.
pub fn xor_stream_undoes_itself()
    ensures { (key : List ℕ) (nonce : ℕ) (bytes : List ℕ) → xored key nonce (xored key nonce bytes) ≡ bytes }
{}
