//! Parses words as numbers and bytes.
ghost use Rattle.std.specs.Prelude.{◌≡◌, ◌↔◌, ◌^◌, IsOk, IsTrue};
ghost use Rattle.std.specs.Char.{is_ascii_hexdigit};
ghost use Rattle.std.specs.List.{list_all};
ghost use Rattle.tao_text.specs.Values.{Gives, hex_of, number_below, number_of};

use crate::faults::TextKind;
use hex::FromHexError;
use std::alloc::Global;
use tao_base::Block;

#[tactic(auto, using(crate::proofs::Numbers::number_small, crate::proofs::Numbers::number_large, crate::proofs::Numbers::number_none))]
/// Parses a Number, which is below 2^32.
pub fn number_of(word: &[u8]) -> Result<u32, TextKind>
    ensures { result ≡ number_of word.now }
{
    match wide_number(word) {
        Some(number) => match u32::try_from(number) {
            Ok(number) => Ok(number),
            Err(_) => Err(TextKind::Number),
        },
        None => Err(TextKind::Number),
    }
}

#[tactic(auto, using(crate::proofs::Numbers::none_empty, crate::proofs::Numbers::none_plus, crate::proofs::Numbers::none_zeros, crate::proofs::Numbers::zero_alone, crate::proofs::Numbers::none_no_text, crate::proofs::Numbers::parsed))]
/// Parses a number of up to 64 bits, by the same rules.
pub fn wide_number(word: &[u8]) -> Option<u64>
    ensures { result ≡ number_below (2 ^ 64) word.now }
{
    if word.is_empty() {
        return None;
    }
    if word[0] == b'+' {
        return None;
    }
    if word[0] == b'0' {
        return if word.len() == 1 { Some(0) } else { None };
    }
    match str::from_utf8(word) {
        Ok(digits) => digits.parse::<u64>().ok(),
        Err(_) => None,
    }
}

#[tactic(auto, unfolding(crate::specs::Values::hex_of))]
/// Decodes hex in either case.
pub(crate) fn hex_of(alloc: Global, word: &[u8]) -> Result<Block, TextKind>
    ensures { Gives (λ bytes. bytes) result (hex_of word.now) }
{
    match hex::decode(alloc, word) {
        Ok(bytes) => Ok(Block::from_vec(bytes)),
        Err(FromHexError::OutOfMemory) => Err(TextKind::Memory),
        Err(_) => Err(TextKind::Hex),
    }
}

#[tactic(auto, using(crate::proofs::ValueLaws::even_hex, crate::proofs::ValueLaws::odd_hex))]
/// Whether a word is hex in either case. It takes no memory.
pub fn is_hex(word: &[u8]) -> bool
    ensures { IsTrue result ↔ IsOk (hex_of word.now) }
{
    word.len() % 2 == 0 && has_digits_alone(word)
}

// Whether all bytes are hexadecimal digits.
fn has_digits_alone(word: &[u8]) -> bool
    ensures { result ≡ list_all is_ascii_hexdigit word.now }
{
    word.iter().all(|byte| byte.is_ascii_hexdigit())
}
