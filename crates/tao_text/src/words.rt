//! Splits a text into lines, and a line into words.
ghost use Rattle.std.specs.Prelude.{◌≡◌, ◌==◌, ◌<◌, [], ◌∷◌, length, position, MatchOption, MatchResult, OnOk, IfErr};
ghost use Rattle.std.specs.List.{before_first, after_first};
ghost use Rattle.tao_text.specs.Words.{HasWords, lines, words};

use crate::faults::TextKind;

#[tactic(auto, using(crate::proofs::Cuts::lines_none, crate::proofs::Cuts::lines_cut, crate::proofs::Cuts::after_shorter))]
/// The first line of a text, and the rest.
pub fn next_line(text: &[u8]) -> Option<(&[u8], &[u8])>
    ensures { MatchOption result (lines text.now ≡ []) (λ r. (lines text.now ≡ r.0.now ∷ lines r.1.now) × (length r.1.now < length text.now)) }
{
    if text.is_empty() {
        return None;
    }
    Some(cut_at(b'\n', text))
}

#[tactic(auto, using(crate::proofs::Cuts::words_none, crate::proofs::Cuts::words_more, crate::proofs::Cuts::words_after_space, crate::proofs::Cuts::after_shorter))]
/// The first word of a line, and the rest. A line without words gives the fault Word.
pub fn next_word(line: &[u8]) -> Result<(&[u8], &[u8]), TextKind>
    ensures { MatchResult result (λ r. (words line.now ≡ r.0.now ∷ words r.1.now) × (length r.1.now < length line.now)) (λ kind. (kind ≡ TextKind.Word) × (words line.now ≡ [])) }
{
    let mut rest = line;
    while !rest.is_empty() {
        let (word, after) = cut_at(b' ', rest);
        if !word.is_empty() {
            return Ok((word, after));
        }
        rest = after;
    }
    Err(TextKind::Word)
}

/// Gives the fault Word if there are more words.
pub fn no_more_words(line: &[u8]) -> Result<(), TextKind>
    ensures ok { OnOk result (words line.now ≡ []) }
    ensures err { IfErr result (λ kind. (kind ≡ TextKind.Word) × HasWords (words line.now)) }
{
    match next_word(line) {
        Ok(_) => Err(TextKind::Word),
        Err(_) => Ok(()),
    }
}

// Splits at the first such byte, which goes to neither part; without one, the second part is empty.
fn cut_at(byte: u8, bytes: &[u8]) -> (&[u8], &[u8])
    ensures front { result.0.now ≡ before_first (λ b. b == byte) bytes.now }
    ensures back { result.1.now ≡ after_first (λ b. b == byte) bytes.now }
{
    match place_of(byte, bytes) {
        Some(at) => (&bytes[..at], &bytes[at + 1..]),
        None => (bytes, &[]),
    }
}

fn place_of(byte: u8, bytes: &[u8]) -> Option<usize>
    ensures { result ≡ position (λ b. b == byte) bytes.now }
{
    bytes.iter().position(|b| *b == byte)
}
