//! Appends lines of text to an image: a first word, then words, numbers and blocks, each after one space, and byte 10.
ghost use Rattle.std.specs.Prelude.{◌≡◌, ◌<◌, [], ◌∷◌, ◌++◌, length, flat_map, OnOk, OnErr};
ghost use Rattle.hex.specs.Hex.{encode_lower};
ghost use Rattle.tao_base.specs.Lines.{spaced, spaced_hex, words_line, hex_line};
ghost use Rattle.tao_text.specs.Lines.{Extends};

use itoa::Buffer;
use tao_base::{Block, Image, NoMemory};

/// Appends a whole line: the word, and each number after a space.
pub fn line_words(out: &mut Image, word: &str, numbers: &[u64]) -> Result<(), NoMemory>
    ensures ok { OnOk result (out.new ≡ out.old ++ words_line word.now numbers.now) }
    ensures err { OnErr result (out.new ≡ out.old) }
{
    let len = out.as_slice().len();
    match words_and_end(out, word, numbers) {
        Ok(()) => Ok(()),
        Err(NoMemory) => {
            out.truncate(len);
            Err(NoMemory)
        }
    }
}

/// Appends a whole line: the word, each number after a space, and the value in lower-case hex after a space.
pub fn line_hex(out: &mut Image, word: &str, numbers: &[u64], value: &Block) -> Result<(), NoMemory>
    ensures ok { OnOk result (out.new ≡ out.old ++ hex_line word.now numbers.now value.now) }
    ensures err { OnErr result (out.new ≡ out.old) }
{
    let len = out.as_slice().len();
    match hex_and_end(out, word, numbers, value) {
        Ok(()) => Ok(()),
        Err(NoMemory) => {
            out.truncate(len);
            Err(NoMemory)
        }
    }
}

#[tactic(auto, unfolding(tao_base::specs::Lines::words_line))]
fn words_and_end(out: &mut Image, word: &str, numbers: &[u64]) -> Result<(), NoMemory>
    ensures ok { OnOk result (out.new ≡ out.old ++ words_line word.now numbers.now) }
    ensures err { OnErr result (Extends out.old out.new) }
{
    begin_line(out, word)?;
    push_numbers(out, numbers)?;
    end_line(out)
}

#[tactic(auto, unfolding(tao_base::specs::Lines::hex_line))]
fn hex_and_end(out: &mut Image, word: &str, numbers: &[u64], value: &Block) -> Result<(), NoMemory>
    ensures ok { OnOk result (out.new ≡ out.old ++ hex_line word.now numbers.now value.now) }
    ensures err { OnErr result (Extends out.old out.new) }
{
    begin_line(out, word)?;
    push_numbers(out, numbers)?;
    push_hex(out, value.as_slice())?;
    end_line(out)
}

/// Appends the first word of a line. If memory runs out, a prefix of the piece may have been appended: truncate the image to its length
/// before the line.
pub fn begin_line(out: &mut Image, word: &str) -> Result<(), NoMemory>
    ensures ok { OnOk result (out.new ≡ out.old ++ word.now) }
    ensures err { OnErr result (Extends out.old out.new) }
{
    out.extend_from_slice(word.as_bytes())
}

/// Appends a further word, after a space.
pub fn push_word(out: &mut Image, word: &str) -> Result<(), NoMemory>
    ensures ok { OnOk result (out.new ≡ out.old ++ 32 ∷ word.now) }
    ensures err { OnErr result (Extends out.old out.new) }
{
    out.push(b' ')?;
    out.extend_from_slice(word.as_bytes())
}

#[tactic(auto, unfolding(tao_base::specs::Lines::spaced))]
/// Appends a number, after a space.
pub fn push_number(out: &mut Image, number: u64) -> Result<(), NoMemory>
    ensures ok { OnOk result (out.new ≡ out.old ++ spaced number) }
    ensures err { OnErr result (Extends out.old out.new) }
{
    let mut digits = Buffer::new();
    push_word(out, digits.format(number))
}

#[tactic(auto, using(crate::proofs::Appended::extends_through))]
/// Appends numbers, each after a space.
pub fn push_numbers(out: &mut Image, numbers: &[u64]) -> Result<(), NoMemory>
    ensures ok { OnOk result (out.new ≡ out.old ++ flat_map spaced numbers.now) }
    ensures err { OnErr result (Extends out.old out.new) }
{
    for number in numbers {
        push_number(out, *number)?;
    }
    Ok(())
}

#[tactic(auto, using(crate::proofs::Appended::extends_through, crate::proofs::Appended::hex_goes_on), unfolding(tao_base::specs::Lines::spaced_hex))]
/// Appends bytes in lower-case hex, after a space.
pub fn push_hex(out: &mut Image, bytes: &[u8]) -> Result<(), NoMemory>
    ensures ok { OnOk result (out.new ≡ out.old ++ spaced_hex bytes.now) }
    ensures err { OnErr result (Extends out.old out.new) }
{
    out.push(b' ')?;
    let mut rest = bytes;
    while rest.len() > CHUNK {
        let (front, back) = rest.split_at(CHUNK);
        push_chunk(out, front)?;
        rest = back;
    }
    push_chunk(out, rest)
}

/// Appends the end of a line.
pub fn end_line(out: &mut Image) -> Result<(), NoMemory>
    ensures ok { OnOk result (out.new ≡ out.old ++ 10 ∷ []) }
    ensures err { OnErr result (Extends out.old out.new) }
{
    out.push(b'\n')
}

// how many bytes are converted to hex at once
const CHUNK: usize = 64;

fn push_chunk(out: &mut Image, bytes: &[u8]) -> Result<(), NoMemory>
    requires { length bytes.now < 65 }
    ensures ok { OnOk result (out.new ≡ out.old ++ encode_lower bytes.now) }
    ensures err { OnErr result (Extends out.old out.new) }
{
    let mut room = [0u8; 128];
    let digits = &mut room[..2 * bytes.len()];
    match hex::encode_to_slice(bytes, digits) {
        Ok(()) => out.extend_from_slice(digits),
        Err(_) => unreachable!(),
    }
}
