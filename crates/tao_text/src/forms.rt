//! Parses single lines of a text, without their context.
ghost use Rattle.std.specs.Prelude.{◌≡◌};
ghost use Rattle.tao_text.specs.Forms.{alone, call_line, form_line, is_text, line_behind, line_said, load_line, number_line, numbers_of, op_line, pad_words, put_line, read_line, read_words, said_behind, step_behind, tape_line, tree_line, twin_behind, value_line, write_words};
ghost use Rattle.tao_text.specs.Values.{Gives};
ghost use Rattle.tao_text.specs.Words.{words};

use crate::faults::TextKind;
use crate::said::Said;
use crate::script::What;
use crate::text::TextOf;
use crate::values::{hex_of, number_of};
use crate::words::{next_word, no_more_words};
use std::alloc::Global;
use tao_base::{Block, Entry, Form, Numbers, Op};

#[tactic(auto, unfolding(crate::specs::Forms::line_said))]
/// What a line of such a text says: None for a blank line or a comment.
pub(crate) fn line_said(alloc: Global, text: TextOf, line: &[u8]) -> Result<Option<Said>, TextKind>
    ensures { Gives (λ said. said) result (line_said text line.now) }
{
    if !is_text(line) {
        return Err(TextKind::NotText);
    }
    let Ok((name, rest)) = next_word(line) else {
        return Ok(None);
    };
    if name.first() == Some(&b'#') {
        return Ok(None);
    }
    Ok(Some(line_behind(alloc, text, name, rest)?))
}

#[tactic(auto, unfolding(crate::specs::Forms::is_text))]
/// Whether all bytes are printable ASCII or spaces.
pub fn is_text(line: &[u8]) -> bool
    ensures { result ≡ is_text line.now }
{
    line.iter().all(|byte| b' ' <= *byte && *byte <= b'~')
}

#[tactic(auto, unfolding(crate::specs::Forms::line_behind))]
// Parses a line by its first word; `rest` is what follows it.
fn line_behind(alloc: Global, text: TextOf, name: &[u8], rest: &[u8]) -> Result<Said, TextKind>
    ensures { Gives (λ said. said) result (line_behind text name.now (words rest.now)) }
{
    match text {
        TextOf::Twin => twin_behind(alloc, name, rest),
        TextOf::Script | TextOf::Ops | TextOf::Store => said_behind(alloc, name, rest),
    }
}

#[tactic(auto, unfolding(crate::specs::Forms::twin_behind))]
// Parses a line of a twin input.
fn twin_behind(alloc: Global, name: &[u8], rest: &[u8]) -> Result<Said, TextKind>
    ensures { Gives (λ said. said) result (twin_behind name.now (words rest.now)) }
{
    if name == b"twin".as_slice() {
        return alone(Said::Twin, rest);
    }
    if name == b"op".as_slice() {
        return Ok(Said::Op(op_line(alloc, rest)?));
    }
    said_behind(alloc, name, rest)
}

#[tactic(auto, unfolding(crate::specs::Forms::said_behind))]
// Parses a line that all texts know.
fn said_behind(alloc: Global, name: &[u8], rest: &[u8]) -> Result<Said, TextKind>
    ensures { Gives (λ said. said) result (said_behind name.now (words rest.now)) }
{
    if name == b"tree".as_slice() {
        return tree_line(rest);
    }
    if name == b"form".as_slice() {
        return Ok(Said::Form(form_line(rest)?));
    }
    if name == b"key".as_slice() {
        return Ok(Said::Key(value_line(alloc, rest)?));
    }
    if name == b"seal".as_slice() {
        return alone(Said::Seal, rest);
    }
    if name == b"reopen".as_slice() {
        return Ok(Said::Reopen(value_line(alloc, rest)?));
    }
    if name == b"tape".as_slice() {
        return Ok(Said::Tape(tape_line(alloc, rest)?));
    }
    if name == b"load".as_slice() {
        return Ok(Said::Load(load_line(alloc, rest)?));
    }
    Ok(Said::Step(step_behind(alloc, name, rest)?))
}

#[tactic(auto, unfolding(crate::specs::Forms::step_behind))]
// Parses a step by its first word.
fn step_behind(alloc: Global, name: &[u8], rest: &[u8]) -> Result<What, TextKind>
    ensures { Gives (λ what. what) result (step_behind name.now (words rest.now)) }
{
    if name == b"do".as_slice() {
        let (client, op) = call_line(alloc, rest)?;
        return Ok(What::Do(client, op));
    }
    if name == b"a".as_slice() {
        let (client, op) = call_line(alloc, rest)?;
        return Ok(What::A(client, op));
    }
    if name == b"read".as_slice() {
        return read_line(rest);
    }
    if name == b"done".as_slice() {
        return Ok(What::Done(u64::from(number_line(rest)?)));
    }
    if name == b"put".as_slice() {
        return put_line(rest);
    }
    if name == b"ack".as_slice() {
        return Ok(What::Ack(number_line(rest)?));
    }
    Err(TextKind::Word)
}

#[tactic(auto, unfolding(crate::specs::Forms::tree_line))]
// `tree L Z B N k`
fn tree_line(line: &[u8]) -> Result<Said, TextKind>
    ensures { result ≡ tree_line (words line.now) }
{
    let (l, rest) = next_word(line)?;
    let (z, rest) = next_word(rest)?;
    let (b, rest) = next_word(rest)?;
    let (n, rest) = next_word(rest)?;
    let (k, rest) = next_word(rest)?;
    no_more_words(rest)?;
    Ok(Said::Tree(
        number_of(l)?,
        number_of(z)?,
        number_of(b)?,
        number_of(n)?,
        number_of(k)?,
    ))
}

#[tactic(auto, unfolding(crate::specs::Forms::form_line))]
// `form 1`, `form 2` or `form turn`
fn form_line(line: &[u8]) -> Result<Form, TextKind>
    ensures { result ≡ form_line (words line.now) }
{
    let (name, rest) = next_word(line)?;
    no_more_words(rest)?;
    if name == b"1".as_slice() {
        return Ok(Form::One);
    }
    if name == b"2".as_slice() {
        return Ok(Form::Two);
    }
    if name == b"turn".as_slice() {
        return Ok(Form::Turn);
    }
    Err(TextKind::Word)
}

#[tactic(auto, unfolding(crate::specs::Forms::value_line))]
// `key HEX` or `reopen HEX`
fn value_line(alloc: Global, line: &[u8]) -> Result<Block, TextKind>
    ensures { Gives (λ value. value) result (value_line (words line.now)) }
{
    let (value, rest) = next_word(line)?;
    no_more_words(rest)?;
    hex_of(alloc, value)
}

#[tactic(auto, unfolding(crate::specs::Forms::alone))]
// What a word says that stands alone: `seal` or `twin`.
fn alone(said: Said, line: &[u8]) -> Result<Said, TextKind>
    ensures { result ≡ alone said (words line.now) }
{
    no_more_words(line)?;
    Ok(said)
}

#[tactic(auto, unfolding(crate::specs::Forms::op_line, crate::specs::Forms::alone))]
// What follows `op`: `read ID`, `write ID HEX` or `pad`
fn op_line(alloc: Global, line: &[u8]) -> Result<Op, TextKind>
    ensures { Gives (λ op. op) result (op_line (words line.now)) }
{
    let (name, rest) = next_word(line)?;
    if name == b"read".as_slice() {
        return Ok(Op::Read(number_line(rest)?));
    }
    if name == b"write".as_slice() {
        let Entry { id, value } = load_line(alloc, rest)?;
        return Ok(Op::Write(id, value));
    }
    if name == b"pad".as_slice() {
        no_more_words(rest)?;
        return Ok(Op::Pad);
    }
    Err(TextKind::Word)
}

#[tactic(auto, unfolding(crate::specs::Forms::tape_line))]
// `tape W W ..`
fn tape_line(alloc: Global, line: &[u8]) -> Result<Numbers, TextKind>
    ensures { Gives (λ numbers. numbers) result (tape_line (words line.now)) }
{
    next_word(line)?;
    numbers_of(alloc, line)
}

#[tactic(auto, using(crate::proofs::Tapes::with_none, crate::proofs::Tapes::goes_on, crate::proofs::Tapes::stops, crate::proofs::Tapes::is_done))]
fn numbers_of(alloc: Global, line: &[u8]) -> Result<Numbers, TextKind>
    ensures { Gives (λ numbers. numbers) result (numbers_of (words line.now)) }
{
    let mut numbers = Numbers::new(alloc);
    let mut rest = line;
    while let Ok((word, after)) = next_word(rest) {
        numbers.push(number_of(word)?)?;
        rest = after;
    }
    Ok(numbers)
}

#[tactic(auto, unfolding(crate::specs::Forms::load_line))]
// `load ID HEX`
fn load_line(alloc: Global, line: &[u8]) -> Result<Entry, TextKind>
    ensures { Gives (λ entry. entry) result (load_line (words line.now)) }
{
    let (id, rest) = next_word(line)?;
    let (value, rest) = next_word(rest)?;
    no_more_words(rest)?;
    let id = number_of(id)?;
    let value = hex_of(alloc, value)?;
    Ok(Entry { id, value })
}

#[tactic(auto, unfolding(crate::specs::Forms::call_line))]
// What follows `do` or `a`: `C read ID`, `C write ID HEX` or `C pad`
fn call_line(alloc: Global, line: &[u8]) -> Result<(u32, Op), TextKind>
    ensures { Gives (λ call. call) result (call_line (words line.now)) }
{
    let (client, rest) = next_word(line)?;
    let (name, rest) = next_word(rest)?;
    if name == b"read".as_slice() {
        return read_words(client, rest);
    }
    if name == b"write".as_slice() {
        return write_words(alloc, client, rest);
    }
    if name == b"pad".as_slice() {
        return pad_words(client, rest);
    }
    Err(TextKind::Word)
}

#[tactic(auto, unfolding(crate::specs::Forms::read_words))]
fn read_words(client: &[u8], rest: &[u8]) -> Result<(u32, Op), TextKind>
    ensures { result ≡ read_words client.now (words rest.now) }
{
    let (id, rest) = next_word(rest)?;
    no_more_words(rest)?;
    let client = number_of(client)?;
    let id = number_of(id)?;
    Ok((client, Op::Read(id)))
}

#[tactic(auto, unfolding(crate::specs::Forms::write_words))]
fn write_words(alloc: Global, client: &[u8], rest: &[u8]) -> Result<(u32, Op), TextKind>
    ensures { Gives (λ call. call) result (write_words client.now (words rest.now)) }
{
    let (id, rest) = next_word(rest)?;
    let (value, rest) = next_word(rest)?;
    no_more_words(rest)?;
    let client = number_of(client)?;
    let id = number_of(id)?;
    let value = hex_of(alloc, value)?;
    Ok((client, Op::Write(id, value)))
}

#[tactic(auto, unfolding(crate::specs::Forms::pad_words))]
fn pad_words(client: &[u8], rest: &[u8]) -> Result<(u32, Op), TextKind>
    ensures { result ≡ pad_words client.now (words rest.now) }
{
    no_more_words(rest)?;
    Ok((number_of(client)?, Op::Pad))
}

#[tactic(auto, unfolding(crate::specs::Forms::read_line))]
// `read I` or `read I D`
fn read_line(line: &[u8]) -> Result<What, TextKind>
    ensures { result ≡ read_line (words line.now) }
{
    let (fetch, rest) = next_word(line)?;
    let Ok((depth, rest)) = next_word(rest) else {
        return Ok(What::Read(u64::from(number_of(fetch)?), None));
    };
    no_more_words(rest)?;
    let fetch = number_of(fetch)?;
    let depth = number_of(depth)?;
    Ok(What::Read(u64::from(fetch), Some(depth)))
}

#[tactic(auto, unfolding(crate::specs::Forms::put_line))]
// `put V` or `put V NODE`
fn put_line(line: &[u8]) -> Result<What, TextKind>
    ensures { result ≡ put_line (words line.now) }
{
    let (version, rest) = next_word(line)?;
    let Ok((node, rest)) = next_word(rest) else {
        return Ok(What::Put(number_of(version)?, None));
    };
    no_more_words(rest)?;
    let version = number_of(version)?;
    let node = number_of(node)?;
    Ok(What::Put(version, Some(node)))
}

#[tactic(auto, unfolding(crate::specs::Forms::number_line))]
// The number of `done I` or `ack V`.
fn number_line(line: &[u8]) -> Result<u32, TextKind>
    ensures { result ≡ number_line (words line.now) }
{
    let (number, rest) = next_word(line)?;
    no_more_words(rest)?;
    number_of(number)
}
