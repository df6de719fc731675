//! Reads a text, line by line.
ghost use Rattle.std.specs.Prelude.{◌≡◌, ◌⊎◌, ◌^◌, ◌≤◌, ◌<◌, length, None, IfOk, IfErr};
ghost use Rattle.tao_text.specs.declared.text.TextOf.TheVariants.{Ops, Store, Twin};
ghost use Rattle.tao_text.specs.Texts.{FirstBreak, FirstBreakOf, IsOps, IsOpsText, IsScript, IsScriptText, IsStore, IsStoreText, IsTwinText, IsTwins};
ghost use Rattle.tao_text.specs.Scripts.{line_with, lines_with, no_memory, plays_in, reading, reading_of, text_with, twins_reading, GivesLine, GivesScript, GivesText};
ghost use Rattle.tao_text.specs.Values.{Gives};
ghost use Rattle.tao_text.specs.Words.{lines};

use crate::draft::{Draft, Second, add, open};
use crate::faults::{TextFault, TextKind};
use crate::forms::line_said;
use crate::script::{Script, Twins};
use crate::text::TextOf;
use crate::words::next_line;
use std::alloc::Global;

// the maximum length of a text in bytes
const MOST_BYTES: usize = 1 << 24;

#[tactic(auto, using(crate::proofs::Answered::is_script, crate::proofs::Answered::keeps_limits, crate::proofs::Answered::is_script_break))]
/// Reads a script, or gives the first line with a fault, counted from 1, and the kind with the smallest number of its faults. A text of
/// more than 2^24 bytes gives TooLong, and running out of memory gives Memory, both with line 0.
pub fn read_script(alloc: Global, bytes: &[u8]) -> Result<Script, TextFault>
    ensures read { GivesScript result (reading bytes.now) }
    ensures script { IfOk result (IsScriptText bytes.now) }
    ensures limits { IfOk result IsScript }
    ensures first_break { IfErr result (λ fault. (fault ≡ no_memory) ⊎ FirstBreak bytes.now fault) }
{
    read_as(alloc, TextOf::Script, bytes)
}

#[tactic(auto, using(crate::proofs::Answered::is_ops, crate::proofs::Answered::keeps_ops, crate::proofs::Answered::is_ops_break))]
/// Reads an operation list, a script with no steps but `a`, or gives its first fault as `read_script` does.
pub fn read_ops(alloc: Global, bytes: &[u8]) -> Result<Script, TextFault>
    ensures read { GivesScript result (reading_of Ops bytes.now) }
    ensures ops { IfOk result (IsOpsText bytes.now) }
    ensures limits { IfOk result IsOps }
    ensures first_break { IfErr result (λ fault. (fault ≡ no_memory) ⊎ FirstBreakOf Ops bytes.now fault) }
{
    read_as(alloc, TextOf::Ops, bytes)
}

#[tactic(auto, using(crate::proofs::Answered::is_store, crate::proofs::Answered::keeps_store, crate::proofs::Answered::is_store_break))]
/// Reads a block file, a script without steps and without a tape, or gives its first fault as `read_script` does.
pub fn read_store(alloc: Global, bytes: &[u8]) -> Result<Script, TextFault>
    ensures read { GivesScript result (reading_of Store bytes.now) }
    ensures store { IfOk result (IsStoreText bytes.now) }
    ensures limits { IfOk result IsStore }
    ensures first_break { IfErr result (λ fault. (fault ≡ no_memory) ⊎ FirstBreakOf Store bytes.now fault) }
{
    read_as(alloc, TextOf::Store, bytes)
}

#[tactic(auto, using(crate::proofs::Answered::is_twin_text, crate::proofs::Answered::keeps_twins, crate::proofs::Answered::is_twin_break))]
/// Reads the input of `twin`, or gives its first fault as `read_script` does. An arrival beyond the session limit is one, so no play of what
/// is read meets that limit.
pub fn read_twin(alloc: Global, bytes: &[u8]) -> Result<Twins, TextFault>
    ensures read { GivesText result (twins_reading bytes.now) }
    ensures twins { IfOk result (IsTwinText bytes.now) }
    ensures limits { IfOk result IsTwins }
    ensures first_break { IfErr result (λ fault. (fault ≡ no_memory) ⊎ FirstBreakOf Twin bytes.now fault) }
{
    read_plays(alloc, bytes)
}

// Reads a text that says two plays.
fn read_plays(alloc: Global, bytes: &[u8]) -> Result<Twins, TextFault>
    ensures { GivesText result (twins_reading bytes.now) }
{
    let (draft, number) = read_text(alloc, TextOf::Twin, bytes)?;
    match draft {
        Some(Draft { script, second, .. }) => plays_in(script, second, number),
        None => Err(TextFault {
            line: number,
            kind: TextKind::Order,
        }),
    }
}

// The two plays of a twin input, if it has a line `twin` and an operation for each arrival.
fn plays_in(first: Script, second: Option<Second>, number: u32) -> Result<Twins, TextFault>
    ensures { result ≡ plays_in first second number }
{
    match second {
        Some(
            Second {
                loads,
                ops,
                ops_left: 0,
            },
        ) => Ok(Twins { first, loads, ops }),
        _ => Err(TextFault {
            line: number,
            kind: TextKind::Order,
        }),
    }
}

// Reads a text that says one script.
fn read_as(alloc: Global, text: TextOf, bytes: &[u8]) -> Result<Script, TextFault>
    ensures { GivesText result (reading_of text bytes.now) }
{
    let (draft, number) = read_text(alloc, text, bytes)?;
    match draft {
        Some(Draft { script, .. }) => Ok(script),
        None => Err(TextFault {
            line: number,
            kind: TextKind::Order,
        }),
    }
}

#[tactic(auto, unfolding(crate::specs::Scripts::text_with))]
// What the lines say, and the number of the line behind the last one.
fn read_text(alloc: Global, text: TextOf, bytes: &[u8]) -> Result<(Option<Draft>, u32), TextFault>
    ensures { GivesText result (text_with text bytes.now) }
{
    if MOST_BYTES < bytes.len() {
        return Err(TextFault {
            line: 0,
            kind: TextKind::TooLong,
        });
    }
    read_lines(alloc, text, bytes)
}

#[tactic(auto, using(crate::proofs::Bodies::goes_on, crate::proofs::Bodies::stops, crate::proofs::Bodies::is_done))]
fn read_lines(alloc: Global, text: TextOf, bytes: &[u8]) -> Result<(Option<Draft>, u32), TextFault>
    requires { length bytes.now ≤ 2 ^ 24 }
    ensures { GivesText result (lines_with text None 1 (lines bytes.now)) }
{
    let mut draft = None;
    let mut rest = bytes;
    let mut number = 1;
    while let Some((line, after)) = next_line(rest) {
        read_line(alloc, text, &mut draft, number, line)?;
        rest = after;
        number += 1;
    }
    Ok((draft, number))
}

fn read_line(
    alloc: Global,
    text: TextOf,
    draft: &mut Option<Draft>,
    number: u32,
    line: &[u8],
) -> Result<(), TextFault>
    ensures { GivesLine draft.new number result (line_with text draft.old number line.now) }
{
    match take_line(alloc, text, draft, number, line) {
        Ok(()) => Ok(()),
        Err(TextKind::Memory) => Err(TextFault {
            line: 0,
            kind: TextKind::Memory,
        }),
        Err(kind) => Err(TextFault { line: number, kind }),
    }
}

#[tactic(auto, unfolding(crate::specs::Scripts::line_with))]
fn take_line(
    alloc: Global,
    text: TextOf,
    draft: &mut Option<Draft>,
    number: u32,
    line: &[u8],
) -> Result<(), TextKind>
    ensures { Gives (λ _. draft.new) result (line_with text draft.old number line.now) }
{
    let Some(said) = line_said(alloc, text, line)? else {
        return Ok(());
    };
    match draft {
        Some(draft) => add(alloc, text, draft, number, said),
        None => {
            *draft = Some(open(alloc, text, number, said)?);
            Ok(())
        }
    }
}
