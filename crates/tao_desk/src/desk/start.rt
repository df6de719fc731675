//! A session begins.
ghost use Rattle.std.specs.Prelude.{◌≡◌, ◌+◌, ◌*◌, ◌≤◌, ◌⊎◌, not, ◌==◌, length, map, Some, None, IfOk, IfErr, All, IfNone};
ghost use Rattle.std.specs.List.{list_any, range_with_len};
ghost use Rattle.tao_desk.specs.Calls.{IsStarted};
ghost use Rattle.tao_desk.specs.Refusals.{start_refusal};
ghost use Rattle.tao_desk.specs.Sound.{IsSound};
ghost use Rattle.tao_desk.specs.declared.faults.StartFault.TheVariants.{Memory};

use crate::desk::Desk;
use crate::faults::StartFault;
use std::alloc::Global;
use tao_base::{Block, Blocks, NoMemory, Numbers, Params};
use tao_processor::Processor;
use tao_tape::Tape;

impl<T: Tape + Drop> Desk<T> {
    /// Loads all blocks by the first words of the tape, and begins a session. The load itself is sent by `load_part`.
    pub fn start(
        alloc: Global,
        p: Params,
        key: [u8; 32],
        tape: T,
        blocks: Blocks,
    ) -> Result<Desk<T>, StartFault>
        requires fresh { T.place tape ≡ 0 }
        requires words { p.n ≤ T.left (T.source tape) 0 }
        ensures refused { IfErr result (λ fault. (start_refusal p blocks ≡ Some fault) ⊎ ((fault ≡ Memory) × (start_refusal p blocks ≡ None))) }
        ensures taken { IfOk result (λ _. start_refusal p blocks ≡ None) }
        ensures started { IfOk result (λ desk. IsStarted T.word (T.source tape) p key blocks desk) }
        ensures sound { IfOk result (λ desk. IsSound T.word desk) }
    {
        match refusal(&p, blocks.as_slice()) {
            Some(fault) => return Err(fault),
            None => {}
        }
        let mut tape = tape;
        let Ok(words) = draw(alloc, &mut tape, p.n()) else {
            return Err(StartFault::Memory);
        };
        match Processor::open(alloc, &p, key, words, blocks) {
            Ok(processor) => {
                processor.sound();
                Ok(Desk {
                    alloc,
                    processor,
                    tape,
                })
            }
            Err(NoMemory) => Err(StartFault::Memory),
        }
    }
}

// Why these first values are refused, if they are.
fn refusal(p: &Params, blocks: &[Block]) -> Option<StartFault>
    ensures value { result ≡ start_refusal p.now blocks.now }
    ensures count { IfNone result (length blocks.now ≡ p.now.n) }
    ensures values { IfNone result (All (λ value. length value ≡ p.now.b) blocks.now) }
{
    if blocks.len() != p.n() as usize {
        return Some(StartFault::BlockCount);
    }
    if has_other_length(p.b() as usize, blocks) {
        return Some(StartFault::BlockLength);
    }
    None
}

// Whether one of the values has another length.
fn has_other_length(len: usize, blocks: &[Block]) -> bool
    ensures { result ≡ list_any (λ value. not (length value == len)) blocks.now }
{
    blocks.iter().any(|value| value.as_slice().len() != len)
}

// The next words of the tape, so many.
fn draw<T: Tape>(alloc: Global, tape: &mut T, count: u32) -> Result<Numbers, NoMemory>
    requires { count ≤ T.left (T.source tape.old) (T.place tape.old) }
    ensures words { IfOk result (λ words. words ≡ map (T.word (T.source tape.old)) (range_with_len (T.place tape.old) count)) }
    ensures place { IfOk result (λ _. T.place tape.new ≡ T.place tape.old + count) }
    ensures source { T.source tape.new ≡ T.source tape.old }
{
    let mut words = Numbers::new(alloc);
    for _ in 0..count {
        words.push(tape.next())?;
    }
    Ok(words)
}
