//! Playing a script on the desk.
ghost use Rattle.std.specs.Prelude.{◌≡◌, ℕ, ◌+◌, ◌<◌, ◌≤◌, List, ◌-◌, ◌^◌, length, take, replicate, reverse, fold, map, IfOk, OnOk, OnErr, All, IsTrue};
ghost use Rattle.std.specs.List.{range_with_len};
ghost use Rattle.tao_base.specs.Limits.{session_limit};
ghost use Rattle.tao_model.specs.Replies.{array_now};
ghost use Rattle.tao_tape.specs.Tapes.{key_word};
ghost use Rattle.tao_text.specs.Texts.{IsScript, IsEntryOf, IsStepOf};
ghost use Rattle.tao_plain_desk.specs.Whole.{words_left, arrivals_of, started, IsSound};
ghost use Rattle.taostore.specs.Playing.{first_blocks, put_load, tape_of, words_of, PlaysStep, PlaysSteps, PlaysScript, Closes, IsPart};
ghost use Rattle.taostore.specs.Unbuilt.{IsPlayable, is_whole};

use std::alloc::Global;
use tao_base::{Block, Blocks, Entry, NoMemory, Numbers, Op, Params};
use tao_plain_desk::{ArriveFault, Desk};
use tao_record::Record;
use tao_tape::{KeyTape, Tape};
use tao_text::{Script, Step, Steps, What};

/// What playing came to.
#[derive(Debug, Drop)]
pub enum Played {
    /// All steps: the record, and the array after them.
    Whole(Record, Blocks),
    /// Memory ran out: the record as far as it came.
    Part(Record),
    /// Memory ran out before the session was opened.
    Nothing,
}

// One step. It changes nothing where memory runs out.
fn do_step(alloc: Global, desk: &mut Desk, step: &Step) -> Result<(), NoMemory>
    requires step { IsStepOf desk.old.history.opening.shape step.now.what }
    requires whole { IsTrue (is_whole step.now.what) }
    requires word { 0 < words_left desk.old }
    requires limit { arrivals_of desk.old.history < session_limit desk.old.history.opening.shape }
    requires sound { IsSound desk.old.history }
    ensures ok { OnOk result (PlaysStep desk.old.tape step.now.what desk.old.history desk.new.history) }
    ensures opening { OnOk result (desk.new.history.opening ≡ desk.old.history.opening) }
    ensures tape { OnOk result (desk.new.tape ≡ desk.old.tape) }
    ensures word_used { OnOk result (words_left desk.new + 1 ≡ words_left desk.old) }
    ensures count { OnOk result (arrivals_of desk.new.history ≡ arrivals_of desk.old.history + 1) }
    ensures err { OnErr result (desk.new ≡ desk.old) }
    ensures sound { IsSound desk.new.history }
{
    let What::Do(client, op) = &step.what else {
        unreachable!()
    };
    let op = copy_of(alloc, op)?;
    match desk.do_one(*client, op) {
        Ok(_) => Ok(()),
        Err(ArriveFault::Memory) => Err(NoMemory),
        Err(_) => unreachable!(),
    }
}

fn copy_of(alloc: Global, op: &Op) -> Result<Op, NoMemory>
    ensures { IfOk result (λ copy. copy ≡ op.now) }
{
    match op {
        Op::Read(id) => Ok(Op::Read(*id)),
        Op::Write(id, value) => Ok(Op::Write(*id, Block::from_slice(alloc, value.as_slice())?)),
        Op::Pad => Ok(Op::Pad),
    }
}

// The first values of the blocks.
fn first_values(alloc: Global, p: &Params, loads: &[Entry]) -> Result<Blocks, NoMemory>
    requires { All (IsEntryOf p.now) loads.now }
    ensures blocks { IfOk result (λ blocks. blocks ≡ first_blocks p.now.n p.now.b loads.now) }
    ensures count { IfOk result (λ blocks. length blocks ≡ p.now.n) }
    ensures values { IfOk result (λ blocks. All (λ value. length value ≡ p.now.b) blocks) }
{
    let mut blocks = zeros(alloc, p)?;
    for entry in loads {
        put(alloc, &mut blocks, entry)?;
    }
    Ok(blocks)
}

fn put(alloc: Global, blocks: &mut Blocks, entry: &Entry) -> Result<(), NoMemory>
    requires { entry.now.id < length blocks.old }
    ensures ok { OnOk result (blocks.new ≡ put_load blocks.old entry.now) }
{
    let value = Block::from_slice(alloc, entry.value.as_slice())?;
    blocks.as_mut_slice()[entry.id as usize] = value;
    Ok(())
}

fn zeros(alloc: Global, p: &Params) -> Result<Blocks, NoMemory>
    ensures { IfOk result (λ blocks. blocks ≡ replicate p.now.n (replicate p.now.b 0)) }
{
    let mut blocks = Blocks::new(alloc);
    for _ in 0..p.n() {
        blocks.push(zero_block(alloc, p.b())?)?;
    }
    Ok(blocks)
}

fn zero_block(alloc: Global, b: u32) -> Result<Block, NoMemory>
    ensures { IfOk result (λ block. block ≡ replicate b 0) }
{
    Ok(Block::from_vec(vec![in alloc; 0u8; b as usize]?))
}

// The steps one after another, until memory runs out.
fn play_all(alloc: Global, desk: &mut Desk, steps: &[Step]) -> Result<(), NoMemory>
    requires steps { All (λ step. IsStepOf desk.old.history.opening.shape step.what) steps.now }
    requires whole { All (λ step. IsTrue (is_whole step.what)) steps.now }
    requires words { length steps.now ≤ words_left desk.old }
    requires limit { arrivals_of desk.old.history + length steps.now ≤ session_limit desk.old.history.opening.shape }
    requires sound { IsSound desk.old.history }
    ensures ok { OnOk result (PlaysSteps desk.old.tape steps.now desk.old.history desk.new.history) }
    ensures err { OnErr result ((count : ℕ) × PlaysSteps desk.old.tape (take count steps.now) desk.old.history desk.new.history) }
    ensures sound { IsSound desk.new.history }
{
    for step in steps {
        do_step(alloc, desk, step)?;
    }
    Ok(())
}

// A desk on which nothing was played.
fn open(alloc: Global, p: Params, tape: Numbers, loads: &[Entry]) -> Result<Desk, NoMemory>
    requires once { p.k ≡ 1 }
    requires words { p.n ≤ length tape }
    requires loads { All (IsEntryOf p) loads.now }
    ensures state { IfOk result (λ d. d ≡ started p tape (first_blocks p.n p.b loads.now)) }
    ensures sound { IfOk result (λ d. IsSound d.history) }
    ensures left { IfOk result (λ d. words_left d + p.n ≡ length tape) }
    ensures count { IfOk result (λ d. arrivals_of d.history ≡ 0) }
{
    let blocks = first_values(alloc, &p, loads)?;
    Desk::start(alloc, p, tape, blocks)
}

// The record, with the final array where all was played.
fn stop(alloc: Global, desk: Desk, played: Result<(), NoMemory>) -> Played
    requires { IsSound desk.history }
    ensures ok { OnOk played (Closes desk.history result) }
    ensures err { OnErr played (IsPart desk.history result) }
{
    match played {
        Ok(()) => close(alloc, desk),
        Err(NoMemory) => Played::Part(desk.into_history()),
    }
}

// The record and the final array.
fn close(alloc: Global, desk: Desk) -> Played
    requires { IsSound desk.history }
    ensures { Closes desk.history result }
{
    match desk.final_array(alloc) {
        Ok(blocks) => Played::Whole(desk.into_history(), blocks),
        Err(NoMemory) => Played::Part(desk.into_history()),
    }
}

/// Plays all steps of a script, or as far as memory lasts.
pub fn session_of(alloc: Global, script: Script) -> Played
    requires script { IsScript script }
    requires playable { IsPlayable script }
    ensures { PlaysScript script result }
{
    let Ok((mut desk, steps)) = open_script(alloc, script) else {
        return Played::Nothing;
    };
    let played = play_all(alloc, &mut desk, steps.as_slice());
    stop(alloc, desk, played)
}

#[tactic(auto, using(crate::proofs::Whole::tape_enough))]
// A desk for the script, and its steps.
fn open_script(alloc: Global, script: Script) -> Result<(Desk, Steps), NoMemory>
    requires script { IsScript script }
    requires playable { IsPlayable script }
    ensures steps { IfOk result (λ r. r.1 ≡ script.steps) }
    ensures state { IfOk result (λ r. r.0 ≡ started script.params (tape_of script) (first_blocks script.params.n script.params.b script.loads)) }
    ensures sound { IfOk result (λ r. IsSound r.0.history) }
    ensures words { IfOk result (λ r. length script.steps ≤ words_left r.0) }
    ensures count { IfOk result (λ r. arrivals_of r.0.history ≡ 0) }
{
    let Script {
        params,
        key,
        tape,
        loads,
        steps,
        ..
    } = script;
    let count = params.n() as usize + steps.as_slice().len();
    let words = tape_words(alloc, tape, key, count)?;
    let desk = open(alloc, params, words, loads.as_slice())?;
    Ok((desk, steps))
}

// The words of the tape that the text has, or so many of its key.
fn tape_words(
    alloc: Global,
    tape: Option<Numbers>,
    key: [u8; 32],
    count: usize,
) -> Result<Numbers, NoMemory>
    requires { count < 2 ^ 64 - 1 }
    ensures { IfOk result (λ words. words ≡ words_of tape key count) }
{
    match tape {
        Some(words) => Ok(words),
        None => key_words(alloc, key, count),
    }
}

fn key_words(alloc: Global, key: [u8; 32], count: usize) -> Result<Numbers, NoMemory>
    requires { count < 2 ^ 64 - 1 }
    ensures { IfOk result (λ words. words ≡ map (key_word key) (range_with_len 0 count)) }
{
    let mut tape = KeyTape::new(key);
    let mut words = Numbers::new(alloc);
    for _ in 0..count {
        words.push(tape.next())?;
    }
    Ok(words)
}
