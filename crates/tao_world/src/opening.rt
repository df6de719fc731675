//! What a script opens a session with: the first values of its blocks, and its tape.
ghost use Rattle.std.specs.Prelude.{◌≡◌, ◌<◌, length, replicate, All, IfOk, OnOk};
ghost use Rattle.tao_tape.specs.Script.{script_place, script_source};
ghost use Rattle.tao_text.specs.Texts.{IsEntryOf};
ghost use Rattle.tao_world.specs.Opening.{ScriptsCanStart, first_blocks as first_values, put_load, source_of};

use std::alloc::Global;
use tao_base::{Block, Blocks, Entry, NoMemory, Numbers, Params};
use tao_tape::{KeyTape, ListTape, ScriptTape, Tape};
use tao_text::Script;

/// The first values of all blocks: those that are loaded, and zeros.
pub fn first_blocks(alloc: Global, p: &Params, loads: &[Entry]) -> Result<Blocks, NoMemory>
    requires { All (IsEntryOf p.now) loads.now }
    ensures blocks { IfOk result (λ blocks. blocks ≡ first_values p.now.n p.now.b loads.now) }
    ensures count { IfOk result (λ blocks. length blocks ≡ p.now.n) }
    ensures values { IfOk result (λ blocks. All (λ value. length value ≡ p.now.b) blocks) }
{
    let mut blocks = zeros(alloc, p)?;
    for entry in loads {
        put(alloc, &mut blocks, entry)?;
    }
    Ok(blocks)
}

fn zeros(alloc: Global, p: &Params) -> Result<Blocks, NoMemory>
    ensures { IfOk result (λ blocks. blocks ≡ replicate p.now.n (replicate p.now.b 0)) }
{
    let mut blocks = Blocks::new(alloc);
    for _ in 0..p.n() {
        blocks.push(zero_block(alloc, p.b())?)?;
    }
    Ok(blocks)
}

fn zero_block(alloc: Global, b: u32) -> Result<Block, NoMemory>
    ensures { IfOk result (λ block. block ≡ replicate b 0) }
{
    Ok(Block::from_vec(vec![in alloc; 0u8; b as usize]?))
}

fn put(alloc: Global, blocks: &mut Blocks, entry: &Entry) -> Result<(), NoMemory>
    requires { entry.now.id < length blocks.old }
    ensures ok { OnOk result (blocks.new ≡ put_load blocks.old entry.now) }
{
    let value = Block::from_slice(alloc, entry.value.as_slice())?;
    blocks.as_mut_slice()[entry.id as usize] = value;
    Ok(())
}

/// The tape of a script at its first word: the words that it lists, or else those of its key.
pub fn tape_of(alloc: Global, script: &Script) -> Result<ScriptTape, NoMemory>
    ensures source { IfOk result (λ tape. script_source tape ≡ source_of script.now) }
    ensures place { IfOk result (λ tape. script_place tape ≡ 0) }
{
    match &script.tape {
        Some(words) => Ok(ScriptTape::Words(ListTape::new(Numbers::from_slice(
            alloc,
            words.as_slice(),
        )?))),
        None => Ok(ScriptTape::Key(KeyTape::new(script.key))),
    }
}

/// A script that was read can start a world.
pub fn scripts_can_start()
    ensures { ScriptsCanStart }
{}
