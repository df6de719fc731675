//! The plain array and the positions, one operation at a time.
ghost use Rattle.std.specs.Prelude.{◌≡◌, true, length, slice_index, IfOk};
ghost use Rattle.tao_base.specs.Array.{array_step, array_reply};
ghost use Rattle.tao_base.specs.Limits.{Shape};
ghost use Rattle.tao_model.specs.Events.{NamesBelow};
ghost use Rattle.tao_model.specs.Requests.{word_for};
ghost use Rattle.tao_plain_desk.specs.Quiet.{placed, value_for};

use std::alloc::Global;
use std::mem;
use tao_base::{Block, Blocks, NoMemory, Numbers, Op};

// A copy of the block that is read, or of the value that is written. No later step of an operation allocates a block.
pub fn copy_for(alloc: Global, blocks: &[Block], op: &Op) -> Result<Block, NoMemory>
    requires { NamesBelow (length blocks.now) op.now }
    ensures { IfOk result (λ value. value ≡ value_for blocks.now op.now) }
{
    match op {
        Op::Read(id) => Block::from_slice(alloc, blocks[*id as usize].as_slice()),
        Op::Write(_, value) => Block::from_slice(alloc, value.as_slice()),
        Op::Pad => Ok(Block::new(alloc)),
    }
}

// Applies an operation to the plain array, with the copy that `copy_for` made, and returns its reply.
#[tactic(auto, using(tao_base::proofs::Fronts::with_front_all))]
pub fn exchange(blocks: &mut Blocks, op: &Op, value: Block) -> Block
    requires names { NamesBelow (length blocks.old) op.now }
    requires copy { value ≡ value_for blocks.old op.now }
    ensures step { blocks.new ≡ array_step blocks.old op.now }
    ensures reply { result ≡ array_reply blocks.old op.now }
{
    match op {
        Op::Read(_) | Op::Pad => value,
        Op::Write(id, _) => mem::replace(&mut blocks.as_mut_slice()[*id as usize], value),
    }
}

// Returns the word whose leaf is fetched. The arrival's own word becomes that of its block's position.
#[tactic(auto, using(tao_base::proofs::Fronts::with_front_all))]
pub fn take_place(places: &mut Numbers, op: &Op, word: u32) -> u32
    requires { NamesBelow (length places.old) op.now }
    ensures word { result ≡ word_for (slice_index places.old) word true op.now }
    ensures places { places.new ≡ placed places.old op.now word }
{
    match op {
        Op::Read(id) | Op::Write(id, _) => mem::replace(
            &mut places.as_mut_slice()[*id as usize],
            word,
        ),
        Op::Pad => word,
    }
}
