//! Preallocated buffers for the bytes of a request.
ghost use Rattle.std.specs.Prelude.{◌≡◌, ◌+◌, ◌<◌, length, vec_len, IfOk, All};
ghost use Rattle.tao_requests.specs.Rooms.{IsRoom, FitsIn};

use std::alloc::Global;
use tao_base::{Block, NoMemory, Op, Params};

/// Buffers for an answer and for the value of a write.
#[derive(Debug, Drop)]
pub(crate) struct Room {
    pub answer: Block,
    pub written: Block,
}

pub(crate) fn new_room(alloc: Global, p: &Params) -> Result<Room, NoMemory>
    ensures { IfOk result (IsRoom p.now) }
{
    Ok(Room {
        answer: new_block(alloc, p)?,
        written: new_block(alloc, p)?,
    })
}

fn new_block(alloc: Global, p: &Params) -> Result<Block, NoMemory>
    ensures { IfOk result (λ block. length block ≡ p.now.b) }
{
    Ok(Block::from_vec(vec![in alloc; 0; p.b() as usize]?))
}

/// Takes the last of the buffers.
pub(crate) fn take_room(p: &Params, rooms: &mut Vec<Room>) -> Room
    requires some { 0 < vec_len rooms.old }
    requires each { All (IsRoom p.now) rooms.old.items }
    ensures room { IsRoom p.now result }
    ensures left { All (IsRoom p.now) rooms.new.items }
    ensures len { vec_len rooms.new + 1 ≡ vec_len rooms.old }
{
    match rooms.pop() {
        Some(room) => room,
        None => unreachable!(),
    }
}

/// The same operation; a write's value is copied into this buffer.
pub(crate) fn copy_op(op: &Op, mut room: Block) -> Op
    requires { FitsIn room op.now }
    ensures { result ≡ op.now }
{
    match op {
        Op::Read(block) => Op::Read(*block),
        Op::Write(block, value) => {
            room.as_mut_slice().copy_from_slice(value.as_slice());
            Op::Write(*block, room)
        }
        Op::Pad => Op::Pad,
    }
}
