//! How the requests of a block are settled, one after another.
ghost use Rattle.std.specs.Prelude.{◌≡◌, length, true};
ghost use Rattle.tao_model.specs.Events.{names};
ghost use Rattle.tao_requests.specs.State.{request_at, block_of};
ghost use Rattle.tao_requests.specs.Settling.{answered, value_after, settled_from, value_from};
ghost use Rattle.tao_requests.specs.Rooms.{FitsIn};
ghost use Rattle.tao_requests.specs.Queues.{IsQueue, LeavesOthers};

use crate::queues::Wait;
use crate::request::Request;
use std::alloc::Global;
use std::mem;
use tao_base::{Block, Op};

/// Answers the request with the value before it, in its buffer, and leaves the value after it.
fn answer(alloc: Global, request: &mut Request, room: &mut Block, value: &mut Block)
    requires room { length room.old ≡ length value.old }
    requires written { FitsIn value.old request.old.op }
    ensures request { request.new ≡ answered request.old value.old }
    ensures value { value.new ≡ value_after value.old request.old.op }
{
    let mut before = mem::replace(room, Block::new(alloc));
    before.as_mut_slice().copy_from_slice(value.as_slice());
    request.answer = Some(before);
    if let Op::Write(_, written) = &request.op {
        value.as_mut_slice().copy_from_slice(written.as_slice());
    }
}

/// Answers this request and the later ones in its block's queue, each with the value before it, and leaves the value after the last.
pub(crate) fn settle_queue(
    alloc: Global,
    requests: &mut [Request],
    waits: &mut [Wait],
    first: usize,
    value: &mut Block,
)
    requires first { names (block_of requests.old first) (request_at requests.old first).op ≡ true }
    requires queue { IsQueue (block_of requests.old first) first value.old requests.old waits.old }
    ensures requests { requests.new ≡ settled_from first (block_of requests.old first) value.old requests.old }
    ensures value { value.new ≡ value_from first (block_of requests.old first) value.old requests.old }
    ensures len { length value.new ≡ length value.old }
    ensures waits { LeavesOthers (block_of requests.old first) requests.old waits.old waits.new }
{
    let mut number = first;
    loop {
        let wait = &mut waits[number];
        answer(alloc, &mut requests[number], &mut wait.room, value);
        match wait.next {
            Some(next) => number = next,
            None => return,
        }
    }
}
