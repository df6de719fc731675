//! The queue of a block: its requests from the real one under way on, each linked to the next.
ghost use Rattle.std.specs.Prelude.{◌≡◌, ◌<◌, length, slice_set, Some, false};
ghost use Rattle.tao_requests.specs.Queues.{last_on, linked, kind_after, IsWithin, CanEnter, kind_entering, lasts_entered, lasts_left, waits_entered, IsOnBlockOf};
ghost use Rattle.tao_model.specs.Events.{is_pad_op};
ghost use Rattle.tao_requests.specs.State.{first_answer};

use crate::request::Kind;
use std::alloc::Global;
use tao_base::{Block, Op};

/// A request's next one on its block, and until it is settled a buffer for its answer.
#[derive(Debug, Drop)]
pub(crate) struct Wait {
    pub next: Option<usize>,
    pub room: Block,
}

/// Appends the request of this number to its block's queue. It is real if the queue was empty.
pub(crate) fn enqueue(
    lasts: &mut [Option<usize>],
    waits: &mut [Wait],
    block: u32,
    number: usize,
) -> Kind
    requires block { block < length lasts.old }
    requires last { IsWithin (last_on lasts.old block) (length waits.old) }
    ensures kind { result ≡ kind_after (last_on lasts.old block) }
    ensures lasts { lasts.new ≡ slice_set lasts.old block (Some number) }
    ensures waits { waits.new ≡ linked waits.old (last_on lasts.old block) number }
{
    match lasts[block as usize].replace(number) {
        Some(last) => {
            waits[last].next = Some(number);
            Kind::Fake
        }
        None => Kind::Real,
    }
}

/// Appends the request of this number to its block's queue; a pad enters none.
pub(crate) fn enter(lasts: &mut [Option<usize>], waits: &mut [Wait], op: &Op, number: usize) -> Kind
    requires { CanEnter lasts.old (length waits.old) op.now }
    ensures kind { result ≡ kind_entering lasts.old op.now }
    ensures lasts { lasts.new ≡ lasts_entered lasts.old op.now number }
    ensures waits { waits.new ≡ waits_entered waits.old lasts.old op.now number }
{
    match op {
        Op::Read(block) | Op::Write(block, _) => enqueue(lasts, waits, *block, number),
        Op::Pad => Kind::Fake,
    }
}

/// Empties the queue of the operation's block.
pub(crate) fn leave(lasts: &mut [Option<usize>], op: &Op)
    requires { IsOnBlockOf lasts.old op.now }
    ensures { lasts.new ≡ lasts_left lasts.old op.now }
{
    match op {
        Op::Read(block) | Op::Write(block, _) => lasts[*block as usize] = None,
        Op::Pad => {}
    }
}

/// A request's first answer, and the buffer for a later one: a pad is answered at once, and its buffer is freed.
pub(crate) fn first_answer(alloc: Global, op: &Op, room: Block) -> (Option<Block>, Block)
    ensures answer { result.0 ≡ first_answer op.now }
    ensures room { is_pad_op op.now ≡ false → result.1 ≡ room }
{
    match op {
        Op::Read(_) | Op::Write(_, _) => (None, room),
        Op::Pad => (Some(Block::new(alloc)), Block::new(alloc)),
    }
}
