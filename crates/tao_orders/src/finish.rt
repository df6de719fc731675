//! What is left at the end.
ghost use Rattle.std.specs.Prelude.{◌≡◌, ◌+◌, ◌<◌, ◌≤◌, ◌++◌, true, [], take, drop, length, vec_capacity};
ghost use Rattle.crossbeam_queue.specs.Passes.{view, IsPassOf};
ghost use Rattle.tao_orders.specs.Works.{IsLeft};

use crate::hand::{Line, LinePass};
use crate::orders::{Orders, wait_unless};
use crate::passes::{PutPass, TakePass};
use crate::plays::{Drains, Ends};
use crate::work::Work;
use std::sync::Wait;
use tao_base::Items;

/// The work that nobody took, in order.
pub type Left = Items<Work>;

impl Orders {
    ghost use Rattle.tao_orders.specs.Passes.{IsPutPassOf, IsTakePassOf, put_of, works_of, share_of};

    /// Takes out what nobody took, a suffix of what was put. If all taking passes were joined to this one, it took all that comes before.
    pub fn finish<R: Wait>(self, rt: &R, put: PutPass, take: TakePass) -> Left
        requires passes { IsPutPassOf self put × IsTakePassOf self take }
        ensures { IsLeft (put_of put) (works_of take) (share_of take) result }
    {
        let Orders { line, room } = self;
        let PutPass {
            pass: putting,
            count,
        } = put;
        let TakePass { mut pass } = take;
        line.absorb::<Ends>(&mut pass, putting);
        Left::from_vec(drained(rt, &line, pass, count, room))
    }
}

// The pieces that the queue holds: consecutive ones up to the last that was put, since nobody else puts or takes any more.
fn drained<R: Wait>(
    rt: &R,
    line: &Line,
    mut pass: LinePass,
    count: u64,
    room: Vec<Work>,
) -> Vec<Work>
    requires pass { IsPassOf line.now pass }
    requires puts { (view pass).puts ≡ true }
    requires count { count ≡ length (view pass).put }
    requires owns { 0 < length (view pass).share }
    requires room { (room.items ≡ []) × (0 < vec_capacity room) }
    ensures { IsLeft (view pass).put (view pass).took (view pass).share result.items }
{
    let slip = match line.pop_as::<Drains, R>(rt, &mut pass) {
        Some(slip) => slip,
        None => return room,
    };
    let mut left = room;
    left.push_reserved(slip.work);
    drain_rest(rt, line, &mut pass, count, slip.number, &mut left);
    left
}

// The pieces after the first one, which has the number `from`.
fn drain_rest<R: Wait>(
    rt: &R,
    line: &Line,
    pass: &mut LinePass,
    count: u64,
    from: u64,
    left: &mut Vec<Work>,
)
    requires pass { IsPassOf line.now pass.old }
    requires puts { (view pass.old).puts ≡ true }
    requires count { count ≡ length (view pass.old).put }
    requires owns { 0 < length (view pass.old).share }
    requires from { from < count }
    requires one { length left.old.items ≡ 1 }
    requires first { left.old.items ≡ take 1 (drop from (view pass.old).put) }
    ensures { left.new.items ≡ drop from (view pass.old).put }
{
    let mut next = from + 1;
    for _ in rt.forever() {
        match line.pop_as::<Drains, R>(rt, pass) {
            Some(slip) => {
                wait_unless(rt, slip.number == next);
                wait_unless(rt, left.len() < left.capacity());
                left.push_reserved(slip.work);
                next += 1;
            }
            None => {
                wait_unless(rt, next == count);
                return;
            }
        }
    }
    unreachable!()
}
