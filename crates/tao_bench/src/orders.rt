//! Work that goes through the order queue, and through the plain queue that it stands on.
ghost use Rattle.std.specs.Prelude.{◌≡◌};
ghost use Rattle.tao_orders.specs.Passes.{IsPutPassOf, IsTakePassOf};

use crossbeam_queue::ArrayQueue;
use std::alloc::Global;
use std::sync::Wait;
use tao_base::NoMemory;
use tao_orders::{Orders, Work};

/// Puts and takes this many Stops.
pub(crate) fn orders<R: Wait>(rt: &R, alloc: Global, count: u32) -> Result<u64, NoMemory> {
    let (orders, mut putting, mut taking) = Orders::new(alloc, 16)?;
    let mut sum = 0u64;
    for _ in 0..count {
        match orders.put(rt, &mut putting, Work::Stop) {
            Ok(()) => {}
            Err(_) => return Ok(0),
        }
        if orders.take(rt, &mut taking).is_some() {
            sum = sum.wrapping_add(1);
        }
    }
    Ok(sum)
}

/// The same through the plain queue.
pub(crate) fn plain<R: Wait>(rt: &R, alloc: Global, count: u32) -> Result<u64, NoMemory> {
    let queue = ArrayQueue::new(alloc, 16)?;
    let mut sum = 0u64;
    for _ in 0..count {
        match queue.push(rt, Work::Stop) {
            Ok(()) => {}
            Err(_) => return Ok(0),
        }
        if queue.pop(rt).is_some() {
            sum = sum.wrapping_add(1);
        }
    }
    Ok(sum)
}
