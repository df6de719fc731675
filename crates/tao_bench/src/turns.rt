//! Turns of one thread compared with std's lock, and glances compared with loads.
ghost use Rattle.std.specs.Prelude.{◌≡◌, [], None};
ghost use Rattle.std.proofs.Common.{rules};
ghost use Rattle.tao_turn.specs.Passes.{IsPassOf};

use anyhow::bail;
use std::alloc::Global;
use std::sync::atomic::{AtomicU64, Ordering};
use std::sync::{Mutex, Wait};
use tao_turn::{Journal, TurnLock, TurnPass};

/// A value without entries, whose mark is 1.
#[derive(Drop)]
struct Quiet {
    turns: u64,
}

impl Journal for Quiet {
    type Entry = u64;

    ghost entries = { λ quiet. [] };

    ghost mark_of = { λ list. 1 };

    ghost maker = { λ list i. None };

    ghost mark_grows = { Prim.search rules };

    ghost maker_stays = { Prim.search rules };

    fn mark(&self) -> u64 {
        1
    }
}

/// Takes this many turns.
pub(crate) fn turns<R: Wait>(rt: &R, alloc: Global, count: u32) -> Result<u64, anyhow::Error> {
    match TurnLock::new(alloc, Quiet { turns: 0 }, 1) {
        Ok((lock, pass)) => {
            let pass = take_turns(rt, &lock, pass, count);
            match lock.close(pass) {
                Ok(quiet) => Ok(quiet.turns),
                Err(_) => bail!("a turn was left out"),
            }
        }
        Err(_) => bail!("no memory"),
    }
}

fn take_turns<R: Wait>(
    rt: &R,
    lock: &TurnLock<Quiet>,
    pass: TurnPass<u64>,
    count: u32,
) -> TurnPass<u64>
    requires { IsPassOf lock.now pass }
    ensures { IsPassOf lock.now result }
{
    let mut pass = pass;
    for _ in 0..count {
        let mut held = lock.enter(rt, pass);
        let quiet = held.value();
        quiet.turns = quiet.turns.wrapping_add(1);
        pass = lock.leave(held);
    }
    pass
}

/// The same under std's lock.
pub(crate) fn mutex<R: Wait>(rt: &R, count: u32) -> u64 {
    let turns = Mutex::new(0u64);
    for _ in 0..count {
        let mut held = turns.lock(rt);
        *held = held.wrapping_add(1);
    }
    turns.into_inner()
}

/// Glances this many times, and sums the marks.
pub(crate) fn glances<R: Wait>(rt: &R, alloc: Global, count: u32) -> Result<u64, anyhow::Error> {
    match TurnLock::new(alloc, Quiet { turns: 0 }, 1) {
        Ok((lock, pass)) => {
            let mut pass = take_turns(rt, &lock, pass, 1);
            Ok(glance_often(&lock, &mut pass, count))
        }
        Err(_) => bail!("no memory"),
    }
}

fn glance_often(lock: &TurnLock<Quiet>, pass: &mut TurnPass<u64>, count: u32) -> u64
    requires { IsPassOf lock.now pass.old }
{
    let mut sum = 0u64;
    for _ in 0..count {
        sum = sum.wrapping_add(lock.glance(pass));
    }
    sum
}

/// Loads an atomic 1 this many times, and sums what it loads.
pub(crate) fn loads(count: u32) -> u64 {
    let word = AtomicU64::new(1);
    let mut sum = 0u64;
    for _ in 0..count {
        sum = sum.wrapping_add(word.load(Ordering::SeqCst));
    }
    sum
}
