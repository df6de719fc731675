ghost use Rattle.std.specs.Prelude.{◌≡◌, ◌∷◌, ◌++◌, [], true, IfOk, OnOk, OnErr};
ghost use Rattle.tao_turn.specs.Lists.{has};
ghost use Rattle.tao_turn.specs.Notes.{greatest, made_by, greatest_grows, maker_stays};
ghost use Rattle.tao_turn.specs.Passes.{IsPassOf, known};

use crate::{Journal, LeftOut, TurnLock, TurnPass};
use std::alloc::{AllocError, Global};
use std::sync::Wait;
use std::test::Fail;
use std::{mem, thread};

// Notes, each with the share under which it was made and a mark; the journal's mark is the greatest one.
#[derive(Drop)]
struct Notes {
    notes: Vec<(u32, u64)>,
    mark: u64,
    ghost marked: { mark ≡ greatest notes.items },
}

impl Journal for Notes {
    type Entry = (u32, u64);

    ghost entries = { λ n. n.notes.items };

    ghost mark_of = { greatest };

    ghost maker = { made_by };

    ghost mark_grows = { greatest_grows };

    ghost maker_stays = { maker_stays };

    fn mark(&self) -> u64 {
        self.mark
    }
}

impl Notes {
    fn new(alloc: Global) -> Notes {
        Notes {
            notes: Vec::new(alloc),
            mark: 0,
        }
    }

    #[tactic(auto, using(crate::proofs::NoteLemmas::greatest_more))]
    fn write(&mut self, by: u32, mark: u64) -> Result<(), AllocError>
        ensures ok { OnOk result (self.new.notes.items ≡ self.old.notes.items ++ (by, mark) ∷ []) }
        ensures err { OnErr result (self.new.notes.items ≡ self.old.notes.items) }
    {
        self.notes.push((by, mark))?;
        self.mark = self.mark.max(mark);
        Ok(())
    }
}

type Pass = TurnPass<(u32, u64)>;

// A lock of two shares, and the passes with the share 0 and with the share 1.
fn two_passes(alloc: Global) -> Result<(TurnLock<Notes>, Pass, Pass), Fail>
    ensures passes { IfOk result (λ r. IsPassOf r.0 r.1 × IsPassOf r.0 r.2) }
    ensures shares { IfOk result (λ r. ((known r.1).shares ≡ 0 ∷ []) × ((known r.2).shares ≡ 1 ∷ [])) }
{
    match TurnLock::new(alloc, Notes::new(alloc), 2) {
        Ok((lock, mut first)) => {
            let second = lock.split(&mut first, 1);
            Ok((lock, first, second))
        }
        Err(_) => Err(AllocError.into()),
    }
}

// A turn that writes a note. A blank lies behind the `&mut` meanwhile.
#[tactic(auto, using(crate::proofs::NoteLemmas::own_note, crate::proofs::NoteLemmas::no_note))]
fn note<R: Wait>(rt: &R, lock: &TurnLock<Notes>, pass: &mut Pass, by: u32, mark: u64)
    requires pass { IsPassOf lock.now pass.old }
    requires share { has by (known pass.old).shares ≡ true }
    ensures pass { IsPassOf lock.now pass.new }
    ensures shares { (known pass.new).shares ≡ (known pass.old).shares }
{
    let mut held = lock.enter(rt, mem::replace(pass, TurnPass::blank()));
    match held.value().write(by, mark) {
        Ok(()) => {}
        Err(_) => {}
    }
    *pass = lock.leave(held);
}

// Many turns, each with a note.
fn many_notes<R: Wait>(rt: &R, lock: &TurnLock<Notes>, pass: Pass, by: u32, count: u64) -> Pass
    requires pass { IsPassOf lock.now pass }
    requires share { has by (known pass).shares ≡ true }
    ensures pass { IsPassOf lock.now result }
{
    let mut pass = pass;
    for mark in 0..count {
        note(rt, lock, &mut pass, by, mark);
    }
    pass
}

// What is left out if a turn is forgotten after so many others.
fn forgotten_after<R: Wait>(rt: &R, alloc: Global, count: u64) -> Result<Option<LeftOut>, Fail> {
    let (lock, first, second) = two_passes(alloc)?;
    let second = many_notes(rt, &lock, second, 1, count);
    mem::forget(lock.enter(rt, first));
    match lock.close(second) {
        Ok(_) => Ok(None),
        Err(left_out) => Ok(Some(left_out)),
    }
}

#[test]
fn two_threads_take_turns(rt: HostRuntime) -> Result<(), Fail> {
    let (lock, first, second) = two_passes(rt.alloc())?;
    let shared = &lock;
    let (mut first, second) = thread::join(
        &rt,
        move ||
            requires { IsPassOf shared.now first × ((known first).shares ≡ 0 ∷ []) }
            ensures { IsPassOf shared.entry.now result }
        { many_notes(&rt, shared, first, 0, 2_000) },
        move ||
            requires { IsPassOf shared.now second × ((known second).shares ≡ 1 ∷ []) }
            ensures { IsPassOf shared.entry.now result }
        { many_notes(&rt, shared, second, 1, 2_000) },
    );
    lock.join(&mut first, second);
    match lock.close(first) {
        Ok(notes) => {
            assert_eq!(rt; notes.notes.len(), 4_000);
            assert_eq!(rt;
                notes.notes.iter().filter(|note| note.0 == 1).count(),
                2_000
            );
            assert_eq!(rt; notes.mark(), 1_999);
        }
        Err(_) => assert!(rt; false),
    }
    Ok(())
}

#[test]
fn a_forgotten_turn_is_told(rt: HostRuntime) -> Result<(), Fail> {
    for (count, ticket, serving) in [(0, 1, 0), (1, 2, 1), (3, 4, 3)] {
        match forgotten_after(&rt, rt.alloc(), count)? {
            Some(left_out) => {
                assert_eq!(rt; (left_out.ticket, left_out.serving), (ticket, serving));
            }
            None => assert!(rt; false),
        }
    }
    Ok(())
}

#[test]
#[tactic(auto, using(crate::proofs::NoteLemmas::no_note))]
fn every_pass_glances_the_mark(rt: HostRuntime) -> Result<(), Fail> {
    let (lock, mut first, mut second) = two_passes(rt.alloc())?;
    assert_eq!(rt; lock.glance(&mut second), 0);
    note(&rt, &lock, &mut first, 0, 1);
    assert_eq!(rt; lock.glance(&mut second), 1);
    note(&rt, &lock, &mut first, 0, u64::MAX);
    assert_eq!(rt; lock.glance(&mut first), u64::MAX);
    assert_eq!(rt; lock.glance(&mut second), u64::MAX);
    let held = lock.enter(&rt, first);
    assert_eq!(rt; held.read().mark(), u64::MAX);
    lock.leave(held);
    Ok(())
}
