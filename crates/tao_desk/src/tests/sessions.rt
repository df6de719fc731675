//! Whole sessions, with answers in any order.
use super::{Session, begin, block, one_block, turn, write};
use crate::{ArriveFault, Ask, Desk};
use std::alloc::Global;
use std::process::Abort;
use tao_base::{Blocks, Form, Image, Op, Params};
use tao_tape::{KeyTape, ListTape, ScriptTape, Tape};

fn is_send<T: Send>(_: &T) {}

// one block is read, written and read; each fetch goes where the one before has moved it
#[test]
fn read_then_write(rt: HostRuntime) {
    let alloc = rt.alloc();
    let p = Params::new(2, 2, 4, 2, 1).expect(&rt, "parameters");
    let mut desk = begin(alloc, &rt, p, &[0, 3, 2, 1, 2], &[0x61; 4]);
    assert_eq!(rt; desk.access(&rt, Op::Read(0), &[1, 2, 4]), 1);
    desk.acked(&rt, 1);
    assert_eq!(rt; desk.access(&rt, write(alloc, &rt, 0, 0x62), &[1, 3, 6]), 2);
    desk.acked(&rt, 2);
    assert_eq!(rt; desk.access(&rt, Op::Read(0), &[1, 2, 5]), 3);
    assert!(rt; desk.is_answered(0, &[0x61; 4]));
    assert!(rt; desk.is_answered(1, &[0x61; 4]));
    assert!(rt; desk.is_answered(2, &[0x62; 4]));
    assert_eq!(rt; desk.released(), 3);
    assert!(rt; desk.is_first_outstanding(3));
    drop(desk);
}

// Three operations on one block, of which the second and the third fetch as fakes, are answered in this order. Nothing is told before
// the first, which is real, is done.
fn overlapping(alloc: Global, rt: &impl Abort, second: Op, last: &[u8]) {
    let p = Params::new(2, 2, 4, 2, 3).expect(rt, "parameters");
    let mut desk = begin(alloc, rt, p, &[0, 3, 1, 2, 3], &[0x61; 4]);
    let first = desk.arrive(rt, Op::Read(0));
    let second = desk.arrive(rt, second);
    let third = desk.arrive(rt, Op::Read(0));
    assert_eq!(rt; first.leaf(), 0);
    assert_eq!(rt; second.leaf(), 2);
    assert_eq!(rt; third.leaf(), 3);
    assert_eq!(rt; desk.serve(rt, third, &[1, 3, 7]), 0);
    assert_eq!(rt; desk.serve(rt, second, &[1, 3, 6]), 0);
    assert_eq!(rt; desk.released(), 0);
    assert_eq!(rt; desk.serve(rt, first, &[1, 2, 4]), 1);
    assert_eq!(rt; desk.released(), 3);
    assert!(rt; desk.is_answered(0, &[0x61; 4]));
    assert!(rt; desk.is_answered(1, &[0x61; 4]));
    assert!(rt; desk.is_answered(2, last));
    drop(desk);
}

#[test]
fn reads_overlap(rt: HostRuntime) {
    let alloc = rt.alloc();
    overlapping(alloc, &rt, Op::Read(0), &[0x61; 4]);
}

#[test]
fn reads_overlap_a_write(rt: HostRuntime) {
    let alloc = rt.alloc();
    overlapping(alloc, &rt, write(alloc, &rt, 0, 0x62), &[0x62; 4]);
}

// A session of one block, which lies on the right, with a period of two.
fn two_to_fetch(alloc: Global, rt: &impl Abort) -> Session<ListTape> {
    let p = Params::new(1, 1, 4, 1, 2).expect(rt, "parameters");
    begin(alloc, rt, p, &[1, 0, 1], &[0; 4])
}

// A write of the block, and a read of it, which fetches as a fake.
fn write_and_read(alloc: Global, rt: &impl Abort, desk: &mut Session<ListTape>) -> (Ask, Ask) {
    let real = desk.arrive(rt, write(alloc, rt, 0, 0x62));
    let fake = desk.arrive(rt, Op::Read(0));
    assert_eq!(rt; real.leaf(), 1);
    assert_eq!(rt; fake.leaf(), 1);
    (real, fake)
}

// The last answer of the period has the path from before the write, too. Both paths are written back, and the read has the new value.
fn last_of_two(rt: &impl Abort, desk: &mut Session<ListTape>, ask: Ask, path: &Image) {
    let order = desk.answer(rt, ask, path).expect(rt, "an order");
    assert!(rt; order.nodes.as_slice() == [1, 3].as_slice());
    assert!(rt; desk.is_answered(0, &[0; 4]));
    assert!(rt; desk.is_answered(1, &[0x62; 4]));
}

// the fake's answer brings the old bucket to a path that is resident: it isn't read
#[test]
fn fake_done_last(rt: HostRuntime) {
    let alloc = rt.alloc();
    let mut desk = two_to_fetch(alloc, &rt);
    let path = desk.path(&rt, &[1, 3]);
    let (real, fake) = write_and_read(alloc, &rt, &mut desk);
    assert!(rt; desk.answer(&rt, real, &path).is_none());
    assert_eq!(rt; desk.released(), 1);
    last_of_two(&rt, &mut desk, fake, &path);
    drop(desk);
}

#[test]
fn fake_done_first(rt: HostRuntime) {
    let alloc = rt.alloc();
    let mut desk = two_to_fetch(alloc, &rt);
    let path = desk.path(&rt, &[1, 3]);
    let (real, fake) = write_and_read(alloc, &rt, &mut desk);
    assert!(rt; desk.answer(&rt, fake, &path).is_none());
    assert_eq!(rt; desk.released(), 0);
    last_of_two(&rt, &mut desk, real, &path);
    drop(desk);
}

// an acknowledgement releases the nodes that no fetch under way covers
#[test]
fn kept_under_a_fetch(rt: HostRuntime) {
    let alloc = rt.alloc();
    let p = Params::new(2, 2, 4, 2, 1).expect(&rt, "parameters");
    let mut desk = begin(alloc, &rt, p, &[0, 3, 1, 2], &[0; 4]);
    desk.access(&rt, Op::Read(0), &[1, 2, 4]);
    assert_eq!(rt; desk.residents(), 3);
    let ask = desk.arrive(&rt, Op::Read(1));
    desk.acked(&rt, 1);
    assert!(rt; desk.is_resident(1));
    assert!(rt; !desk.is_resident(2));
    assert!(rt; !desk.is_resident(4));
    assert_eq!(rt; desk.residents(), 1);
    assert_eq!(rt; desk.serve(&rt, ask, &[1, 3, 7]), 2);
    drop(desk);
}

// a period of three is full with its third answer, and all three paths are written back
#[test]
fn no_write_back_before_the_period(rt: HostRuntime) {
    let alloc = rt.alloc();
    let p = Params::new(1, 1, 4, 1, 3).expect(&rt, "parameters");
    let mut desk = begin(alloc, &rt, p, &[0, 1, 0, 1, 0, 1, 0], &[0; 4]);
    read_on_path(&rt, &mut desk, 0, 0);
    read_on_path(&rt, &mut desk, 1, 0);
    read_on_path(&rt, &mut desk, 0, 1);
    acknowledge(&rt, &mut desk, 1);
    read_on_path(&rt, &mut desk, 1, 0);
    read_on_path(&rt, &mut desk, 0, 0);
    read_on_path(&rt, &mut desk, 1, 2);
    acknowledge(&rt, &mut desk, 2);
    drop(desk);
}

// A read of the block on the path of this leaf in the tree of three nodes, and the version of what is then written back, or 0.
fn read_on_path(rt: &impl Abort, desk: &mut Session<ListTape>, leaf: u32, version: u32) {
    assert!(rt; leaf < 2);
    assert_eq!(rt; desk.access(rt, Op::Read(0), &[1, 2 + leaf]), version);
}

// The only write-back is acknowledged, and nothing is held any more.
fn acknowledge(rt: &impl Abort, desk: &mut Session<ListTape>, version: u32) {
    assert!(rt; desk.is_first_outstanding(version));
    desk.acked(rt, version);
    assert_eq!(rt; desk.residents(), 0);
}

// Without tags, a bucket that was altered and still is one is taken in.
fn altered(alloc: Global, rt: &impl Abort, at: usize, value: &[u8]) {
    let mut desk = begin(alloc, rt, one_block(rt, Form::One), &[1, 0], &[0; 4]);
    let mut path = desk.path(rt, &[1, 3]);
    turn(rt, &mut path, at, 1);
    let ask = desk.arrive(rt, Op::Read(0));
    desk.answer(rt, ask, &path);
    assert!(rt; desk.is_answered(0, value));
    drop(desk);
}

// another value is answered, or, where the block is missing, zeros
#[test]
fn altered_values(rt: HostRuntime) {
    let alloc = rt.alloc();
    altered(alloc, &rt, 52, &[1, 0, 0, 0]);
    altered(alloc, &rt, 51, &[0; 4]);
}

// The buckets of another session, with these words, are taken in; this value is answered.
fn foreign(alloc: Global, rt: &impl Abort, words: &[u32], value: &[u8]) {
    let foreign = begin(alloc, rt, one_block(rt, Form::One), words, &[0x7a; 4]);
    let mut desk = begin(alloc, rt, one_block(rt, Form::One), &[1, 0], &[0x61; 4]);
    let path = foreign.path(rt, &[1, 3]);
    drop(foreign);
    let ask = desk.arrive(rt, Op::Read(0));
    desk.answer(rt, ask, &path);
    assert!(rt; desk.is_answered(0, value));
    drop(desk);
}

// another session's bucket in the place of the block's: its value is answered, or, where it has no block, zeros
#[test]
fn foreign_buckets(rt: HostRuntime) {
    let alloc = rt.alloc();
    foreign(alloc, &rt, &[1, 0], &[0x7a; 4]);
    foreign(alloc, &rt, &[0, 0], &[0; 4]);
}

// A pad, on the path of its word, whose write-back is acknowledged.
fn quiet<T: Tape + Drop>(rt: &impl Abort, desk: &mut Session<T>) {
    let ask = desk.arrive(rt, Op::Pad);
    finish(rt, desk, ask);
}

// A fetch of the tree of three nodes is answered, and what is written back is acknowledged.
fn finish<T: Tape + Drop>(rt: &impl Abort, desk: &mut Session<T>, ask: Ask) {
    let leaf = ask.leaf();
    assert!(rt; leaf < 2);
    let version = desk.serve(rt, ask, &[1, 2 + leaf]);
    if version > 0 {
        desk.acked(rt, version);
    }
}

// A session of one block with the tape of a key.
fn keyed(alloc: Global, rt: &impl Abort, p: Params) -> Session<ScriptTape> {
    let tape = ScriptTape::Key(KeyTape::new([0; 32]));
    assert!(rt; u64::from(p.n()) <= tape.left());
    let mut blocks = Blocks::new(alloc);
    blocks.push(block(alloc, rt, &[0; 4])).expect(rt, "memory");
    let desk = Desk::start(alloc, p, [0; 32], tape, blocks).expect(rt, "a desk");
    is_send(&desk);
    Session::behind(alloc, rt, desk)
}

// the last of 65,536 arrivals is the last, and is still done
#[test]
fn full_session(rt: HostRuntime) {
    let alloc = rt.alloc();
    let p = Params::new(1, 1, 4, 1, 64).expect(&rt, "parameters");
    let mut desk = keyed(alloc, &rt, p);
    for _ in 0..65_535 {
        quiet(&rt, &mut desk);
    }
    let ask = desk.arrive(&rt, Op::Pad);
    assert_eq!(rt; ask.arrival(), 65_535);
    assert!(rt; desk.refuses(Op::Pad, ArriveFault::SessionFull));
    finish(&rt, &mut desk, ask);
    assert_eq!(rt; desk.released(), 65_536);
    drop(desk);
}
