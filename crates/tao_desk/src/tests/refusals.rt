//! What is refused, and what it leaves.
use super::{Session, begin, block, no_order, one_block, start, turn, write};
use crate::{AckFault, AgainFault, ArriveFault, Ask, DoneFault, ScanFault, StartFault};
use std::alloc::Global;
use std::process::Abort;
use tao_base::{Blocks, BucketFault, Cause, Form, Image, Op, Order, Params};
use tao_tape::ListTape;

// A session of one block, whose buckets have this form.
fn session(alloc: Global, rt: &impl Abort, form: Form) -> Session<ListTape> {
    begin(alloc, rt, one_block(rt, form), &[1, 0], &[0; 4])
}

// The fetch of another session's first arrival.
fn strange_ask(alloc: Global, rt: &impl Abort, op: Op) -> Ask {
    let mut other = session(alloc, rt, Form::One);
    let ask = other.arrive(rt, op);
    drop(other);
    ask
}

// Whether a session of one block can't begin with first values of these lengths, for this reason.
fn refuses_to_start(alloc: Global, rt: &impl Abort, lens: &[usize], fault: StartFault) -> bool {
    let mut blocks = Blocks::new(alloc);
    for len in lens {
        assert!(rt; *len <= 8);
        blocks
            .push(block(alloc, rt, &[0; 8][..*len]))
            .expect(rt, "memory");
    }
    start(alloc, rt, one_block(rt, Form::One), &[1, 0], blocks).err() == Some(fault)
}

#[test]
fn refused_starts(rt: HostRuntime) {
    let alloc = rt.alloc();
    assert!(rt; refuses_to_start(alloc, &rt, &[], StartFault::BlockCount));
    assert!(rt; refuses_to_start(alloc, &rt, &[8], StartFault::BlockLength));
    assert!(rt; refuses_to_start(alloc, &rt, &[4, 8], StartFault::BlockCount));
}

#[test]
fn numbers_of_faults(rt: HostRuntime) {
    let starting = [
        StartFault::BlockCount as u8,
        StartFault::BlockLength as u8,
        StartFault::Memory as u8,
    ];
    assert_eq!(rt; starting, [1, 2, 3]);
    let arriving = [
        ArriveFault::Down as u8,
        ArriveFault::SessionFull as u8,
        ArriveFault::NoBlock as u8,
        ArriveFault::BlockLength as u8,
        ArriveFault::Memory as u8,
    ];
    assert_eq!(rt; arriving, [1, 2, 3, 4, 5]);
}

// a refused operation is no event, and takes no word of the tape, whose last word ends the session
#[test]
fn refused_operations(rt: HostRuntime) {
    let alloc = rt.alloc();
    let mut desk = begin(alloc, &rt, one_block(&rt, Form::One), &[0, 1], &[0; 4]);
    assert!(rt; desk.refuses(Op::Read(1), ArriveFault::NoBlock));
    let long = block(alloc, &rt, &[0x61; 8]);
    assert!(rt; desk.refuses(Op::Write(0, long), ArriveFault::BlockLength));
    assert_eq!(rt; desk.events(), 0);
    let ask = desk.arrive(&rt, Op::Pad);
    assert_eq!(rt; ask.arrival(), 0);
    assert_eq!(rt; ask.leaf(), 1);
    assert!(rt; desk.refuses(Op::Pad, ArriveFault::SessionFull));
    drop(desk);
}

// the first failure counts, and nothing can be done any more
#[test]
fn failed_links(rt: HostRuntime) {
    let alloc = rt.alloc();
    let mut desk = session(alloc, &rt, Form::One);
    desk.fail(3);
    desk.fail(5);
    assert!(rt; desk.is_down_by(Cause::Link { link: 3 }));
    assert_eq!(rt; desk.events(), 1);
    assert!(rt; desk.refuses(Op::Read(0), ArriveFault::Down));
    assert!(rt; desk.refuses_ack(1, AckFault::Down));
    let (desk, fault) = desk.refused_scan(&rt);
    assert_eq!(rt; fault, ScanFault::Down);
    assert_eq!(rt; desk.events(), 1);
    drop(desk);
}

// A session whose first write-back is outstanding, and the order of that.
fn with_an_order(alloc: Global, rt: &impl Abort) -> (Session<ListTape>, Order) {
    let mut desk = session(alloc, rt, Form::One);
    let ask = desk.arrive(rt, Op::Read(0));
    let path = desk.path(rt, &[1, 3]);
    let order = desk.answer(rt, ask, &path).expect(rt, "an order");
    (desk, order)
}

// a write-back is made again, byte by byte
#[test]
fn orders_again(rt: HostRuntime) {
    let alloc = rt.alloc();
    let (desk, order) = with_an_order(alloc, &rt);
    let mut again = no_order(alloc);
    desk.order_again(&rt, 1, &mut again);
    assert_eq!(rt; again.version, 1);
    assert_eq!(rt; again.nonce, 4);
    assert!(rt; again.nodes.as_slice() == [1, 3].as_slice());
    assert!(rt; again.image.as_slice() == order.image.as_slice());
    drop(desk);
}

// only what is outstanding is acknowledged or made again
#[test]
fn strange_versions(rt: HostRuntime) {
    let alloc = rt.alloc();
    let (mut desk, order) = with_an_order(alloc, &rt);
    let mut again = no_order(alloc);
    assert!(rt; desk.refuses_ack(2, AckFault::Stranger));
    assert!(rt; desk.refuses_again(2, &mut again, AgainFault::Stranger));
    assert_eq!(rt; again.version, 0);
    desk.acked(&rt, 1);
    assert!(rt; desk.refuses_again(1, &mut again, AgainFault::Stranger));
    assert!(rt; desk.refuses_ack(1, AckFault::Stranger));
    assert!(rt; desk.is_issued(&rt, &order));
    drop(desk);
}

// another's bytes are not the session's
#[test]
fn issued_orders(rt: HostRuntime) {
    let alloc = rt.alloc();
    let (desk, _) = with_an_order(alloc, &rt);
    let mut again = no_order(alloc);
    assert!(rt; !desk.is_issued(&rt, &again));
    desk.order_again(&rt, 1, &mut again);
    assert!(rt; desk.is_issued(&rt, &again));
    turn(&rt, &mut again.image, 55, 1);
    assert!(rt; !desk.is_issued(&rt, &again));
    drop(desk);
}

// What is answered where these bytes of the first path are turned.
fn forged(alloc: Global, rt: &impl Abort, form: Form, turned: &[(usize, u8)]) -> Option<DoneFault> {
    let mut desk = session(alloc, rt, form);
    let mut path = desk.path(rt, &[1, 3]);
    for (at, mask) in turned {
        turn(rt, &mut path, *at, *mask);
    }
    let ask = desk.arrive(rt, Op::Read(0));
    let fault = refused(rt, &mut desk, ask, &path);
    drop(desk);
    fault
}

// Why this path is refused. A refusal ends the session, and nothing more is held than before.
fn refused(
    rt: &impl Abort,
    desk: &mut Session<ListTape>,
    ask: Ask,
    path: &Image,
) -> Option<DoneFault> {
    let held = desk.residents();
    let fault = desk.done(rt, ask, path).err();
    if fault.is_some() {
        assert!(rt; desk.is_down());
        assert_eq!(rt; desk.residents(), held);
    }
    fault
}

fn damaged(node: u32, fault: BucketFault) -> Option<DoneFault> {
    Some(DoneFault::Damaged { node, fault })
}

fn stale(node: u32, wanted: u32, found: u32) -> Option<DoneFault> {
    Some(DoneFault::Stale {
        node,
        wanted,
        found,
    })
}

#[test]
fn forged_answers(rt: HostRuntime) {
    let alloc = rt.alloc();
    let table = [
        ([(0, 3), (0, 0)], damaged(1, BucketFault::Format)),
        ([(3, 1), (0, 0)], damaged(1, BucketFault::Padding)),
        ([(7, 2), (0, 0)], damaged(1, BucketFault::Node)),
        ([(11, 1), (0, 0)], stale(1, 0, 1)),
        ([(24, 1), (0, 0)], damaged(1, BucketFault::Dummy)),
        ([(39, 1), (0, 0)], stale(3, 0, 1)),
        ([(48, 0x80), (0, 0)], damaged(3, BucketFault::Id)),
        ([(3, 1), (11, 1)], damaged(1, BucketFault::Padding)),
        ([(52, 1), (0, 0)], None),
        ([(51, 1), (0, 0)], None),
    ];
    for (turned, fault) in table {
        assert_eq!(rt;
            forged(alloc, &rt, Form::One, &turned),
            fault,
            "of {turned:?}"
        );
    }
}

#[test]
fn forged_tagged_answers(rt: HostRuntime) {
    let alloc = rt.alloc();
    for (at, mask, node) in [(11, 1, 1), (24, 1, 1), (112, 1, 3)] {
        let fault = forged(alloc, &rt, Form::Two, &[(at, mask)]);
        assert_eq!(rt; fault, damaged(node, BucketFault::Tag), "of {at}");
    }
}

#[test]
fn swapped_buckets(rt: HostRuntime) {
    let alloc = rt.alloc();
    let mut desk = session(alloc, &rt, Form::One);
    let ask = desk.arrive(&rt, Op::Read(0));
    let path = desk.path(&rt, &[3, 1]);
    let fault = refused(&rt, &mut desk, ask, &path);
    assert!(rt; fault == damaged(1, BucketFault::Node));
    let cause = Cause::Damaged {
        fetch: 0,
        node: 1,
        fault: BucketFault::Node,
    };
    assert!(rt; desk.is_down_by(cause));
    drop(desk);
}

// What is answered where a third fetch meets the root of the load, though write-backs 1 and 2 are acknowledged.
fn old_root(alloc: Global, rt: &impl Abort, form: Form) -> Option<DoneFault> {
    let p = Params::new(1, 1, 4, 2, 1).expect(rt, "parameters");
    let p = p.with_form(form).expect(rt, "a form");
    let mut desk = begin(alloc, rt, p, &[0, 1, 0, 1, 0], &[0; 4]);
    let mut path = desk.path(rt, &[1]);
    two_accesses(alloc, rt, &mut desk);
    let leaf = desk.path(rt, &[3]);
    path.extend_from_slice(leaf.as_slice()).expect(rt, "memory");
    let ask = desk.arrive(rt, Op::Read(1));
    let fault = refused(rt, &mut desk, ask, &path);
    check_down(alloc, rt, &mut desk, &path);
    drop(desk);
    fault
}

// Both blocks are fetched and written back, and the write-backs acknowledged, the second first.
fn two_accesses(alloc: Global, rt: &impl Abort, desk: &mut Session<ListTape>) {
    desk.access(rt, Op::Read(0), &[1, 2]);
    desk.access(rt, write(alloc, rt, 1, 0x62), &[1, 3]);
    desk.acked(rt, 2);
    desk.acked(rt, 1);
}

// After a fault an arrival, an acknowledgement and the answer to another desk's fetch are refused alike.
fn check_down(alloc: Global, rt: &impl Abort, desk: &mut Session<ListTape>, path: &Image) {
    assert!(rt; desk.refuses(Op::Pad, ArriveFault::Down));
    assert!(rt; desk.refuses_ack(2, AckFault::Down));
    let ask = strange_ask(alloc, rt, Op::Pad);
    assert!(rt; desk.refuses_answer(rt, ask, path, DoneFault::Down));
}

#[test]
fn old_root_is_stale(rt: HostRuntime) {
    let alloc = rt.alloc();
    assert_eq!(rt; old_root(alloc, &rt, Form::One), stale(1, 2, 0));
}

#[test]
fn old_tagged_root_is_stale(rt: HostRuntime) {
    let alloc = rt.alloc();
    assert_eq!(rt; old_root(alloc, &rt, Form::Two), stale(1, 2, 0));
}

// a session turns to tagged buckets with its first write-back, and then no other is taken
#[test]
fn old_format_is_damaged(rt: HostRuntime) {
    let alloc = rt.alloc();
    let p = Params::new(2, 2, 4, 2, 1).expect(&rt, "parameters");
    let p = p.with_form(Form::Turn).expect(&rt, "a form");
    let mut desk = begin(alloc, &rt, p, &[0, 3, 2, 1, 2], &[0x61; 4]);
    desk.access(&rt, Op::Read(0), &[1, 2, 4]);
    desk.acked(&rt, 1);
    let ask = desk.arrive(&rt, Op::Read(0));
    assert_eq!(rt; ask.leaf(), 2);
    let mut path = desk.path(&rt, &[1, 3, 6]);
    turn(&rt, &mut path, 0, 3);
    let fault = refused(&rt, &mut desk, ask, &path);
    assert!(rt; fault == damaged(1, BucketFault::Format));
    drop(desk);
}

// the answer to another session's fetch is refused where none is under way, and the session goes on
#[test]
fn strangers(rt: HostRuntime) {
    let alloc = rt.alloc();
    let mut desk = session(alloc, &rt, Form::One);
    let strange = strange_ask(alloc, &rt, Op::Read(0));
    let path = desk.path(&rt, &[1, 3]);
    assert!(rt; desk.refuses_answer(&rt, strange, &path, DoneFault::Stranger));
    assert!(rt; !desk.is_down());
    let ask = desk.arrive(&rt, Op::Read(0));
    desk.answer(&rt, ask, &path);
    assert!(rt; desk.is_answered(0, &[0; 4]));
    drop(desk);
}
