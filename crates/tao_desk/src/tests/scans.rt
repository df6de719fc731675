//! Closing scans.
use super::{Session, begin, one_block, turn, write};
use crate::{DoneFault, ScanFault};
use std::process::Abort;
use tao_base::{BucketFault, Cause, Form, Image, Op, Params};
use tao_tape::ListTape;

// The scan can't begin: so many fetches are under way, so many write-backs outstanding.
fn refused_as_busy(
    rt: &impl Abort,
    desk: Session<ListTape>,
    undone: u64,
    outstanding: u32,
) -> Session<ListTape> {
    let (desk, fault) = desk.refused_scan(rt);
    assert_eq!(rt;
        fault,
        ScanFault::Busy {
            undone,
            outstanding
        }
    );
    desk
}

// a scan waits for fetches and for acknowledgements
#[test]
fn busy_scan(rt: HostRuntime) {
    let alloc = rt.alloc();
    let mut desk = begin(alloc, &rt, one_block(&rt, Form::One), &[1, 0], &[0; 4]);
    let ask = desk.arrive(&rt, Op::Read(0));
    let mut desk = refused_as_busy(&rt, desk, 1, 0);
    desk.serve(&rt, ask, &[1, 3]);
    let mut desk = refused_as_busy(&rt, desk, 0, 1);
    desk.fail(0);
    let (desk, fault) = desk.refused_scan(&rt);
    assert_eq!(rt; fault, ScanFault::Down);
    drop(desk);
}

// the array of a session of two blocks, each node read where it comes first
#[test]
fn whole_scan(rt: HostRuntime) {
    let alloc = rt.alloc();
    let p = Params::new(1, 1, 4, 2, 1).expect(&rt, "parameters");
    let mut desk = begin(alloc, &rt, p, &[0, 1, 0, 1], &[0; 4]);
    desk.access(&rt, Op::Read(0), &[1, 2]);
    desk.access(&rt, write(alloc, &rt, 1, 0x62), &[1, 3]);
    desk.acked(&rt, 2);
    desk.acked(&rt, 1);
    let mut scan = desk.close(&rt);
    assert!(rt; scan.is_next(0));
    scan.read_nodes(&rt, &[1, 2]);
    assert!(rt; scan.is_next(1));
    scan.read_nodes(&rt, &[2, 3]);
    scan.check_array(&rt, &[[0; 4], [0x62; 4]]);
    assert_eq!(rt; scan.events(), 8);
}

// what the proxy holds is not read: the answers may be any bytes there
#[test]
fn held_nodes_are_not_read(rt: HostRuntime) {
    let alloc = rt.alloc();
    let p = Params::new(1, 1, 4, 1, 3).expect(&rt, "parameters");
    let mut desk = begin(alloc, &rt, p, &[0, 1, 0], &[0; 4]);
    desk.access(&rt, write(alloc, &rt, 0, 0x62), &[1, 2]);
    desk.access(&rt, Op::Read(0), &[1, 3]);
    assert_eq!(rt; desk.residents(), 3);
    let mut scan = desk.close(&rt);
    let path = Image::from_slice(alloc, &[9; 56]).expect(&rt, "memory");
    scan.read(&rt, &path);
    scan.read(&rt, &path);
    scan.check_array(&rt, &[[0x62; 4]]);
    drop(scan);
}

// a bucket that is refused ends the session, under the number of its leaf behind those of fetches
#[test]
fn damaged_scan(rt: HostRuntime) {
    let alloc = rt.alloc();
    let desk = begin(alloc, &rt, one_block(&rt, Form::Two), &[1], &[0; 4]);
    let mut path = desk.path(&rt, &[1, 3]);
    turn(&rt, &mut path, 112, 1);
    let mut scan = desk.close(&rt);
    scan.read_nodes(&rt, &[1, 2]);
    let fault = BucketFault::Tag;
    assert!(rt; scan.refuses(&rt, &path, DoneFault::Damaged { node: 3, fault }));
    assert!(rt; scan.refuses(&rt, &path, DoneFault::Down));
    assert!(rt; scan.is_next(1));
    scan.fail(0);
    let cause = Cause::Damaged {
        fetch: (1 << 32) + 1,
        node: 3,
        fault,
    };
    assert!(rt; scan.is_down_by(cause));
    drop(scan);
}
