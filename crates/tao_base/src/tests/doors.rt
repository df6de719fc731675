use crate::{
    ByteSink, ByteSource, Duplex, Failed, Gate, HoldGate, Image, Numbers, OpenGate, Sink, Source,
};
use std::sync::Wait;
use std::test::Fail;
use std::thread;

fn is_sync<T: Sync>(_: &T) {}

// What is read through a stream, which then takes the same byte, and is shut in between.
fn echo_after_shut<St: Duplex>(stream: &mut St) -> Result<u8, Failed> {
    let mut room = [0; 1];
    stream.read(&mut room)?;
    stream.shut();
    stream.write(&room)?;
    Ok(room[0])
}

#[test]
fn a_pair_is_a_stream(rt: HostRuntime) -> Result<(), Fail> {
    let alloc = rt.alloc();
    let bytes = Image::from_slice(alloc, b"ab")?;
    let source = ByteSource::new(bytes, Numbers::from_slice(alloc, &[2])?);
    let mut sink = ByteSink::new(alloc, Numbers::new(alloc));
    sink.reserve(2)?;
    let mut stream = (source, sink);
    assert_eq!(rt; echo_after_shut(&mut stream), Ok(b'a'));
    assert_eq!(rt; echo_after_shut(&mut stream), Ok(b'b'));
    assert_eq!(rt; echo_after_shut(&mut stream), Err(Failed));
    assert_eq!(rt; stream.1.bytes(), b"ab".as_slice());
    Ok(())
}

// Passes the gate as a client does that fetches once.
fn fetch_once<G: Gate, R: Wait>(rt: &R, gate: &G, who: u32) {
    gate.pass(rt, who, 1);
    gate.pass(rt, who, 2);
}

#[test]
fn overlapping_fetches_meet(rt: HostRuntime) -> Result<(), Fail> {
    let gate = HoldGate::new(10_000_000);
    is_sync(&gate);
    let held = &gate;
    thread::join(
        &rt,
        move || fetch_once(&rt, held, 0),
        move || fetch_once(&rt, held, 1),
    );
    assert!(rt; gate.met());
    assert!(rt; !gate.held_too_long());
    Ok(())
}

#[test]
fn fetches_one_after_another_never_meet(rt: HostRuntime) -> Result<(), Fail> {
    for first in 0..2u32 {
        let gate = HoldGate::new(3);
        fetch_once(&rt, &gate, first);
        assert!(rt; gate.held_too_long());
        fetch_once(&rt, &gate, 1 - first);
        assert!(rt; gate.held_too_long());
        assert!(rt; !gate.met());
    }
    Ok(())
}

// others, and every other place
#[test]
fn nobody_else_is_held(rt: HostRuntime) -> Result<(), Fail> {
    let gate = HoldGate::new(0);
    for (who, place) in [(2, 1), (64, 1), (0, 2), (1, 2), (0, 3), (1, 4)] {
        gate.pass(&rt, who, place);
        OpenGate.pass(&rt, who, place);
    }
    assert!(rt; !gate.held_too_long());
    assert!(rt; !gate.met());
    fetch_once(&rt, &OpenGate, 0);
    Ok(())
}
