//! Links over streams in memory.
ghost use Rattle.std.specs.Prelude.{◌≡◌, None};
ghost use Rattle.tao_base.specs.Memory.{no_half};
ghost use Rattle.tao_base.specs.Limits.{shape};
ghost use Rattle.tao_base.specs.declared.parameters.Form.TheVariants.{One};
ghost use Rattle.tao_tree.specs.Nodes.{reach_of};

use super::{LEN, bucket, check_no_path, check_path, check_store, fetch, order_of, small};
use crate::StreamLink;
use std::alloc::Global;
use std::process::Abort;
use std::sync::Wait;
use std::test::Fail;
use tao_base::{ByteSink, ByteSource, Failed, Image, Link, Numbers, Sink, Source};

// The answer to a fetch with this length field, kind and id, and so many bytes behind them as a path has.
fn answer_of(len: u8, kind: u8, id: u8) -> [u8; 69] {
    let mut bytes = [7; 69];
    bytes[..13].copy_from_slice(&[0, 0, 0, len, kind, 0, 0, 0, 0, 0, 0, 0, id]);
    bytes
}

// The answer to a fetch of a path that is one byte shorter.
fn shorter_answer() -> [u8; 68] {
    let mut bytes = [7; 68];
    bytes[..13].copy_from_slice(&[0, 0, 0, 64, 2, 0, 0, 0, 0, 0, 0, 0, 5]);
    bytes
}

// Whether a fetch over this link was answered; the path then has only sevens.
fn is_answered<L: Link, R: Abort + Wait>(rt: &R, link: &mut L) -> bool
    requires { L.reach link.old ≡ reach_of (shape 1 1 4 1 1 One) }
    ensures { L.reach link.new ≡ L.reach link.old }
{
    match fetch(rt, link, 1) {
        Ok(path) => {
            assert!(rt; path == [7; 2 * LEN]);
            true
        }
        Err(_) => false,
    }
}

// Two fetches over a stream that gives these bytes: whether each was answered, and where they were written.
fn fetch_twice<R: Abort + Wait>(
    rt: &R,
    alloc: Global,
    bytes: Image,
) -> Result<(bool, bool, ByteSink), Fail> {
    let source = ByteSource::new(bytes, Numbers::new(alloc));
    let mut sink = ByteSink::new(alloc, Numbers::new(alloc));
    sink.reserve(34)?;
    let mut link = StreamLink::new(alloc, &small()?, source, sink)?;
    let first = is_answered(rt, &mut link);
    let second = is_answered(rt, &mut link);
    let (_, sink) = link.into_parts();
    Ok((first, second, sink))
}

// Both fetches were sent, whatever came.
fn check_sent(rt: &impl Abort, sent: &[u8]) {
    let asked = [0, 0, 0, 13, 1, 0, 0, 0, 0, 0, 0, 0, 5, 0, 0, 0, 1];
    assert_eq!(rt; sent.len(), 34);
    assert_eq!(rt; &sent[..17], asked.as_slice());
    assert_eq!(rt; &sent[17..], asked.as_slice());
}

// Which of two fetches are answered where these bytes come.
fn check_fetches<R: Abort + Wait>(
    rt: &R,
    alloc: Global,
    first: &[u8],
    second: &[u8],
    right: (bool, bool),
) -> Result<(), Fail> {
    let mut bytes = Image::from_slice(alloc, first)?;
    bytes.extend_from_slice(second)?;
    let (one, two, sink) = fetch_twice(rt, alloc, bytes)?;
    assert!(rt; one == right.0 && two == right.1);
    check_sent(rt, sink.bytes());
    Ok(())
}

#[test]
fn answers_to_fetches(rt: HostRuntime) -> Result<(), Fail> {
    let alloc = rt.alloc();
    let good = answer_of(65, 2, 5);
    check_fetches(&rt, alloc, &good, &good, (true, true))?;
    check_fetches(&rt, alloc, &answer_of(65, 2, 6), &good, (false, true))?;
    check_fetches(&rt, alloc, &shorter_answer(), &good, (false, false))?;
    Ok(())
}

// an acknowledgement, the end within a length field, and another length field
#[test]
fn other_frames(rt: HostRuntime) -> Result<(), Fail> {
    let alloc = rt.alloc();
    let good = answer_of(65, 2, 5);
    check_fetches(
        &rt,
        alloc,
        &[0, 0, 0, 5, 4, 0, 0, 0, 1],
        &good,
        (false, false),
    )?;
    check_fetches(&rt, alloc, &[0, 0, 0], &[], (false, false))?;
    check_fetches(&rt, alloc, &[2, 0, 0, 1], &good, (false, true))?;
    Ok(())
}

// the version of the second answer isn't the one that was sent, and the third answer doesn't come
#[test]
fn stores_over_a_stream(rt: HostRuntime) -> Result<(), Fail> {
    let alloc = rt.alloc();
    let answers = [0, 0, 0, 5, 4, 0, 0, 0, 2, 0, 0, 0, 5, 4, 0, 0, 0, 3];
    let sink = store_thrice(&rt, alloc, Image::from_slice(alloc, &answers)?)?;
    let sent = sink.bytes();
    assert_eq!(rt; sent.len(), 74);
    assert_eq!(rt; &sent[..9], [0, 0, 0, 33, 3, 0, 0, 0, 2].as_slice());
    assert_eq!(rt; &sent[9..37], bucket(1, 10).as_slice());
    Ok(())
}

// Three stores over a stream that gives these bytes, of which the first is acknowledged, and where they were written. There is no
// capacity for the third.
fn store_thrice<R: Abort + Wait>(rt: &R, alloc: Global, bytes: Image) -> Result<ByteSink, Fail> {
    let order = order_of(rt, alloc, 2, bucket(1, 10))?;
    let source = ByteSource::new(bytes, Numbers::new(alloc));
    let mut sink = ByteSink::new(alloc, Numbers::new(alloc));
    sink.reserve(74)?;
    let mut link = StreamLink::new(alloc, &small()?, source, sink)?;
    check_store(rt, &mut link, &order, true);
    check_store(rt, &mut link, &order, false);
    check_store(rt, &mut link, &order, false);
    let (_, sink) = link.into_parts();
    Ok(sink)
}

// a read that fails behind the length field, and then a write beyond the capacity
#[test]
fn halves_that_fail(rt: HostRuntime) -> Result<(), Fail> {
    let alloc = rt.alloc();
    let bytes = Image::from_slice(alloc, &answer_of(65, 2, 5))?;
    let source = ByteSource::new(bytes, Numbers::from_slice(alloc, &[1])?);
    let mut sink = ByteSink::new(alloc, Numbers::new(alloc));
    sink.reserve(20)?;
    let mut link = StreamLink::new(alloc, &small()?, source, sink)?;
    check_no_path(&rt, &mut link);
    check_no_path(&rt, &mut link);
    let (_, sink) = link.into_parts();
    assert_eq!(rt; sink.bytes().len(), 20);
    Ok(())
}

// Gives one byte a call. Its bytes are unknown.
#[derive(Drop)]
struct SlowSource {
    inner: ByteSource,
}

impl Source for SlowSource {
    ghost left = { λ _. None };

    ghost faults = { λ s. s.inner.faults };

    ghost beside = { λ _. no_half };

    fn read(&mut self, room: &mut [u8]) -> Result<usize, Failed> {
        self.inner.read(&mut room[..1])
    }
}

// Takes one byte a call. Its bytes are unknown.
#[derive(Drop)]
struct SlowSink {
    inner: ByteSink,
}

impl Sink for SlowSink {
    ghost put = { λ _. None };

    ghost faults = { λ s. s.inner.faults };

    ghost apart = { λ _. no_half };

    fn write(&mut self, bytes: &[u8]) -> Result<usize, Failed> {
        self.inner.write(&bytes[..1])
    }
}

#[test]
fn byte_by_byte(rt: HostRuntime) -> Result<(), Fail> {
    let alloc = rt.alloc();
    let bytes = Image::from_slice(alloc, &answer_of(65, 2, 5))?;
    let source = SlowSource {
        inner: ByteSource::new(bytes, Numbers::new(alloc)),
    };
    let mut inner = ByteSink::new(alloc, Numbers::new(alloc));
    inner.reserve(17)?;
    let mut link = StreamLink::new(alloc, &small()?, source, SlowSink { inner })?;
    check_path(&rt, &mut link, 1, [7; 2 * LEN]);
    Ok(())
}
