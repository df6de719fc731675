//! Refused words, sources and sinks that fail, and streams that give or take little at a time.
ghost use Rattle.std.specs.Prelude.{None};
ghost use Rattle.tao_base.specs.Memory.{no_half};
ghost use Rattle.taostore.specs.Endings.{IsLawfullyPlayed};

use crate::play::finish_played;
use crate::tests::{ONE_READ, played, reads, sink_of, source_of};
use crate::{Kept, Played, endings, play_top, taostore};
use std::alloc::{AllocError, Global};
use std::test::Fail;
use tao_base::{ByteSink, ByteSource, Failed, Image, NoMemory, Sink, Source};
use tao_record::Record;

const SCRIPT: &[u8] = b"tree 1 1 4 1 1\ntape 1 0\ndo 0 read 0\n";

fn words_of(alloc: Global, line: &str) -> Result<Vec<String>, AllocError> {
    let mut words = Vec::new(alloc);
    for word in line.split_whitespace() {
        words.push(String::from_str(alloc, word)?)?;
    }
    Ok(words)
}

// Gives one byte a call.
#[derive(Drop)]
struct SlowSource {
    bytes: ByteSource,
}

impl Source for SlowSource {
    ghost left = { λ _. None };

    ghost faults = { λ s. s.bytes.faults };

    ghost beside = { λ _. no_half };

    fn read(&mut self, room: &mut [u8]) -> Result<usize, Failed> {
        self.bytes.read(&mut room[..1])
    }
}

// Takes one byte a call.
#[derive(Drop)]
struct SlowSink {
    bytes: ByteSink,
}

impl Sink for SlowSink {
    ghost put = { λ _. None };

    ghost faults = { λ s. s.bytes.faults };

    ghost apart = { λ _. no_half };

    fn write(&mut self, bytes: &[u8]) -> Result<usize, Failed> {
        self.bytes.write(&bytes[..1])
    }
}

// Counts its calls, and keeps the length of the longest.
#[derive(Drop)]
struct CountingSink {
    bytes: ByteSink,
    calls: u32,
    longest: usize,
}

impl Sink for CountingSink {
    ghost put = { λ _. None };

    ghost faults = { λ s. s.bytes.faults };

    ghost apart = { λ _. no_half };

    fn write(&mut self, bytes: &[u8]) -> Result<usize, Failed> {
        self.calls = self.calls.saturating_add(1);
        self.longest = self.longest.max(bytes.len());
        self.bytes.write(bytes)
    }
}

// The program on these words and the script; the reads and writes with these numbers fail, and the sink has this capacity. The status,
// whether a record is kept, and the sink.
fn run(
    alloc: Global,
    line: &str,
    reads: &[u32],
    writes: &[u32],
    capacity: usize,
) -> Result<(u8, bool, ByteSink), NoMemory> {
    let words = words_of(alloc, line)?;
    let mut source = source_of(alloc, Image::from_slice(alloc, SCRIPT)?, reads)?;
    let mut sink = sink_of(alloc, capacity, writes)?;
    let mut kept = Kept { history: None };
    let status = taostore(alloc, &words, &mut source, &mut sink, &mut kept);
    Ok((status, kept.history.is_some(), sink))
}

// the words, the reads and the writes that fail, and the sink's capacity; the status, whether a record is kept, and what is written
static FAULTS: [(&str, &[u32], &[u32], usize, u8, bool, &str); 14] = [
    ("paly", &[], &[], 99, 2, false, "end 2\n"),
    ("", &[], &[], 99, 2, false, "end 2\n"),
    ("play play", &[], &[], 99, 2, false, "end 2\n"),
    ("--help", &[], &[], 99, 2, false, "end 2\n"),
    ("paly", &[], &[0], 99, 5, false, ""),
    ("paly", &[], &[], 3, 5, false, "end"),
    ("play", &[], &[], 999, 0, true, ONE_READ),
    ("play", &[0], &[], 99, 4, false, "end 4\n"),
    ("play", &[1], &[], 99, 4, false, "end 4\n"),
    ("play", &[], &[0], 99, 5, true, ""),
    ("play", &[], &[], 15, 5, true, "tree 1 1 4 1 1\n"),
    (
        "play",
        &[],
        &[],
        30,
        5,
        true,
        "tree 1 1 4 1 1\nload 3\narrive 0",
    ),
    ("play", &[1], &[0], 99, 5, false, ""),
    ("play", &[0], &[], 4, 5, false, "end "),
];

#[test]
fn program_faults(rt: HostRuntime) -> Result<(), Fail> {
    endings::<ByteSource, ByteSink>();
    for (line, reads, writes, capacity, status, keeps, text) in &FAULTS {
        let (answer, kept, sink) = run(rt.alloc(), line, reads, writes, *capacity)?;
        let written = (answer, kept, sink.bytes());
        assert_eq!(rt;
            written,
            (*status, *keeps, text.as_bytes()),
            "at {line}, {capacity}"
        );
    }
    Ok(())
}

#[test]
fn one_byte_at_a_time(rt: HostRuntime) -> Result<(), Fail> {
    let alloc = rt.alloc();
    let bytes = source_of(alloc, Image::from_slice(alloc, SCRIPT)?, &[])?;
    let mut source = SlowSource { bytes };
    let mut sink = SlowSink {
        bytes: sink_of(alloc, 999, &[])?,
    };
    let mut kept = Kept { history: None };
    let status = play_top(alloc, &mut source, &mut sink, &mut kept);
    assert_eq!(rt; (status, kept.history.is_some()), (0, true));
    assert_eq!(rt; sink.bytes.bytes(), ONE_READ.as_bytes());
    assert_eq!(rt; source.read(&mut [0u8; 9]).ok(), Some(0));
    Ok(())
}

// a long text is written in pieces: a later write that fails leaves a prefix of it
#[test]
fn text_in_pieces(rt: HostRuntime) -> Result<(), Fail> {
    let alloc = rt.alloc();
    let (_, whole) = played(alloc, reads(alloc, 2_000)?, 1 << 24)?;
    let mut source = source_of(alloc, reads(alloc, 2_000)?, &[])?;
    let mut sink = sink_of(alloc, 1 << 24, &[1])?;
    let mut kept = Kept { history: None };
    let status = play_top(alloc, &mut source, &mut sink, &mut kept);
    assert_eq!(rt; (status, kept.history.is_some()), (5, true));
    let written = sink.bytes();
    assert!(rt; written.len() >= 1 << 16);
    assert!(rt; whole.bytes().starts_with(written));
    Ok(())
}

// part of a long text is written before its end, in a few calls, none of them with much of it
#[test]
fn text_before_its_end(rt: HostRuntime) -> Result<(), Fail> {
    let alloc = rt.alloc();
    let mut source = source_of(alloc, reads(alloc, 2_000)?, &[])?;
    let mut sink = CountingSink {
        bytes: sink_of(alloc, 1 << 24, &[])?,
        calls: 0,
        longest: 0,
    };
    let mut kept = Kept { history: None };
    let status = play_top(alloc, &mut source, &mut sink, &mut kept);
    assert_eq!(rt; status, 0);
    let len = sink.bytes.bytes().len();
    assert!(rt; 2 < sink.calls && sink.calls < 9, "{} calls", sink.calls);
    assert!(rt; sink.longest < len / 2, "{} of {len}", sink.longest);
    Ok(())
}

// where memory runs out, the record is kept as far as it came, whether the end line is written or not; none where no session was opened
#[test]
fn little_memory(rt: HostRuntime) -> Result<(), Fail> {
    let alloc = rt.alloc();
    for (capacity, status, text) in [(99, 8, "end 8\n"), (3, 5, "end")] {
        let Some(session) = record_of(alloc)? else {
            panic!(rt; "no record");
        };
        let (answer, kept, sink) = ended(alloc, Played::Part(session), capacity)?;
        let part = (answer, kept, sink.bytes());
        assert_eq!(rt; part, (status, true, text.as_bytes()), "at {capacity}");
        let (answer, kept, sink) = ended(alloc, Played::Nothing, capacity)?;
        let none = (answer, kept, sink.bytes());
        assert_eq!(rt; none, (status, false, text.as_bytes()), "at {capacity}");
    }
    Ok(())
}

// What playing came to, with a sink of this capacity: the status, whether a record is kept, and the sink.
fn ended(alloc: Global, played: Played, capacity: usize) -> Result<(u8, bool, ByteSink), NoMemory>
    requires { IsLawfullyPlayed played }
{
    let mut sink = sink_of(alloc, capacity, &[])?;
    let mut kept = Kept { history: None };
    let status = finish_played(alloc, played, &mut sink, &mut kept);
    Ok((status, kept.history.is_some(), sink))
}

// The record of a session of one read.
fn record_of(alloc: Global) -> Result<Option<Record>, NoMemory> {
    let mut source = source_of(alloc, Image::from_slice(alloc, SCRIPT)?, &[])?;
    let mut sink = sink_of(alloc, 999, &[])?;
    let mut kept = Kept { history: None };
    play_top(alloc, &mut source, &mut sink, &mut kept);
    Ok(kept.history)
}
