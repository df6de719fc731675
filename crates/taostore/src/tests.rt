//! The program with sources and sinks in memory.

mod faults;
mod scripts;
mod standard;

use crate::{Kept, play_top};
use std::alloc::Global;
use tao_base::{ByteSink, ByteSource, Image, NoMemory, Numbers};

pub(crate) const ONE_READ: &str =
    "tree 1 1 4 1 1\nload 3\narrive 0 0 read 0\nfetch 0 1\ndone 0\nreply 0 0 00000000\nstore 1 4 1 3\nack 1\nscan\nblock 0 00000000\nend 0\n";

// A source whose calls with these numbers fail.
pub(crate) fn source_of(
    alloc: Global,
    bytes: Image,
    fails: &[u32],
) -> Result<ByteSource, NoMemory> {
    Ok(ByteSource::new(bytes, Numbers::from_slice(alloc, fails)?))
}

// A sink with this capacity, whose calls with these numbers fail.
pub(crate) fn sink_of(alloc: Global, capacity: usize, fails: &[u32]) -> Result<ByteSink, NoMemory> {
    let mut sink = ByteSink::new(alloc, Numbers::from_slice(alloc, fails)?);
    sink.reserve(capacity)?;
    Ok(sink)
}

// The program on this script, with a sink of this capacity.
pub(crate) fn played(
    alloc: Global,
    script: Image,
    capacity: usize,
) -> Result<(u8, ByteSink), NoMemory> {
    let mut source = source_of(alloc, script, &[])?;
    let mut sink = sink_of(alloc, capacity, &[])?;
    let mut kept = Kept { history: None };
    let status = play_top(alloc, &mut source, &mut sink, &mut kept);
    Ok((status, sink))
}

// a script of so many reads
pub(crate) fn reads(alloc: Global, count: usize) -> Result<Image, NoMemory> {
    let mut text = Image::from_slice(alloc, b"tree 1 1 4 1 1\ntape 0")?;
    for _ in 0..count {
        text.extend_from_slice(b" 0")?;
    }
    text.extend_from_slice(b"\n")?;
    for _ in 0..count {
        text.extend_from_slice(b"do 0 read 0\n")?;
    }
    Ok(text)
}
