//! Standard input and output, and calls that signals interrupt.
ghost use Rattle.std.specs.Prelude.{◌≤◌, IfOk};

use crate::output::finish;
use crate::standard::{read_uninterrupted, write_uninterrupted};
use crate::{End, StdSink, StdSource};
use std::io;
use std::test::Fail;
use tao_base::Source;

// A stream that a signal interrupts so often, and that then moves so many bytes a call.
#[derive(Drop)]
struct Signals {
    left: u32,
    moves: usize,
}

impl Signals {
    fn turn(&mut self, len: usize) -> io::Result<usize>
        ensures { IfOk result (λ n. n ≤ len) }
    {
        if self.left == 0 {
            return Ok(self.moves.min(len));
        }
        self.left -= 1;
        Err(io::Error::from(io::ErrorKind::Interrupted))
    }
}

impl io::Read for Signals {
    fn read(&mut self, room: &mut [u8]) -> io::Result<usize> {
        self.turn(room.len())
    }
}

impl io::Write for Signals {
    fn write(&mut self, bytes: &[u8]) -> io::Result<usize> {
        self.turn(bytes.len())
    }

    fn flush(&mut self) -> io::Result<()> {
        Ok(())
    }
}

// how often a signal comes, the bytes a call then moves; what is read, and what is written
#[test]
fn interrupted_calls(rt: HostRuntime) -> Result<(), Fail> {
    for (left, moves, read, written) in [
        (0, 2, Some(2), Some(2)),
        (9, 3, Some(3), Some(3)),
        (9, 0, Some(0), None),
        (u32::MAX, 3, None, None),
    ] {
        let mut room = [0u8; 4];
        let taken = read_uninterrupted(&mut Signals { left, moves }, &mut room);
        let put = write_uninterrupted(&mut Signals { left, moves }, b"text");
        assert_eq!(rt;
            (taken.ok(), put.ok()),
            (read, written),
            "at {left}, {moves}"
        );
    }
    Ok(())
}

#[test]
fn standard_input(rt: HostRuntime) -> Result<(), Fail> {
    let mut source = StdSource::new(rt.stdin());
    assert!(rt; source.read(&mut [0u8; 9]).is_ok());
    Ok(())
}

#[test]
fn standard_output(rt: HostRuntime) -> Result<(), Fail> {
    let mut sink = StdSink::new(rt.stdout());
    assert_eq!(rt; finish(&mut sink, End::Refused), 2);
    Ok(())
}
