//! Standard input as a source, and standard output as a sink. They tell no bytes, and count their faults.
ghost use Rattle.std.specs.Prelude.{◌≡◌, ◌<◌, ◌≤◌, None, IfOk, length};
ghost use Rattle.std.specs.Io.{ReadsAtMost};
ghost use Rattle.std.specs.Io.KnownBytes.{ReadConsumes, WriteAppends};
ghost use Rattle.tao_base.specs.Causes.{TakesSome};
ghost use Rattle.tao_base.specs.Memory.{no_half};

use std::io::{ErrorKind, Read, Stdin, Stdout, Write};
use tao_base::{Failed, Sink, Source};

/// How often a call is made that a signal interrupts each time.
const TRIES: u32 = 1 << 16;

/// Standard input.
#[derive(Drop)]
pub struct StdSource {
    stdin: Stdin,
    faults: u64,
}

impl StdSource {
    /// A source without faults so far.
    pub fn new(stdin: Stdin) -> StdSource
        ensures { result.faults ≡ 0 }
    {
        StdSource { stdin, faults: 0 }
    }
}

impl Source for StdSource {
    ghost left = { λ _. None };

    ghost faults = { λ s. s.faults };

    ghost beside = { λ _. no_half };

    fn read(&mut self, room: &mut [u8]) -> Result<usize, Failed> {
        let taken = read_uninterrupted(&mut self.stdin, room);
        if taken.is_err() {
            self.faults = self.faults.saturating_add(1);
        }
        taken
    }
}

#[tactic(auto, using(crate::proofs::Interrupts::kept_consumes))]
/// One read, made again where a signal interrupted it.
pub fn read_uninterrupted<R: Read>(reader: &mut R, room: &mut [u8]) -> Result<usize, Failed>
    ensures bound { ReadsAtMost result room.new }
    ensures bytes { ReadConsumes (R.remaining reader.old) (R.remaining reader.new) result room.new }
{
    for _ in 0..TRIES {
        match reader.read(room) {
            Ok(n) => return Ok(n),
            Err(error) if error.kind() == ErrorKind::Interrupted => {}
            Err(_) => break,
        }
    }
    Err(Failed)
}

/// Standard output.
#[derive(Drop)]
pub struct StdSink {
    stdout: Stdout,
    faults: u64,
}

impl StdSink {
    /// A sink without faults so far.
    pub fn new(stdout: Stdout) -> StdSink
        ensures { result.faults ≡ 0 }
    {
        StdSink { stdout, faults: 0 }
    }
}

impl Sink for StdSink {
    ghost put = { λ _. None };

    ghost faults = { λ s. s.faults };

    ghost apart = { λ _. no_half };

    fn write(&mut self, bytes: &[u8]) -> Result<usize, Failed> {
        let put = write_uninterrupted(&mut self.stdout, bytes);
        if put.is_err() {
            self.faults = self.faults.saturating_add(1);
        }
        put
    }
}

#[tactic(auto, using(crate::proofs::Interrupts::kept_appends, crate::proofs::Interrupts::empty_keeps))]
/// One write, made again where a signal interrupted it. One that takes no byte has failed.
pub fn write_uninterrupted<W: Write>(writer: &mut W, bytes: &[u8]) -> Result<usize, Failed>
    ensures count { TakesSome result (length bytes.now) }
    ensures bytes { WriteAppends (W.contents writer.old) (W.contents writer.new) result bytes.now }
{
    for _ in 0..TRIES {
        match writer.write(bytes) {
            Ok(n) if n > 0 => return Ok(n),
            Err(error) if error.kind() == ErrorKind::Interrupted => {}
            _ => break,
        }
    }
    Err(Failed)
}
