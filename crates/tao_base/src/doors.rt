//! Streams both ways, and the doors that links and streams come through.
ghost use Rattle.std.specs.Prelude.{◌≡◌, ℕ, ◌<◌, List, Option, IfOk};
ghost use Rattle.tao_base.specs.Causes.{HasCause};
ghost use Rattle.tao_base.specs.Doors.{KeepsHalf, HasDoorCause, IsNewLink, Handed, AnswersFirst, after_dial, after_accept, after_hang_up, after_give_back};

use crate::failures::Failed;
use crate::links::Link;
use crate::parameters::Params;
use crate::sinks::Sink;
use crate::sources::Source;
use std::alloc::Global;
use std::error::Error;
use std::fmt;

/// A stream both ways. What it reads leaves the writing half as it is, and what it writes the reading half.
pub trait Duplex: Source + Sink {
    /// Ends both ways: the peer sees the end at once. Bytes and counters stay.
    fn shut(&mut self)
        ensures source { KeepsHalf Self.Source.left Self.Source.faults Self.Source.beside self.old self.new }
        ensures sink { KeepsHalf Self.Sink.put Self.Sink.faults Self.Sink.apart self.old self.new };

    /// What the source tells of the other half is what the sink tells.
    ghost reads: { (x : Self) → Self.Source.beside x ≡ (Self.Sink.faults x, Self.Sink.put x) };

    /// What the sink tells of the other half is what the source tells.
    ghost writes: { (x : Self) → Self.Sink.apart x ≡ (Self.Source.faults x, Self.Source.left x) };
}

impl<S: Source, K: Sink> Source for (S, K) {
    ghost left = { λ x. S.left x.0 };

    ghost faults = { λ x. S.faults x.0 };

    ghost beside = { λ x. (K.faults x.1, K.put x.1) };

    fn read(&mut self, room: &mut [u8]) -> Result<usize, Failed> {
        self.0.read(room)
    }
}

impl<S: Source, K: Sink> Sink for (S, K) {
    ghost put = { λ x. K.put x.1 };

    ghost faults = { λ x. K.faults x.1 };

    ghost apart = { λ x. (S.faults x.0, S.left x.0) };

    fn write(&mut self, bytes: &[u8]) -> Result<usize, Failed> {
        self.1.write(bytes)
    }
}

impl<S: Source, K: Sink> Duplex for (S, K) {
    ghost use Rattle.std.specs.Prelude.{refl};

    fn shut(&mut self) {}

    ghost reads = { λ x. refl };

    ghost writes = { λ x. refl };
}

/// Why no link was dialled: the doors have failed, or out of memory.
#[derive(Clone, Copy, Debug, PartialEq, Eq)]
pub enum DoorFault {
    Failed,
    Memory,
}

impl fmt::Display for DoorFault {
    fn fmt<W: fmt::Write>(&self, f: &mut fmt::Formatter<W>) -> fmt::Result {
        match self {
            DoorFault::Failed => write!(f, "the doors failed"),
            DoorFault::Memory => write!(f, "out of memory"),
        }
    }
}

impl Error for DoorFault {}

/// Where links to the server are dialled and streams of clients come in. Each is given back: a link under its number, streams in the
/// order in which they were accepted.
pub trait Doors {
    type Near: Link + Send + Drop;

    type Stream: Duplex + Send + Drop;

    /// How many calls have failed; the counter saturates at 2^64 - 1.
    ghost faults: { Self → ℕ };

    /// What was handed out and given back.
    ghost handed: { Self → Handed Self.Near Self.Stream };

    /// Makes the link of this number to the server at the address, for these parameters.
    fn dial(
        &mut self,
        alloc: Global,
        p: &Params,
        address: &str,
        link: u32,
    ) -> Result<Self::Near, DoorFault>
        ensures cause { HasDoorCause (faults self.old) (faults self.new) result }
        ensures near { IfOk result (IsNewLink Self.Near.reach Self.Near.faults Self.Near.told p.now) }
        ensures handed { handed self.new ≡ after_dial (handed self.old) result };

    /// Begins to take connections at the address.
    fn listen(&mut self, address: &str) -> Result<(), Failed>
        ensures cause { HasCause (faults self.old) (faults self.new) result }
        ensures handed { handed self.new ≡ handed self.old };

    /// Waits for the next connection: None where no further one comes.
    fn accept(&mut self) -> Result<Option<Self::Stream>, Failed>
        ensures cause { HasCause (faults self.old) (faults self.new) result }
        ensures first { AnswersFirst (handed self.old).waiting result }
        ensures handed { handed self.new ≡ after_accept (handed self.old) result };

    /// Takes a dialled link back, under its number.
    fn hang_up(&mut self, link: u32, near: Self::Near)
        requires { 0 < (handed self.old).links_out }
        ensures faults { faults self.new ≡ faults self.old }
        ensures handed { handed self.new ≡ after_hang_up (handed self.old) link near };

    /// Takes back the stream that was accepted as the connection of this number, counted from 0.
    fn give_back(&mut self, number: u32, stream: Self::Stream)
        requires next { number ≡ (handed self.old).returned }
        requires out { (handed self.old).returned < (handed self.old).accepted }
        ensures faults { faults self.new ≡ faults self.old }
        ensures handed { handed self.new ≡ after_give_back (handed self.old) stream };
}
