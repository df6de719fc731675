//! Where bytes come from.
ghost use Rattle.std.specs.Prelude.{◌≡◌, ℕ, ◌+◌, ◌-◌, ◌^◌, ◌<◌, ◌≤◌, ◌↔◌, min, List, length, take, drop, Option, Some, None, IfOk, OnErr, IsErr, IsTrue, Contains};
ghost use Rattle.std.specs.Io.{ReadsAtMost};
ghost use Rattle.std.specs.Io.KnownBytes.{ReadConsumes};
ghost use Rattle.tao_base.specs.Causes.{HasCause, one_more};
ghost use Rattle.tao_base.specs.Memory.{no_half};

use crate::failures::Failed;
use crate::lists::{Image, Numbers};
use crate::transfers::is_listed;
use std::marker::Model;

/// Something that gives bytes, as a file or a socket does. It may fail at any call.
pub trait Source {
    /// The bytes that are left, in the order in which they are handed out, where the source tells them.
    ghost left: { Self → Option (List ℕ) };

    /// How many calls have failed; the counter saturates at 2^64 - 1.
    ghost faults: { Self → ℕ };

    /// What a stream, which is a sink too, tells of that half: its faults and the bytes put. A plain source has (0, None).
    ghost beside: { Self → ℕ × Option (List ℕ) };

    /// Reads into a prefix of the room and says how many bytes: none only at the end.
    fn read(&mut self, room: &mut [u8]) -> Result<usize, Failed>
        requires { 0 < length room.old }
        ensures bound { ReadsAtMost result room.new }
        ensures bytes { ReadConsumes (left self.old) (left self.new) result room.new }
        ensures cause { HasCause (faults self.old) (faults self.new) result }
        ensures beside { beside self.new ≡ beside self.old };
}

/// A source in memory, whose bytes and counts are known.
#[derive(Debug, Drop)]
pub struct ByteSource {
    bytes: Image,
    at: usize,
    fails: Numbers,
    calls: u64,
    faults: u64,
}

impl Model for ByteSource {
    ghost use Rattle.std.specs.Prelude.{◌≤◌, length, drop};
    ghost use Rattle.tao_base.specs.Memory.{SourceState};

    ghost Value = { SourceState };

    ghost view = { λ s. record { left = drop s.at s.bytes; fails = s.fails; calls = s.calls; faults = s.faults } };

    ghost invariant = { λ s. s.at ≤ length s.bytes };
}

impl ByteSource {
    /// A source of these bytes, whose calls with the numbers in `fails`, counted from 0, fail.
    pub fn new(bytes: Image, fails: Numbers) -> ByteSource
        ensures left { result.left ≡ bytes }
        ensures fails { result.fails ≡ fails }
        ensures calls { result.calls ≡ 0 }
        ensures faults { result.faults ≡ 0 }
    {
        ByteSource {
            bytes,
            at: 0,
            fails,
            calls: 0,
            faults: 0,
        }
    }
}

impl Source for ByteSource {
    ghost left = { λ s. Some s.left };

    ghost faults = { λ s. s.faults };

    ghost beside = { λ _. no_half };

    fn read(&mut self, room: &mut [u8]) -> Result<usize, Failed>
        requires { 0 < length room.old }
        ensures bound { ReadsAtMost result room.new }
        ensures bytes { ReadConsumes (Some self.old.left) (Some self.new.left) result room.new }
        ensures cause { HasCause self.old.faults self.new.faults result }
        ensures beside { no_half ≡ no_half }
        ensures fails { IsErr result ↔ Contains self.old.fails self.old.calls }
        ensures count { IfOk result (λ n. n ≡ min (length room.old) (length self.old.left)) }
        ensures calls { self.new.calls ≡ one_more self.old.calls }
        ensures faults { OnErr result (self.new.faults ≡ one_more self.old.faults) }
        ensures table { self.new.fails ≡ self.old.fails }
        ensures rest { IfOk result (λ n. drop n room.new ≡ drop n room.old) }
        ensures err { OnErr result (room.new ≡ room.old) }
    {
        let call = self.calls;
        self.calls = call.saturating_add(1);
        if is_listed(self.fails.as_slice(), call) {
            self.faults = self.faults.saturating_add(1);
            return Err(Failed);
        }
        let n = copy_from(self.bytes.as_slice(), self.at, room);
        self.at += n;
        Ok(n)
    }
}

#[tactic(auto, using(crate::proofs::Fronts::take_copied, crate::proofs::Fronts::rest_copied, std::proofs::lemmas::List::take_rest))]
// Copies as many of the bytes from `at` on as fit into a prefix of the room, and says how many.
fn copy_from(bytes: &[u8], at: usize, room: &mut [u8]) -> usize
    requires { at ≤ length bytes.now }
    ensures count { result ≡ min (length (drop at bytes.now)) (length room.old) }
    ensures copied { take result room.new ≡ take result (drop at bytes.now) }
    ensures rest { drop result room.new ≡ drop result room.old }
{
    let left = &bytes[at..];
    let n = left.len().min(room.len());
    room[..n].copy_from_slice(&left[..n]);
    n
}
