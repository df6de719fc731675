//! Where bytes go to.
ghost use Rattle.std.specs.Prelude.{◌≡◌, ◌⊎◌, ℕ, ◌+◌, ◌-◌, ◌^◌, ◌<◌, ◌≤◌, ◌↔◌, min, List, [], ◌++◌, length, vec_len, vec_capacity, Option, Some, None, IfOk, OnOk, OnErr, IsErr, Contains};
ghost use Rattle.std.specs.Io.KnownBytes.{WriteAppends};
ghost use Rattle.tao_base.specs.Causes.{HasCause, TakesSome, one_more};
ghost use Rattle.tao_base.specs.Memory.{no_half};

use crate::failures::{Failed, NoMemory};
use crate::lists::Numbers;
use crate::transfers::{append_within, is_listed};
use std::alloc::Global;
use std::marker::Model;

/// Something that takes bytes, as a file or a socket does. It may fail at any call.
pub trait Sink {
    /// The bytes that were put, where the sink tells them.
    ghost put: { Self → Option (List ℕ) };

    /// How many calls have failed; the counter saturates at 2^64 - 1.
    ghost faults: { Self → ℕ };

    /// What a stream, which is a source too, tells of that half: its faults and the bytes left. A plain sink has (0, None).
    ghost apart: { Self → ℕ × Option (List ℕ) };

    /// Takes bytes from the front and says how many: never none.
    fn write(&mut self, bytes: &[u8]) -> Result<usize, Failed>
        requires { 0 < length bytes.now }
        ensures taken { TakesSome result (length bytes.now) }
        ensures bytes { WriteAppends (put self.old) (put self.new) result bytes.now }
        ensures cause { HasCause (faults self.old) (faults self.new) result }
        ensures apart { apart self.new ≡ apart self.old };
}

/// A sink in memory, whose bytes and counts are known. It takes as many bytes as it has capacity for, and then fails.
#[derive(Debug, Drop)]
pub struct ByteSink {
    put: Vec<u8>,
    room: usize,
    fails: Numbers,
    calls: u64,
    faults: u64,
}

impl Model for ByteSink {
    ghost use Rattle.std.specs.Prelude.{◌≤◌, ◌+◌, vec_len, vec_capacity};
    ghost use Rattle.tao_base.specs.Memory.{SinkState};

    ghost Value = { SinkState };

    ghost view = { λ s. record { put = s.put.items; room = s.room; fails = s.fails; calls = s.calls; faults = s.faults } };

    ghost invariant = { λ s. vec_len s.put + s.room ≤ vec_capacity s.put };
}

impl ByteSink {
    /// A sink without capacity, whose calls with the numbers in `fails`, counted from 0, fail.
    pub fn new(alloc: Global, fails: Numbers) -> ByteSink
        ensures put { result.put ≡ [] }
        ensures room { result.room ≡ 0 }
        ensures fails { result.fails ≡ fails }
        ensures calls { result.calls ≡ 0 }
        ensures faults { result.faults ≡ 0 }
    {
        ByteSink {
            put: Vec::new(alloc),
            room: 0,
            fails,
            calls: 0,
            faults: 0,
        }
    }

    /// Preallocates `n` more bytes.
    pub fn reserve(&mut self, n: usize) -> Result<(), NoMemory>
        ensures ok { OnOk result (self.new ≡ record self.old { room = self.old.room + n }) }
        ensures err { OnErr result (self.new ≡ self.old) }
    {
        let Some(room) = self.room.checked_add(n) else {
            return Err(NoMemory);
        };
        if self.put.reserve(room).is_err() {
            return Err(NoMemory);
        }
        self.room = room;
        Ok(())
    }

    /// The bytes that were put.
    pub fn bytes(&self) -> &[u8]
        ensures { result.now ≡ self.now.put }
    {
        &self.put
    }
}

impl Sink for ByteSink {
    ghost put = { λ s. Some s.put };

    ghost faults = { λ s. s.faults };

    ghost apart = { λ _. no_half };

    fn write(&mut self, bytes: &[u8]) -> Result<usize, Failed>
        requires { 0 < length bytes.now }
        ensures taken { TakesSome result (length bytes.now) }
        ensures bytes { WriteAppends (Some self.old.put) (Some self.new.put) result bytes.now }
        ensures cause { HasCause self.old.faults self.new.faults result }
        ensures apart { no_half ≡ no_half }
        ensures fails { IsErr result ↔ (Contains self.old.fails self.old.calls ⊎ (self.old.room ≡ 0)) }
        ensures count { IfOk result (λ n. n ≡ min (length bytes.now) self.old.room) }
        ensures room { IfOk result (λ n. self.new.room + n ≡ self.old.room) }
        ensures room_err { OnErr result (self.new.room ≡ self.old.room) }
        ensures calls { self.new.calls ≡ one_more self.old.calls }
        ensures faults { OnErr result (self.new.faults ≡ one_more self.old.faults) }
        ensures table { self.new.fails ≡ self.old.fails }
    {
        let call = self.calls;
        self.calls = call.saturating_add(1);
        if is_listed(self.fails.as_slice(), call) || self.room == 0 {
            self.faults = self.faults.saturating_add(1);
            return Err(Failed);
        }
        let n = bytes.len().min(self.room);
        append_within(&mut self.put, &bytes[..n]);
        self.room -= n;
        Ok(n)
    }
}
