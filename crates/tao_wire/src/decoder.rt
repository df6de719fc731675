//! Frames that are read from a stream, however it is chunked.
ghost use Rattle.std.specs.Prelude.{◌≡◌, ◌⊎◌, ℕ, ◌^◌, ◌≤◌, List, [], ◌++◌, IfOk, OnOk, OnErr};
ghost use Rattle.tao_wire.specs.Reading.{Reads, Length};

use crate::contents::message_of;
use crate::message::{Message, WireFault};
use bytes::{Buf, BytesMut};
use std::alloc::Global;
use std::marker::Model;
use tao_base::NoMemory;

// The bytes that are preallocated.
const FIRST_ROOM: usize = 256;

/// Takes a stream in any pieces, and hands out the messages of its frames. Its memory grows with the bytes that came, not with what a
/// length field promises.
#[derive(Debug, Drop)]
pub struct Decoder {
    alloc: Global,
    buffer: BytesMut,
    limit: u32,
}

impl Model for Decoder {
    ghost use Rattle.std.specs.Prelude.{◌^◌, ◌≤◌};
    ghost use Rattle.tao_wire.specs.Runs.{DecoderState};

    ghost Value = { DecoderState };

    ghost view = { λ d. record { limit = d.limit; left = d.buffer.items } };

    ghost invariant = { λ d. d.limit ≤ 2 ^ 25 };
}

impl Decoder {
    ghost use Rattle.tao_wire.specs.Frames.{BeginsWith, IsPartial, BeginsFaulty};
    ghost use Rattle.tao_wire.specs.declared.message.Message.{Message};
    ghost use Rattle.tao_wire.specs.declared.message.WireFault.{WireFault};
    ghost use Rattle.tao_wire.specs.Runs.{Answers};

    /// A decoder that takes a length field up to the limit.
    pub fn new(alloc: Global, limit: u32) -> Result<Decoder, NoMemory>
        requires low { 1 ≤ limit }
        requires high { limit ≤ 2 ^ 25 }
        ensures { IfOk result (λ d. d ≡ record { limit = limit; left = [] }) }
    {
        Ok(Decoder {
            alloc,
            buffer: BytesMut::with_capacity(alloc, FIRST_ROOM)?,
            limit,
        })
    }

    /// Takes the next piece of the stream.
    pub fn feed(&mut self, piece: &[u8]) -> Result<(), NoMemory>
        ensures ok { OnOk result (self.new ≡ record self.old { left = self.old.left ++ piece.now }) }
        ensures err { OnErr result (self.new ≡ self.old) }
    {
        self.buffer.extend_from_slice(piece)?;
        Ok(())
    }

    #[tactic(auto, using(crate::proofs::AnswerLemmas::only_none, crate::proofs::AnswerLemmas::only_fault, crate::proofs::AnswerLemmas::only_message))]
    /// Hands out the next message, or None until its frame has come whole. The fault of a frame is a sticky error; after `Memory` the
    /// same message is still to come.
    pub fn next_message(&mut self) -> Result<Option<Message>, WireFault>
        ensures answer { Answers self.old.limit self.old.left result self.new.left }
        ensures limit { self.new.limit ≡ self.old.limit }
        ensures limit_high { self.new.limit ≤ 2 ^ 25 }

        // Each answer comes where its cause is there; out of memory comes in a message's place alone.
        ensures none { IsPartial self.old.limit self.old.left → result ≡ Ok None }
        ensures fault { (fault : WireFault) → BeginsFaulty self.old.limit self.old.left fault → result ≡ Err fault }
        ensures message { (message : Message) (rest : List ℕ) → BeginsWith self.old.limit self.old.left message rest
            → ((result ≡ Ok (Some message)) × (self.new.left ≡ rest)) ⊎ (result ≡ Err WireFault.Memory) }
    {
        self.take_message()
    }

    fn take_message(&mut self) -> Result<Option<Message>, WireFault>
        ensures answer { Answers self.old.limit self.old.left result self.new.left }
        ensures limit { self.new.limit ≡ self.old.limit }
        ensures limit_high { self.new.limit ≤ 2 ^ 25 }
    {
        let first = first_frame(self.alloc, self.buffer.as_slice(), self.limit)?;
        let Some((message, len)) = first else {
            return Ok(None);
        };
        self.buffer.advance(len);
        Ok(Some(message))
    }
}

#[cfg(test)]
impl Decoder {
    /// The bytes for which the buffer has memory.
    pub(crate) fn capacity(&self) -> usize {
        self.buffer.capacity()
    }
}

// The message of the first frame, and the length of this frame.
fn first_frame(
    alloc: Global,
    bytes: &[u8],
    limit: u32,
) -> Result<Option<(Message, usize)>, WireFault>
    ensures { Reads limit bytes.now result }
{
    let Some(len) = first_length(bytes, limit)? else {
        return Ok(None);
    };
    let message = message_of(alloc, &bytes[4..4 + len])?;
    Ok(Some((message, 4 + len)))
}

// The length field of the first frame, where that has come whole.
fn first_length(mut bytes: &[u8], limit: u32) -> Result<Option<usize>, WireFault>
    ensures { Length limit bytes.now result }
{
    let Ok(field) = bytes.try_get_u32() else {
        return Ok(None);
    };
    if limit < field {
        return Err(WireFault::Long);
    }
    if field == 0 {
        return Err(WireFault::Body);
    }
    let len = field as usize;
    if bytes.len() < len {
        return Ok(None);
    }
    Ok(Some(len))
}
