//! The kind byte and the body of a frame that has come whole.
ghost use Rattle.std.specs.Prelude.{◌≡◌, ◌≢◌, ◌^◌, ◌<◌, ◌≤◌, ◌∷◌, ◌++◌, length, MatchOption};
ghost use Rattle.std.specs.Int.{w32, w64, to_be_bytes};
ghost use Rattle.tao_wire.specs.Reading.{Says};

use crate::message::{Message, WireFault};
use bytes::Buf;
use std::alloc::Global;
use tao_base::{Block, Image, NoMemory};

/// The message of this kind byte and body.
pub(crate) fn message_of(alloc: Global, content: &[u8]) -> Result<Message, WireFault>
    requires { 0 < length content.now }
    ensures { Says content.now result }
{
    let body = &content[1..];
    match content[0] {
        1 => fetch(body),
        2 => path(alloc, body),
        3 => store(alloc, body),
        4 => stored(body),
        5 => get(body),
        6 => put(alloc, body),
        7 => value(alloc, body),
        8 => refused(body),
        _ => Err(WireFault::Kind),
    }
}

#[tactic(auto, using(crate::proofs::BodyLemmas::no_fetch))]
fn fetch(body: &[u8]) -> Result<Message, WireFault>
    ensures { Says (1 ∷ body.now) result }
{
    let Some((id, rest)) = split_u64(body) else {
        return Err(WireFault::Body);
    };
    match only_u32(rest) {
        Some(leaf) => Ok(Message::Fetch { id, leaf }),
        None => Err(WireFault::Body),
    }
}

#[tactic(auto, using(crate::proofs::BodyLemmas::no_path, crate::proofs::BodyLemmas::some_path))]
fn path(alloc: Global, body: &[u8]) -> Result<Message, WireFault>
    ensures { Says (2 ∷ body.now) result }
{
    let Some((id, rest)) = split_u64(body) else {
        return Err(WireFault::Body);
    };
    match Image::from_slice(alloc, rest) {
        Ok(image) => Ok(Message::Path { id, image }),
        Err(NoMemory) => Err(WireFault::Memory),
    }
}

#[tactic(auto, using(crate::proofs::BodyLemmas::no_store, crate::proofs::BodyLemmas::some_store))]
fn store(alloc: Global, body: &[u8]) -> Result<Message, WireFault>
    ensures { Says (3 ∷ body.now) result }
{
    let Some((version, rest)) = split_u32(body) else {
        return Err(WireFault::Body);
    };
    match Image::from_slice(alloc, rest) {
        Ok(image) => Ok(Message::Store { version, image }),
        Err(NoMemory) => Err(WireFault::Memory),
    }
}

#[tactic(auto, using(crate::proofs::BodyLemmas::no_stored))]
fn stored(body: &[u8]) -> Result<Message, WireFault>
    ensures { Says (4 ∷ body.now) result }
{
    match only_u32(body) {
        Some(version) => Ok(Message::Stored { version }),
        None => Err(WireFault::Body),
    }
}

#[tactic(auto, using(crate::proofs::BodyLemmas::no_get))]
fn get(body: &[u8]) -> Result<Message, WireFault>
    ensures { Says (5 ∷ body.now) result }
{
    match only_u32(body) {
        Some(block) => Ok(Message::Get { block }),
        None => Err(WireFault::Body),
    }
}

#[tactic(auto, using(crate::proofs::BodyLemmas::no_put, crate::proofs::BodyLemmas::some_put))]
fn put(alloc: Global, body: &[u8]) -> Result<Message, WireFault>
    ensures { Says (6 ∷ body.now) result }
{
    let Some((block, rest)) = split_u32(body) else {
        return Err(WireFault::Body);
    };
    match Block::from_slice(alloc, rest) {
        Ok(value) => Ok(Message::Put { block, value }),
        Err(NoMemory) => Err(WireFault::Memory),
    }
}

#[tactic(auto, using(crate::proofs::BodyLemmas::some_value))]
fn value(alloc: Global, body: &[u8]) -> Result<Message, WireFault>
    ensures { Says (7 ∷ body.now) result }
{
    match Block::from_slice(alloc, body) {
        Ok(value) => Ok(Message::Value { value }),
        Err(NoMemory) => Err(WireFault::Memory),
    }
}

#[tactic(auto, using(crate::proofs::BodyLemmas::no_refused))]
fn refused(body: &[u8]) -> Result<Message, WireFault>
    ensures { Says (8 ∷ body.now) result }
{
    match body {
        [code] => Ok(Message::Refused { code: *code }),
        _ => Err(WireFault::Body),
    }
}

#[tactic(auto, using(crate::proofs::BodyLemmas::joined_8))]
// The number that the bytes begin with, and the rest.
fn split_u64(mut bytes: &[u8]) -> Option<(u64, &[u8])>
    ensures { MatchOption result (length bytes.now < 8) (λ p. (bytes.now ≡ to_be_bytes w64 p.0 ++ p.1.now) × (p.0 < 2 ^ 64)) }
{
    let number = bytes.try_get_u64().ok()?;
    Some((number, bytes))
}

#[tactic(auto, using(crate::proofs::BodyLemmas::joined_4))]
fn split_u32(mut bytes: &[u8]) -> Option<(u32, &[u8])>
    ensures { MatchOption result (length bytes.now < 4) (λ p. (bytes.now ≡ to_be_bytes w32 p.0 ++ p.1.now) × (p.0 < 2 ^ 32)) }
{
    let number = bytes.try_get_u32().ok()?;
    Some((number, bytes))
}

// The number that the bytes are.
fn only_u32(bytes: &[u8]) -> Option<u32>
    ensures { MatchOption result (length bytes.now ≢ 4) (λ n. (bytes.now ≡ to_be_bytes w32 n) × (n < 2 ^ 32)) }
{
    let (number, rest) = split_u32(bytes)?;
    if rest.is_empty() { Some(number) } else { None }
}
