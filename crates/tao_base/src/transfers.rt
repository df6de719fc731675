//! Bytes that are written and read whole, however they are chunked; items appended and inserted within capacity.
ghost use Rattle.std.specs.Prelude.{◌≡◌, ◌↔◌, ◌+◌, ◌<◌, ◌≤◌, ◌++◌, length, take, insert, vec_len, vec_capacity, IfOk, OnOk, OnErr, IsTrue, Contains};
ghost use Rattle.std.specs.Io.KnownBytes.{Consumes, IsAtEnd};
ghost use Rattle.tao_base.specs.Causes.{HasCause};
ghost use Rattle.tao_base.specs.Transfers.{PutsAll, PutsPart, ConsumesFewer, same};

use crate::failures::Failed;
use crate::sinks::Sink;
use crate::sources::Source;

/// Writes all bytes. On Err a write has failed, and only a prefix was written.
pub fn write_all<K: Sink>(sink: &mut K, bytes: &[u8]) -> Result<(), Failed>
    ensures ok { OnOk result (PutsAll K.put K.faults sink.old sink.new bytes.now) }
    ensures err { OnErr result (PutsPart K.put K.faults sink.old sink.new bytes.now) }
    ensures cause { HasCause (K.faults sink.old) (K.faults sink.new) result }
    ensures apart { K.apart sink.new ≡ K.apart sink.old }
{
    let mut at = 0;
    while at < bytes.len() {
        at += sink.write(&bytes[at..])?;
    }
    Ok(())
}

/// Fills the room and says how many bytes came: fewer only at the source's end. Nothing is read after a read that failed.
pub fn fill<S: Source>(source: &mut S, room: &mut [u8]) -> Result<usize, Failed>
    ensures bound { IfOk result (λ n. n ≤ length room.old) }
    ensures bytes { IfOk result (λ n. Consumes (S.left source.old) (S.left source.new) (take n room.new)) }
    ensures end { IfOk result (λ n. n < length room.old → IsAtEnd (S.left source.new)) }
    ensures err { OnErr result (ConsumesFewer (S.left source.old) (S.left source.new) (length room.old)) }
    ensures cause { HasCause (S.faults source.old) (S.faults source.new) result }
    ensures beside { S.beside source.new ≡ S.beside source.old }
{
    let mut at = 0;
    while at < room.len() {
        let n = source.read(&mut room[at..])?;
        if n == 0 {
            return Ok(at);
        }
        at += n;
    }
    Ok(at)
}

/// Appends items to a list that has capacity for them.
pub fn append_within<T: Copy>(list: &mut Vec<T>, more: &[T])
    requires { vec_len list.old + length more.now ≤ vec_capacity list.old }
    ensures items { list.new.items ≡ list.old.items ++ more.now }
    ensures len { vec_len list.new ≡ vec_len list.old + length more.now }
    ensures capacity { vec_capacity list.old ≤ vec_capacity list.new }
{
    match list.extend_from_slice(more) {
        Ok(()) => {}
        Err(_) => unreachable!(),
    }
}

/// Inserts an item at a place of a list that has capacity for it.
pub fn insert_within<T: Drop>(list: &mut Vec<T>, place: usize, item: T)
    requires place { place ≤ vec_len list.old }
    requires room { vec_len list.old < vec_capacity list.old }
    ensures items { list.new.items ≡ insert list.old.items place item }
    ensures len { vec_len list.new ≡ vec_len list.old + 1 }
    ensures capacity { vec_capacity list.old ≤ vec_capacity list.new }
{
    match list.insert(place, item) {
        Ok(()) => {}
        Err(_) => unreachable!(),
    }
}

/// Whether the number is one of the list.
pub fn is_listed(numbers: &[u32], number: u64) -> bool
    ensures { IsTrue result ↔ Contains numbers.now number }
{
    numbers.iter().any(|n| u64::from(*n) == number)
}

/// Whether these are the same bytes.
pub fn are_same(left: &[u8], right: &[u8]) -> bool
    ensures { result ≡ same left.now right.now }
{
    left == right
}
