//! What a session came to, in numbers, counted in one pass over its record.
ghost use Rattle.std.specs.Prelude.{◌≡◌, ◌+◌, ◌*◌, ◌<◌, ◌≤◌, length, reverse, IfOk};
ghost use Rattle.std.specs.List.{sum};
ghost use Rattle.tao_base.specs.declared.session.Event.TheVariants.{Issue};
ghost use Rattle.tao_model.specs.Events.{arrived, buckets_issued};
ghost use Rattle.tao_model.specs.Replies.{plain_reply, released};
ghost use Rattle.tao_model.specs.Lawful.{FollowsLawfully};
ghost use Rattle.tao_trace.specs.Printing.{printed, events_before};
ghost use Rattle.tao_trace.specs.Counts.{reals, reply_sum, IsSummary};
ghost use Rattle.tao_trace.specs.Tables.{NextOf};

use crate::tables::Tables;
use std::alloc::Global;
use tao_base::{Bucket, Event, NoMemory};
use tao_record::Record;

/// What a session came to.
#[derive(Clone, Copy, Debug, PartialEq, Eq)]
pub struct Summary {
    /// All arrivals, pads too.
    pub arrivals: u64,
    /// The real ones, each of which fetches for its block.
    pub real: u64,
    /// The write-backs.
    pub stores: u64,
    /// The buckets of all write-backs.
    pub buckets: u64,
    /// The sum of all bytes of all replies that were released.
    pub sum: u64,
}

impl Summary {
    /// The numbers of a record. Takes time in its length and in that of its replies.
    pub fn of(alloc: Global, history: &Record) -> Result<Summary, NoMemory>
        requires { FollowsLawfully history.now.history.opening (reverse history.now.history.events) }
        ensures { IfOk result (λ summary. IsSummary history.now.history.opening (reverse history.now.history.events) summary) }
    {
        let mut tables = Tables::new(alloc, history, 0)?;
        let mut real = 0;
        let mut buckets = 0;
        for _ in 0..tables.left() {
            real = tables.real_after(real);
            buckets = tables.buckets_after(buckets);
            tables.keep_next()?;
        }
        Ok(tables.summary(real, buckets))
    }
}

impl<'a> Tables<'a> {
    // The number of real arrivals after the next event, from that before it.
    fn real_after(&self, real: u64) -> u64
        requires next { self.now.place < length self.now.history.events }
        requires before { real ≡ reals (printed self.now) }
        ensures { result ≡ reals (events_before self.now.history (self.now.place + 1)) }
    {
        match self.next_event() {
            Event::Arrive { op, .. } => { if self.is_real(op) { real + 1 } else { real } }
            Event::Done { .. } | Event::Issue { .. } | Event::Acked { .. } | Event::Fault { .. } =>
                { real }
        }
    }

    // The number of buckets written back after the next event, from that before it.
    fn buckets_after(&self, count: u64) -> u64
        requires next { self.now.place < length self.now.history.events }
        requires before { count ≡ buckets_issued (printed self.now) }
        ensures { result ≡ buckets_issued (events_before self.now.history (self.now.place + 1)) }
    {
        match self.next_event() {
            Event::Issue {
                version,
                nonce,
                buckets,
            } => self.buckets_with(count, *version, *nonce, buckets.as_slice()),
            Event::Arrive { .. } | Event::Done { .. } | Event::Acked { .. } | Event::Fault { .. } =>
                { count }
        }
    }

    fn buckets_with(&self, count: u64, version: u32, nonce: u64, buckets: &[Bucket]) -> u64
        requires next { NextOf self.now (Issue version nonce buckets.now) }
        requires before { count ≡ buckets_issued (printed self.now) }
        ensures { result ≡ buckets_issued (events_before self.now.history (self.now.place + 1)) }
    {
        count + buckets.len() as u64
    }

    fn summary(&self, real: u64, buckets: u64) -> Summary
        requires real { real ≡ reals (printed self.now) }
        requires buckets { buckets ≡ buckets_issued (printed self.now) }
        ensures { IsSummary self.now.history.opening (printed self.now) result }
    {
        Summary {
            arrivals: self.told.len() as u64,
            real,
            stores: self.sent.len() as u64,
            buckets,
            sum: self.reply_sum(),
        }
    }

    fn reply_sum(&self) -> u64
        ensures { result ≡ reply_sum self.now.history.opening (printed self.now) }
    {
        let mut sum = 0;
        for arrival in 0..self.released() {
            sum += self.reply_bytes(arrival);
        }
        sum
    }

    fn released(&self) -> u64
        ensures is { result ≡ released (printed self.now) }
        ensures within { result ≤ arrived (printed self.now) }
        ensures limit { result ≤ 65536 }
    {
        self.places.released()
    }

    // The sum of the bytes of a reply; a pad has none.
    fn reply_bytes(&self, arrival: u64) -> u64
        requires { arrival < arrived (printed self.now) }
        ensures is { result ≡ sum (plain_reply self.now.history.opening (printed self.now) arrival) }
        ensures few { result ≤ 255 * 4096 }
    {
        match self.told[arrival as usize].reply {
            Some(value) => byte_sum(value.as_slice()),
            None => 0,
        }
    }
}

fn byte_sum(bytes: &[u8]) -> u64
    requires { length bytes.now ≤ 4096 }
    ensures is { result ≡ sum bytes.now }
    ensures few { result ≤ 255 * length bytes.now }
{
    let mut sum = 0;
    for byte in bytes {
        sum += u64::from(*byte);
    }
    sum
}
