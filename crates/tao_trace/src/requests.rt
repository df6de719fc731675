//! The request trace: all that the server sees of a record, collected in one pass, and the line of each request.
ghost use Rattle.std.specs.Prelude.{◌≡◌, ◌<◌, [], ◌∷◌, ◌++◌, if◌then◌else◌, length, flat_map, reverse, OnOk, OnErr, IfOk};
ghost use Rattle.tao_base.specs.declared.session.Event.TheVariants.{Issue};
ghost use Rattle.tao_base.specs.Lines.{spaced, words_line};
ghost use Rattle.tao_text.specs.Lines.{Extends};
ghost use Rattle.tao_model.specs.Lawful.{FollowsLawfully, IsInRange};
ghost use Rattle.tao_model.specs.Trace.{nodes_in, again_of, request_trace};
ghost use Rattle.tao_model.specs.Transcript.{request_line};
ghost use Rattle.tao_trace.specs.Printing.{printed, gone_on, IsTraced};
ghost use Rattle.tao_trace.specs.Tables.{NextOf, IsArrivalNext};

use crate::close::print_scan;
use crate::lines::begin_store;
use crate::tables::Tables;
use std::alloc::Global;
use tao_base::{Bucket, Event, Image, Items, NoMemory, Numbers, Op};
use tao_model::Request;
use tao_record::Record;
use tao_text::{end_line, line_words, push_number};

/// The requests of a session, in the order in which the server sees them.
pub type Trace = Items<Request>;

/// The trace of a record: the load, the fetches and the stores as its events tell them, then the stores of the versions `again` once
/// more, then the scan of the close. A version that wasn't issued adds nothing. Takes time in the record and in the trace.
pub fn trace_of(
    alloc: Global,
    history: &Record,
    again: &[u32],
    scanned: bool,
) -> Result<Trace, NoMemory>
    requires { FollowsLawfully history.now.history.opening (reverse history.now.history.events) }
    ensures { IfOk result (λ trace. trace ≡ request_trace history.now.history again.now scanned) }
{
    let mut tables = Tables::new(alloc, history, 0)?;
    let mut trace = Trace::new(alloc);
    trace.push(Request::Load(history.params().nodes()))?;
    for _ in 0..tables.left() {
        tables.trace_next(alloc, &mut trace)?;
    }
    tables.trace_again(alloc, &mut trace, again)?;
    trace_scan(&mut trace, scanned)?;
    Ok(trace)
}

fn trace_scan(trace: &mut Trace, scanned: bool) -> Result<(), NoMemory>
    ensures { OnOk result (trace.new ≡ trace.old ++ (if scanned then Request.Scan ∷ [] else [])) }
{
    if scanned {
        return trace.push(Request::Scan);
    }
    Ok(())
}

impl<'a> Tables<'a> {
    // Appends the request of the next event, if it has one, and keeps the event.
    fn trace_next(&mut self, alloc: Global, trace: &mut Trace) -> Result<(), NoMemory>
        requires next { self.old.place < length self.old.history.events }
        requires so_far { IsTraced self.old trace.old }
        ensures kept { OnOk result (self.new ≡ gone_on self.old) }
        ensures traced { OnOk result (IsTraced (gone_on self.old) trace.new) }
    {
        self.trace_event(alloc, trace)?;
        self.keep_next()
    }

    fn trace_event(&self, alloc: Global, trace: &mut Trace) -> Result<(), NoMemory>
        requires next { self.now.place < length self.now.history.events }
        requires so_far { IsTraced self.now trace.old }
        ensures { OnOk result (IsTraced (gone_on self.now) trace.new) }
    {
        match self.next_event() {
            Event::Arrive { op, word, .. } => self.trace_fetch(trace, op, *word),
            Event::Issue {
                version,
                nonce,
                buckets,
            } => self.trace_store(alloc, trace, *version, *nonce, buckets.as_slice()),
            Event::Done { .. } | Event::Acked { .. } | Event::Fault { .. } => Ok(()),
        }
    }

    fn trace_fetch(&self, trace: &mut Trace, op: &Op, word: u32) -> Result<(), NoMemory>
        requires next { IsArrivalNext self.now op.now word }
        requires range { IsInRange self.now.history.opening.shape op.now }
        requires so_far { IsTraced self.now trace.old }
        ensures { OnOk result (IsTraced (gone_on self.now) trace.new) }
    {
        let arrival = self.told.len() as u64;
        trace.push(Request::Fetch(arrival, self.leaf_for(op, word)))?;
        Ok(())
    }

    fn trace_store(
        &self,
        alloc: Global,
        trace: &mut Trace,
        version: u32,
        nonce: u64,
        buckets: &[Bucket],
    ) -> Result<(), NoMemory>
        requires next { NextOf self.now (Issue version nonce buckets.now) }
        requires so_far { IsTraced self.now trace.old }
        ensures { OnOk result (IsTraced (gone_on self.now) trace.new) }
    {
        trace.push(Request::Store(version, nonce, nodes_of(alloc, buckets)?))
    }

    // Appends the stores of these versions once more.
    fn trace_again(
        &self,
        alloc: Global,
        trace: &mut Trace,
        versions: &[u32],
    ) -> Result<(), NoMemory>
        ensures { OnOk result (trace.new ≡ trace.old ++ flat_map (again_of (printed self.now)) versions.now) }
    {
        for version in versions {
            self.trace_sent(alloc, trace, *version)?;
        }
        Ok(())
    }

    // Appends the store of this version once more, if it was issued.
    fn trace_sent(&self, alloc: Global, trace: &mut Trace, version: u32) -> Result<(), NoMemory>
        ensures { OnOk result (trace.new ≡ trace.old ++ again_of (printed self.now) version) }
    {
        if version == 0 || version as usize > self.sent.len() {
            return Ok(());
        }
        let row = &self.sent[version as usize - 1];
        trace.push(Request::Again(version, row.nonce, nodes_of(alloc, row.buckets)?))
    }
}

fn nodes_of(alloc: Global, buckets: &[Bucket]) -> Result<Numbers, NoMemory>
    ensures { IfOk result (λ nodes. nodes ≡ nodes_in buckets.now) }
{
    let nodes: Vec<u32> = buckets.iter().map(|bucket| bucket.node).collect(alloc)?;
    Ok(Numbers::from_vec(nodes))
}

/// Appends the line of a request, in the words of a transcript.
pub fn print_request(out: &mut Image, request: &Request) -> Result<(), NoMemory>
    ensures ok { OnOk result (out.new ≡ out.old ++ request_line request.now) }
    ensures err { OnErr result (out.new ≡ out.old) }
{
    let len = out.as_slice().len();
    match push_request(out, request) {
        Ok(()) => Ok(()),
        Err(NoMemory) => {
            out.truncate(len);
            Err(NoMemory)
        }
    }
}

fn push_request(out: &mut Image, request: &Request) -> Result<(), NoMemory>
    ensures ok { OnOk result (out.new ≡ out.old ++ request_line request.now) }
    ensures err { OnErr result (Extends out.old out.new) }
{
    match request {
        Request::Load(count) => line_words(out, "load", &[u64::from(*count)]),
        Request::Fetch(number, leaf) => line_words(out, "fetch", &[*number, u64::from(*leaf)]),
        Request::Store(version, nonce, nodes) => {
            push_stored(out, "store", *version, *nonce, nodes.as_slice())
        }
        Request::Again(version, nonce, nodes) => {
            push_stored(out, "again", *version, *nonce, nodes.as_slice())
        }
        Request::Scan => print_scan(out),
    }
}

#[tactic(auto, unfolding(tao_base::specs::Lines::words_line))]
fn push_stored(
    out: &mut Image,
    word: &str,
    version: u32,
    nonce: u64,
    nodes: &[u32],
) -> Result<(), NoMemory>
    ensures ok { OnOk result (out.new ≡ out.old ++ words_line word.now (version ∷ nonce ∷ nodes.now)) }
    ensures err { OnErr result (Extends out.old out.new) }
{
    begin_store(out, word, version, nonce)?;
    push_numbers(out, nodes)?;
    end_line(out)
}

#[tactic(auto, using(tao_text::proofs::Appended::extends_through))]
fn push_numbers(out: &mut Image, numbers: &[u32]) -> Result<(), NoMemory>
    ensures ok { OnOk result (out.new ≡ out.old ++ flat_map spaced numbers.now) }
    ensures err { OnErr result (Extends out.old out.new) }
{
    for number in numbers {
        push_number(out, u64::from(*number))?;
    }
    Ok(())
}
