ghost use Rattle.std.specs.Prelude.{◌≡◌, ◌+◌, ◌<◌, ◌≤◌, [], ◌∷◌, ◌++◌, length, reverse, IfOk, OnOk};
ghost use Rattle.tao_base.specs.declared.session.Event.TheVariants.{Arrive, Done, Issue, Acked, Fault};
ghost use Rattle.tao_base.specs.declared.calls.Op.TheVariants.{Read, Write, Pad};
ghost use Rattle.tao_model.specs.Lawful.{FollowsLawfully};
ghost use Rattle.tao_record.specs.State.{FitDone, FitIssue};
ghost use Rattle.tao_trace.specs.Told.{bare, told_opening, told_record, arrivals, later_events};

use crate::{
    Printer, Summary, print_block, print_event, print_opening, print_request, print_scan, trace_of,
};
use std::alloc::Global;
use std::test::Fail;
use tao_base::{
    Block, Blocks, Bucket, BucketFault, Buckets, Cause, Entries, Form, Image, NoMemory, Numbers,
    Op, Params,
};
use tao_record::Record;

fn bucket(alloc: Global, node: u32, version: u32, nonce: u64) -> Result<Bucket, NoMemory>
    ensures { IfOk result (λ b. b ≡ bare node version nonce) }
{
    Ok(Bucket {
        node,
        version,
        nonce,
        entries: Entries::new(alloc)?,
    })
}

fn opened(alloc: Global) -> Result<Record, Fail>
    ensures opening { IfOk result (λ r. r.history.opening ≡ told_opening) }
    ensures events { IfOk result (λ r. r.history.events ≡ []) }
    ensures dones { IfOk result (λ r. r.dones ≡ 3) }
    ensures issues { IfOk result (λ r. r.issues ≡ 1) }
    ensures others { IfOk result (λ r. r.others ≡ 5) }
{
    let p = Params::new(1, 1, 4, 2, 3)?.with_form(Form::Two)?;
    let mut first = Blocks::new(alloc);
    first.push(Block::from_slice(alloc, &[0; 4])?)?;
    first.push(Block::from_slice(alloc, b"aaaa")?)?;
    let words = Numbers::from_slice(alloc, &[0, 1])?;
    let mut record_of = Record::begin(alloc, &p, words, first, Buckets::new(alloc))?;
    record_of.reserve(3, 1, 5)?;
    Ok(record_of)
}

fn add_arrivals(record_of: &mut Record, written: Block)
    requires others { record_of.old.others ≡ 5 }
    ensures opening { record_of.new.history.opening ≡ record_of.old.history.opening }
    ensures dones { record_of.new.dones ≡ record_of.old.dones }
    ensures issues { record_of.new.issues ≡ record_of.old.issues }
    ensures others { record_of.new.others ≡ 2 }
    ensures events { record_of.new.history.events ≡ record_of.old.history.events ++ Arrive 0 (Write 0 written) 1 ∷ Arrive 1 (Read 0) 1 ∷ Arrive 2 Pad 0 ∷ [] }
{
    record_of.add_arrive(0, Op::Write(0, written), 1);
    record_of.add_arrive(1, Op::Read(0), 1);
    record_of.add_arrive(2, Op::Pad, 0);
}

fn add_dones(record_of: &mut Record, upper: &[Bucket], lower: &[Bucket])
    requires spare { record_of.old.dones ≡ 3 }
    requires upper { FitDone record_of.old.history.opening.shape upper.now }
    requires lower { FitDone record_of.old.history.opening.shape lower.now }
    ensures opening { record_of.new.history.opening ≡ record_of.old.history.opening }
    ensures issues { record_of.new.issues ≡ record_of.old.issues }
    ensures others { record_of.new.others ≡ record_of.old.others }
    ensures events { record_of.new.history.events ≡ record_of.old.history.events ++ Done 1 upper.now ∷ Done 2 lower.now ∷ Done 0 [] ∷ [] }
{
    record_of.add_done(1, upper);
    record_of.add_done(2, lower);
    record_of.add_done(0, &[]);
}

fn add_others(record_of: &mut Record, stored: &[Bucket])
    requires issue { record_of.old.issues ≡ 1 }
    requires others { record_of.old.others ≡ 2 }
    requires stored { FitIssue record_of.old.history.opening.shape stored.now }
    ensures opening { record_of.new.history.opening ≡ record_of.old.history.opening }
    ensures events { record_of.new.history.events ≡ record_of.old.history.events ++ Issue 1 4 stored.now ∷ Acked 1 ∷ Arrive 0 (Read 1) 5 ∷ [] }
{
    record_of.add_issue(1, 4, stored);
    record_of.add_acked(1);
    record_of.add_arrive(0, Op::Read(1), 5);
}

fn told(alloc: Global) -> Result<Record, Fail>
    ensures lawful { IfOk result (λ r. FollowsLawfully r.history.opening (reverse r.history.events)) }
    ensures count { IfOk result (λ r. length r.history.events ≡ 10) }
{
    let mut record_of = opened(alloc)?;
    add_arrivals(&mut record_of, Block::from_slice(alloc, b"bbbb")?);
    let upper = [bucket(alloc, 1, 0, 1)?, bucket(alloc, 3, 0, 3)?];
    let lower = [bucket(alloc, 2, 0, 2)?];
    add_dones(&mut record_of, &upper, &lower);
    let stored = [
        bucket(alloc, 1, 1, 4)?,
        bucket(alloc, 2, 1, 5)?,
        bucket(alloc, 3, 1, 6)?,
    ];
    add_others(&mut record_of, &stored);
    record_of.add_fault(Cause::Damaged {
        fetch: 3,
        node: 3,
        fault: BucketFault::Tag,
    });
    Ok(record_of)
}

// The whole text, event by event.
fn text_of(
    alloc: Global,
    record_of: &Record,
    last: &[Block],
    again: usize,
) -> Result<Image, NoMemory>
    requires lawful { FollowsLawfully record_of.now.history.opening (reverse record_of.now.history.events) }
    requires blocks { length last.now ≡ 2 }
{
    let mut out = Image::new(alloc);
    print_opening(&mut out, record_of)?;
    print_events(alloc, &mut out, record_of, again)?;
    print_scan(&mut out)?;
    print_block(&mut out, last, 0)?;
    print_block(&mut out, last, 1)?;
    Ok(out)
}

fn print_events(
    alloc: Global,
    out: &mut Image,
    record_of: &Record,
    again: usize,
) -> Result<(), NoMemory>
    requires { FollowsLawfully record_of.now.history.opening (reverse record_of.now.history.events) }
{
    let mut printer = Printer::new(alloc, record_of, again)?;
    for _ in 0..printer.left() {
        printer.print_next(out)?;
    }
    Ok(())
}

fn last_blocks(alloc: Global) -> Result<Blocks, NoMemory>
    ensures { IfOk result (λ blocks. length blocks ≡ 2) }
{
    let mut last = Blocks::new(alloc);
    last.push(Block::from_slice(alloc, b"bbbb")?)?;
    last.push(Block::from_slice(alloc, b"aaaa")?)?;
    Ok(last)
}

fn one_text(alloc: Global, record_of: &Record, place: usize) -> Result<Image, NoMemory>
    requires lawful { FollowsLawfully record_of.now.history.opening (reverse record_of.now.history.events) }
    requires place { place < length record_of.now.history.events }
{
    let mut out = Image::new(alloc);
    print_event(alloc, &mut out, place, record_of)?;
    Ok(out)
}

// The lines of the trace, request by request.
fn trace_text(
    alloc: Global,
    record_of: &Record,
    again: &[u32],
    scanned: bool,
) -> Result<Image, NoMemory>
    requires { FollowsLawfully record_of.now.history.opening (reverse record_of.now.history.events) }
{
    let trace = trace_of(alloc, record_of, again, scanned)?;
    let mut out = Image::new(alloc);
    for request in trace.as_slice() {
        print_request(&mut out, request)?;
    }
    Ok(out)
}

const TEXT: &str =
    "tree 1 1 4 2 3\nform 2\nfirst 1 61616161\nload 3\narrive 0 0 write 0 62626262\nfetch 0 0\narrive 1 1 read 0\nfetch 1 1\narrive 2 2 pad\nfetch 2 0\ndone 1\ndone 2\ndone 0\nreply 0 0 00000000\nreply 1 1 62626262\nstore 1 4 1 2 3\nack 1\narrive 3 0 read 1\nfetch 3 1\nrefused 3 3 damaged Tag\nscan\nblock 0 62626262\nblock 1 61616161\n";

const SENT_AGAIN: &str =
    "tree 1 1 4 2 3\nform 2\nfirst 1 61616161\nload 3\narrive 0 0 write 0 62626262\nfetch 0 0\narrive 1 1 read 0\nfetch 1 1\narrive 2 2 pad\nfetch 2 0\ndone 1\ndone 2\ndone 0\nreply 0 0 00000000\nreply 1 1 62626262\nstore 1 4 1 2 3\nagain 1 4 1 2 3\nack 1\narrive 3 0 read 1\nfetch 3 1\nrefused 3 3 damaged Tag\nscan\nblock 0 62626262\nblock 1 61616161\n";

const REQUESTS: &str = "load 3\nfetch 0 0\nfetch 1 1\nfetch 2 0\nstore 1 4 1 2 3\nfetch 3 1\n";

const REQUESTS_AT_CLOSE: &str =
    "load 3\nfetch 0 0\nfetch 1 1\nfetch 2 0\nstore 1 4 1 2 3\nfetch 3 1\nagain 1 4 1 2 3\nscan\n";

const DONE: &str = "done 0\nreply 0 0 00000000\nreply 1 1 62626262\n";

#[test]
fn whole_text(rt: HostRuntime) -> Result<(), Fail> {
    let alloc = rt.alloc();
    let record_of = told(alloc)?;
    let last = last_blocks(alloc)?;
    let once = text_of(alloc, &record_of, last.as_slice(), 0)?;
    assert_eq!(rt; once.as_slice(), TEXT.as_bytes());
    let twice = text_of(alloc, &record_of, last.as_slice(), 1)?;
    assert_eq!(rt; twice.as_slice(), SENT_AGAIN.as_bytes());
    Ok(())
}

// a Done that releases two replies
#[test]
fn one_event(rt: HostRuntime) -> Result<(), Fail> {
    let alloc = rt.alloc();
    let record_of = told(alloc)?;
    let out = one_text(alloc, &record_of, 5)?;
    assert_eq!(rt; out.as_slice(), DONE.as_bytes());
    Ok(())
}

// not closed; and closed, with a store sent again, where two of the versions weren't issued
#[test]
fn requests_of_a_record(rt: HostRuntime) -> Result<(), Fail> {
    let alloc = rt.alloc();
    let record_of = told(alloc)?;
    let open = trace_text(alloc, &record_of, &[], false)?;
    assert_eq!(rt; open.as_slice(), REQUESTS.as_bytes());
    let closed = trace_text(alloc, &record_of, &[2, 1, 0], true)?;
    assert_eq!(rt; closed.as_slice(), REQUESTS_AT_CLOSE.as_bytes());
    Ok(())
}

// The second arrival is fake and the third a pad. The last one isn't answered, so four times 98 is the sum.
#[test]
fn numbers_of_a_record(rt: HostRuntime) -> Result<(), Fail> {
    let alloc = rt.alloc();
    let record_of = told(alloc)?;
    let numbers = Summary::of(alloc, &record_of)?;
    let expected = Summary {
        arrivals: 4,
        real: 2,
        stores: 1,
        buckets: 3,
        sum: 392,
    };
    assert_eq!(rt; numbers, expected);
    Ok(())
}
