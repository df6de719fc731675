ghost use Rattle.std.specs.Prelude.{◌≡◌, [], IfOk};
ghost use Rattle.tao_record.specs.State.{IsBucketOf, FitDone, FitIssue};

use crate::Record;
use std::alloc::Global;
use std::test::Fail;
use tao_base::{
    Block, Blocks, Bucket, Buckets, Cause, Entries, Entry, Event, NoMemory, Numbers, Op, Params,
};

// A bucket with one entry.
fn bucket_at(alloc: Global, p: &Params, node: u32) -> Result<Bucket, NoMemory>
    ensures { IfOk result (IsBucketOf p.now) }
{
    let value = Block::from_vec(vec![in alloc; 7; p.b() as usize]?);
    let _room = p.z();
    let mut entries = Entries::new(alloc)?;
    entries.push(Entry { id: 3, value })?;
    Ok(Bucket {
        node,
        version: 8,
        nonce: 9,
        entries,
    })
}

// The numbers of the events in order: 1 to 5 for the kind, its own, and the nodes of its buckets.
fn numbers_of(alloc: Global, events: &[Event]) -> Result<Vec<u64>, NoMemory> {
    let mut numbers = Vec::new(alloc);
    for event in events {
        push_numbers(&mut numbers, event)?;
    }
    Ok(numbers)
}

fn push_numbers(numbers: &mut Vec<u64>, event: &Event) -> Result<(), NoMemory> {
    match event {
        Event::Arrive { client, word, .. } => {
            numbers.extend_from_slice(&[1, u64::from(*client), u64::from(*word)])?
        }
        Event::Done { arrival, taken } => {
            numbers.extend_from_slice(&[2, *arrival])?;
            push_nodes(numbers, taken.as_slice())?;
        }
        Event::Issue {
            version,
            nonce,
            buckets,
        } => {
            numbers.extend_from_slice(&[3, u64::from(*version), *nonce])?;
            push_nodes(numbers, buckets.as_slice())?;
        }
        Event::Acked { version } => numbers.extend_from_slice(&[4, u64::from(*version)])?,
        Event::Fault { .. } => numbers.push(5)?,
    }
    Ok(())
}

fn push_nodes(numbers: &mut Vec<u64>, buckets: &[Bucket]) -> Result<(), NoMemory> {
    for bucket in buckets {
        numbers.push(u64::from(bucket.node))?;
    }
    Ok(())
}

fn opened(alloc: Global, p: &Params) -> Result<Record, NoMemory>
    ensures shape { IfOk result (λ r. r.history.opening.shape ≡ p.now) }
    ensures events { IfOk result (λ r. r.history.events ≡ []) }
{
    let block = Block::from_slice(alloc, &[1, 2, 3, 4])?;
    let root = bucket_at(alloc, p, 1)?;
    let first = Blocks::from_vec(vec![in alloc; block]?);
    let loaded = Buckets::from_vec(vec![in alloc; root]?);
    let words = Numbers::from_slice(alloc, &[6, 7])?;
    Record::begin(alloc, p, words, first, loaded)
}

// Adds an event of each kind, the Fault when all spare is used.
fn fill(session: &mut Record, path: &[Bucket]) -> Result<(), NoMemory>
    requires events { session.old.history.events ≡ [] }
    requires done { FitDone session.old.history.opening.shape path.now }
    requires issue { FitIssue session.old.history.opening.shape path.now }
{
    session.reserve(1, 0, 1)?;
    session.reserve(0, 1, 2)?;
    session.add_arrive(10, Op::Read(0), 11);
    session.add_done(12, path);
    session.add_issue(13, 14, path);
    session.add_acked(15);
    session.add_fault(Cause::Link { link: 16 });
    Ok(())
}

fn filled(alloc: Global) -> Result<Record, Fail> {
    let p = Params::new(1, 2, 4, 4, 1)?;
    let mut record = opened(alloc, &p)?;
    let node = bucket_at(alloc, &p, 5)?;
    let path = Buckets::from_vec(vec![in alloc; node]?);
    fill(&mut record, path.as_slice())?;
    Ok(record)
}

// each kind of event, and each reader
#[test]
fn one_event_of_each_kind(rt: HostRuntime) -> Result<(), Fail> {
    let alloc = rt.alloc();
    let record = filled(alloc)?;
    assert_eq!(rt; record.params().k(), 1);
    assert_eq!(rt; record.words(), [6, 7].as_slice());
    assert_eq!(rt; record.first().len(), 1);
    assert_eq!(rt; record.loaded().len(), 1);
    let wanted = [1, 10, 11, 2, 12, 5, 3, 13, 14, 5, 4, 15, 5];
    assert_eq!(rt;
        numbers_of(alloc, record.events())?.as_slice(),
        wanted.as_slice()
    );
    Ok(())
}
