ghost use Rattle.std.specs.Prelude.{◌≡◌, ◌+◌, ◌≤◌, IfOk};
ghost use Rattle.tao_subtree.specs.Residents.{AreFew};

use crate::Subtree;
use std::alloc::Global;
use std::test::Fail;
use tao_base::{Block, Bucket, Entries, Entry, NoMemory, Params};

fn bucket_at(alloc: Global, node: u32) -> Result<Bucket, NoMemory>
    ensures { IfOk result (λ bucket. bucket.node ≡ node) }
{
    let mut entries = Entries::new(alloc)?;
    let value = Block::from_slice(alloc, &[1, 2, 3, 4])?;
    entries.push(Entry { id: node, value })?;
    Ok(Bucket {
        node,
        version: 8,
        nonce: 9,
        entries,
    })
}

// A fetch of the left leaf has begun, and there is capacity for two nodes.
fn begun(alloc: Global) -> Result<Subtree, Fail>
    ensures shape { IfOk result (λ subtree. subtree.shape.l ≡ 1) }
    ensures spare { IfOk result (λ subtree. subtree.spare ≡ 2) }
    ensures few { IfOk result (λ subtree. AreFew subtree.counts) }
{
    let p = Params::new(1, 1, 4, 1, 1)?;
    let mut subtree = Subtree::new(alloc, &p)?;
    subtree.begin_fetch(0);
    subtree.reserve(2)?;
    Ok(subtree)
}

fn take(subtree: &mut Subtree, bucket: Bucket) -> bool
    requires low { 1 ≤ bucket.node }
    requires high { bucket.node ≤ 3 }
    requires shape { subtree.old.shape.l ≡ 1 }
    requires spare { 1 ≤ subtree.old.spare }
    ensures counts { subtree.new.counts ≡ subtree.old.counts }
    ensures shape { subtree.new.shape.l ≡ 1 }
    ensures spare { subtree.old.spare ≤ subtree.new.spare + 1 }
{
    subtree.take_in(bucket)
}

// Ends the fetch of the left leaf, whose path is 1, 2.
fn end(subtree: &mut Subtree, t: u64)
    requires { subtree.old.shape.l ≡ 1 }
{
    let resident = subtree.is_resident(1) && subtree.is_resident(2);
    if resident && subtree.is_covered(1) && subtree.is_covered(2) {
        subtree.end_fetch(0, t);
    }
}

fn issue(subtree: &mut Subtree, node: u32, version: u32) {
    if subtree.is_resident(node) && subtree.last_version(node) < version {
        subtree.set_version(node, version);
    }
}

fn first_id(subtree: &Subtree, node: u32) -> Option<u32> {
    Some(subtree.entries(node)?.as_slice().first()?.id)
}

// the root stays, since a fetch of the other leaf covers it
#[test]
fn kept_while_counted(rt: HostRuntime) -> Result<(), Fail> {
    let alloc = rt.alloc();
    let mut subtree = begun(alloc)?;
    assert!(rt; take(&mut subtree, bucket_at(alloc, 1)?));
    assert!(rt; take(&mut subtree, bucket_at(alloc, 2)?));
    subtree.begin_fetch(1);
    end(&mut subtree, 1);
    issue(&mut subtree, 1, 1);
    issue(&mut subtree, 2, 1);
    assert_eq!(rt;
        (
            subtree.last_version(1),
            subtree.last_version(2),
            subtree.last_version(3)
        ),
        (1, 1, 0)
    );
    subtree.forget(1, &[1, 2]);
    assert_eq!(rt;
        (
            subtree.is_resident(1),
            subtree.is_resident(2),
            subtree.count()
        ),
        (true, false, 1)
    );
    assert_eq!(rt;
        (first_id(&subtree, 1), first_id(&subtree, 2)),
        (Some(1), None)
    );
    assert_eq!(rt; subtree.last_version(2), 1);
    Ok(())
}

// a node that comes again is admitted, and one that is resident stays as it is
#[test]
fn taken_in_again(rt: HostRuntime) -> Result<(), Fail> {
    let alloc = rt.alloc();
    let mut subtree = begun(alloc)?;
    assert!(rt; take(&mut subtree, bucket_at(alloc, 3)?));
    let mut entries = Entries::new(alloc)?;
    if subtree.is_resident(3) {
        subtree.swap_entries(3, &mut entries);
    }
    assert!(rt; !take(&mut subtree, bucket_at(alloc, 3)?));
    assert_eq!(rt; first_id(&subtree, 3), None);
    subtree.forget(0, &[3, 3, 7]);
    assert_eq!(rt; subtree.count(), 0);
    subtree.reserve(1)?;
    assert!(rt; take(&mut subtree, bucket_at(alloc, 3)?));
    assert_eq!(rt; first_id(&subtree, 3), Some(3));
    Ok(())
}
