ghost use Rattle.std.specs.Prelude.{◌≡◌, ◌==◌, [], ◌∷◌, codes, IfOk};

use crate::{Known, Refused, is_order, order_room, read_node, read_path, write_order};
use std::alloc::Global;
use std::process::Abort;
use std::test::Fail;
use tao_base::{Block, Bucket, BucketFault, Entries, Entry, Form, NoMemory, Params};
use tao_bucket::Room;

const KEY: [u8; 32] = [0; 32];

const NO_TAG: [u8; 32] = [0; 32];

// The bucket of node 5, version 3 and nonce 9 with block 1, whose value is abcd, in a store of two blocks of four bytes a bucket. In clear its
// slots are 0000000261626364 and 0000000000000000; Python's cryptography and hmac make the other bytes of them.
const WORKED: [u8; 36] = [
    1, 0, 0, 0, 0, 0, 0, 5, 0, 0, 0, 3, 0, 0, 0, 0, 0, 0, 0, 9, 0xad, 0x88, 0x2f, 0x02, 0xbc, 0xa1,
    0x36, 0xb1, 0xc5, 0xc8, 0xdc, 0x27, 0x3c, 0x88, 0x54, 0x0b,
];

// The tag of the same bytes with format 2 in front.
const WORKED_TAG: [u8; 32] = [
    0xbe, 0x39, 0xcb, 0x80, 0x20, 0xa1, 0xcb, 0xa0, 0x5f, 0xba, 0x59, 0x22, 0x91, 0xa8, 0xfa, 0xbc,
    0xc8, 0x19, 0x87, 0xf8, 0x0a, 0x13, 0x6b, 0x48, 0x94, 0x2d, 0x13, 0xff, 0xad, 0xd5, 0xab, 0xce,
];

// The same bucket in format 2.
fn tagged() -> [u8; 68] {
    let mut bytes = [0; 68];
    bytes[..36].copy_from_slice(&WORKED);
    bytes[36..].copy_from_slice(&WORKED_TAG);
    bytes[0] = 2;
    bytes
}

fn refusal_of(
    alloc: Global,
    p: &Params,
    node: u32,
    version: u32,
    tag: &[u8; 32],
    bytes: &[u8],
) -> Result<Option<Refused>, NoMemory> {
    let mut room = Room::new(alloc, p)?;
    match read_node(p, &KEY, node, version, tag, bytes, &mut room) {
        Ok(()) => Ok(None),
        Err(refused) => Ok(Some(refused)),
    }
}

#[test]
fn one_node(rt: HostRuntime) -> Result<(), Fail> {
    let alloc = rt.alloc();
    let p = Params::new(2, 2, 4, 4, 1)?;
    let stale = Refused::Stale {
        node: 5,
        wanted: 4,
        found: 3,
    };
    let damaged = Refused::Damaged {
        node: 4,
        fault: BucketFault::Node,
    };
    for (node, version, refused) in [(5, 3, None), (5, 4, Some(stale)), (4, 4, Some(damaged))] {
        assert_eq!(rt;
            refusal_of(alloc, &p, node, version, &NO_TAG, &WORKED)?,
            refused,
            "of {node} {version}"
        );
    }
    Ok(())
}

// the form, the version and the tag that are wanted
#[test]
fn one_tagged_node(rt: HostRuntime) -> Result<(), Fail> {
    let alloc = rt.alloc();
    let one = Params::new(2, 2, 4, 4, 1)?;
    let other_tag = Refused::Damaged {
        node: 5,
        fault: BucketFault::Tag,
    };
    let stale = Refused::Stale {
        node: 5,
        wanted: 2,
        found: 3,
    };
    let other_format = Refused::Damaged {
        node: 5,
        fault: BucketFault::Format,
    };
    for (form, version, tag, refused) in [
        (Form::Two, 3, WORKED_TAG, None),
        (Form::Turn, 3, WORKED_TAG, None),
        (Form::Two, 3, NO_TAG, Some(other_tag)),
        (Form::Turn, 3, NO_TAG, Some(other_tag)),
        (Form::Two, 2, NO_TAG, Some(stale)),
        (Form::Turn, 0, WORKED_TAG, Some(other_format)),
    ] {
        let p = one.with_form(form)?;
        assert_eq!(rt;
            refusal_of(alloc, &p, 5, version, &tag, &tagged())?,
            refused,
            "of {form:?} {version}"
        );
    }
    Ok(())
}

// Nodes of one version and one tag, but for one that is skipped.
#[derive(Clone, Copy)]
struct AllBut<'t> {
    node: u32,
    version: u32,
    tag: &'t [u8; 32],
    height: u32,
}

impl<'t> Known for AllBut<'t> {
    ghost height = { λ k. k.height };

    ghost skipped = { λ k node. node == k.node };

    ghost version = { λ k node. k.version };

    ghost tag = { λ k node. k.tag.now };

    fn is_skipped(&self, node: u32) -> bool {
        node == self.node
    }

    fn version(&self, node: u32) -> u32 {
        self.version
    }

    fn tag(&self, node: u32) -> &[u8; 32] {
        self.tag
    }
}

fn empty(alloc: Global, node: u32) -> Result<Bucket, NoMemory>
    ensures { IfOk result (λ bucket. (bucket.node ≡ node) × (bucket.entries ≡ [])) }
{
    Ok(Bucket {
        node,
        version: 3,
        nonce: u64::from(node),
        entries: Entries::new(alloc)?,
    })
}

fn worked(alloc: Global) -> Result<Bucket, NoMemory>
    ensures { IfOk result (λ bucket. (bucket.node ≡ 5) × (bucket.entries ≡ record { id = 1; value = codes "abcd" } ∷ [])) }
{
    let mut entries = Entries::new(alloc)?;
    let value = Block::from_slice(alloc, b"abcd")?;
    entries.push(Entry { id: 1, value })?;
    Ok(Bucket {
        node: 5,
        version: 3,
        nonce: 9,
        entries,
    })
}

// an order whose image is the path to leaf 1
#[test]
fn one_path(rt: HostRuntime) -> Result<(), Fail> {
    let alloc = rt.alloc();
    let p = Params::new(2, 2, 4, 4, 1)?;
    let buckets = [empty(alloc, 1)?, empty(alloc, 2)?, worked(alloc)?];
    let mut order = order_room(alloc, &p, 3)?;
    write_order(&p, &KEY, 3, 7, &buckets, &mut order);
    assert_eq!(rt; order.nodes.as_slice(), [1, 2, 5].as_slice());
    let path = order.image.as_slice();
    assert_eq!(rt; path.len(), 108);
    assert_eq!(rt; &path[72..], WORKED.as_slice());
    let mut scratch = [0; 36];
    assert!(rt; is_order(&p, &KEY, 3, 7, &buckets, &order, &mut scratch));
    assert!(rt; !is_order(&p, &KEY, 3, 8, &buckets, &order, &mut scratch));
    assert!(rt; !is_order(&p, &KEY, 3, 7, &buckets[..2], &order, &mut scratch));
    let stale = Refused::Stale {
        node: 1,
        wanted: 4,
        found: 3,
    };
    for (skipped, version, result) in [(2, 3, Ok(2)), (9, 3, Ok(3)), (2, 4, Err(stale))] {
        let mut rooms = [
            Room::new(alloc, &p)?,
            Room::new(alloc, &p)?,
            Room::new(alloc, &p)?,
        ];
        let known = AllBut {
            node: skipped,
            version,
            tag: &NO_TAG,
            height: 2,
        };
        assert_eq!(rt;
            read_path(&p, &KEY, &known, 1, path, &mut rooms),
            result,
            "but for {skipped} of {version}"
        );
    }
    Ok(())
}
