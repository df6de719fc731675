ghost use Rattle.std.specs.Prelude.{◌≡◌, ◌≤◌, [], ◌∷◌, length, codes, IsTrue, IfOk};
ghost use Rattle.tao_base.specs.Limits.{bucket_len};
ghost use Rattle.tao_base.specs.Tree.{node_count};
ghost use Rattle.tao_bucket.specs.Encoding.{IsWritten};

use crate::{Room, decode, encode_into, node_of, nonce_of, stocked, version_of};
use std::alloc::Global;
use std::process::Abort;
use std::test::Fail;
use tao_base::{Block, Bucket, BucketFault, Entries, Entry, Form, NoMemory, Params};
use tao_tape::xor_stream;

const KEY: [u8; 32] = [0; 32];

// Writes a bucket of version 0, whose nonce is its node, with a block of zero bytes or with none.
fn write_bucket(
    alloc: Global,
    p: &Params,
    node: u32,
    block: Option<u32>,
    format: u8,
    out: &mut [u8],
) -> Result<(), NoMemory>
    requires node_low { 1 ≤ node }
    requires node_high { node ≤ node_count p.now.l }
    requires format { IsWritten p.now.form format }
    requires len { length out.old ≡ bucket_len p.now }
{
    let mut entries = Entries::new(alloc)?;
    if let Some(id) = block {
        if id < p.n() {
            let value = Block::from_vec(vec![in alloc; 0; p.b() as usize]?);
            entries.push(Entry { id, value })?;
        }
    }
    let bucket = Bucket {
        node,
        version: 0,
        nonce: u64::from(node),
        entries,
    };
    encode_into(&bucket, p, &KEY, format, out);
    Ok(())
}

fn fault_of(
    alloc: Global,
    p: &Params,
    want: u32,
    format: u8,
    bytes: &[u8],
) -> Result<Option<BucketFault>, NoMemory>
    requires format { IsWritten p.now.form format }
{
    let mut room = Room::new(alloc, p)?;
    match decode(p, &KEY, want, format, bytes, &mut room) {
        Ok(()) => Ok(None),
        Err(fault) => Ok(Some(fault)),
    }
}

// The bytes of a bucket of two slots of four bytes, with these id fields and these last bytes.
fn two_slots(first: (u8, u8), second: (u8, u8)) -> [u8; 36] {
    let mut bytes = [
        1, 0, 0, 0, 0, 0, 0, 5, 0, 0, 0, 3, 0, 0, 0, 0, 0, 0, 0, 9, 0, 0, 0, first.0, 0, 0, 0,
        first.1, 0, 0, 0, second.0, 0, 0, 0, second.1,
    ];
    xor_stream(&KEY, 9, &mut bytes[20..]);
    bytes
}

// The bucket of node 5, version 3 and nonce 9 with block 1, whose value is abcd, in a store of two blocks of four bytes a bucket. In clear its
// slots are 0000000261626364 and 0000000000000000; Python's cryptography and hmac make the other bytes of them.
const WORKED: [u8; 36] = [
    1, 0, 0, 0, 0, 0, 0, 5, 0, 0, 0, 3, 0, 0, 0, 0, 0, 0, 0, 9, 0xad, 0x88, 0x2f, 0x02, 0xbc, 0xa1,
    0x36, 0xb1, 0xc5, 0xc8, 0xdc, 0x27, 0x3c, 0x88, 0x54, 0x0b,
];

// The tag of the same bytes with format 2 in front.
const WORKED_TAG: [u8; 32] = [
    0xbe, 0x39, 0xcb, 0x80, 0x20, 0xa1, 0xcb, 0xa0, 0x5f, 0xba, 0x59, 0x22, 0x91, 0xa8, 0xfa, 0xbc,
    0xc8, 0x19, 0x87, 0xf8, 0x0a, 0x13, 0x6b, 0x48, 0x94, 0x2d, 0x13, 0xff, 0xad, 0xd5, 0xab, 0xce,
];

fn worked(alloc: Global) -> Result<Bucket, NoMemory>
    ensures { IfOk result (λ bucket. (bucket.node ≡ 5) × (bucket.entries ≡ record { id = 1; value = codes "abcd" } ∷ [])) }
{
    let mut entries = Entries::new(alloc)?;
    let value = Block::from_slice(alloc, b"abcd")?;
    entries.push(Entry { id: 1, value })?;
    Ok(Bucket {
        node: 5,
        version: 3,
        nonce: 9,
        entries,
    })
}

#[test]
fn worked_bucket(rt: HostRuntime) -> Result<(), Fail> {
    let alloc = rt.alloc();
    let p = Params::new(2, 2, 4, 4, 1)?;
    let mut bytes = [9; 36];
    encode_into(&worked(alloc)?, &p, &KEY, 1, &mut bytes);
    assert_eq!(rt; bytes, WORKED);
    assert_eq!(rt;
        (node_of(&WORKED), version_of(&WORKED), nonce_of(&WORKED)),
        (5, 3, 9)
    );
    let mut room = Room::new(alloc, &p)?;
    assert_eq!(rt; decode(&p, &KEY, 5, 1, &WORKED, &mut room), Ok(()));
    let bucket = room.bucket().ok_or("the room is empty")?;
    assert_eq!(rt; (bucket.node, bucket.version, bucket.nonce), (5, 3, 9));
    let entries = bucket.entries.as_slice();
    assert_eq!(rt; entries.len(), 1);
    let entry = (entries[0].id, entries[0].value.as_slice());
    assert_eq!(rt; entry, (1, b"abcd".as_slice()));
    Ok(())
}

// the wanted node, how many of the bytes, and a byte that is xored
#[test]
fn worked_faults(rt: HostRuntime) -> Result<(), Fail> {
    let alloc = rt.alloc();
    let p = Params::new(2, 2, 4, 4, 1)?;
    for (want, len, at, mask, fault) in [
        // block 0 behind block 1
        (5, 36, 31, 0x01, BucketFault::Order),
        (5, 36, 35, 0x01, BucketFault::Dummy),
        (4, 36, 0, 0x00, BucketFault::Node),
        // the id field 00000005
        (5, 36, 23, 0x07, BucketFault::Id),
        (5, 35, 0, 0x00, BucketFault::Length),
    ] {
        let mut bytes = WORKED;
        bytes[at] ^= mask;
        assert_eq!(rt;
            fault_of(alloc, &p, want, 1, &bytes[..len])?,
            Some(fault),
            "at {at}"
        );
    }
    Ok(())
}

#[test]
fn worked_tag(rt: HostRuntime) -> Result<(), Fail> {
    let alloc = rt.alloc();
    let p = Params::new(2, 2, 4, 4, 1)?.with_form(Form::Two)?;
    let mut bytes = [9; 68];
    encode_into(&worked(alloc)?, &p, &KEY, 2, &mut bytes);
    assert_eq!(rt; bytes[0], 2);
    assert_eq!(rt; &bytes[1..36], &WORKED[1..]);
    assert_eq!(rt; &bytes[36..], WORKED_TAG.as_slice());
    assert_eq!(rt; fault_of(alloc, &p, 5, 2, &bytes)?, None);
    Ok(())
}

// a room that is full, and then empty
#[test]
fn room_again(rt: HostRuntime) -> Result<(), Fail> {
    let p = Params::new(2, 2, 4, 4, 1)?;
    let bytes = two_slots((2, 7), (0, 0));
    let mut room = Room::new(rt.alloc(), &p)?;
    assert!(rt; room.bucket().is_none());
    for want in [5, 5, 4, 5] {
        let is_taken = decode(&p, &KEY, want, 1, &bytes, &mut room).is_ok();
        assert_eq!(rt; is_taken, want == 5);
        assert_eq!(rt; room.bucket().is_some(), is_taken);
    }
    Ok(())
}

// the id fields and the last bytes of both slots
#[test]
fn faults_of_slots(rt: HostRuntime) -> Result<(), Fail> {
    let alloc = rt.alloc();
    let p = Params::new(2, 2, 4, 4, 1)?;
    assert_eq!(rt;
        fault_of(alloc, &p, 5, 1, &[1; 35])?,
        Some(BucketFault::Length)
    );
    for (first, second, fault) in [
        ((2, 7), (0, 0), None),
        ((1, 0), (4, 0), None),
        ((0, 0), (0, 0), None),
        ((2, 7), (1, 7), Some(BucketFault::Order)),
        ((2, 7), (2, 7), Some(BucketFault::Order)),
        ((0, 0), (1, 7), Some(BucketFault::Order)),
        ((2, 7), (0, 1), Some(BucketFault::Dummy)),
        ((0, 1), (5, 0), Some(BucketFault::Dummy)),
        ((5, 7), (0, 1), Some(BucketFault::Id)),
        ((2, 7), (5, 7), Some(BucketFault::Id)),
    ] {
        let bytes = two_slots(first, second);
        assert_eq!(rt;
            fault_of(alloc, &p, 5, 1, &bytes)?,
            fault,
            "at {first:?} {second:?}"
        );
    }
    Ok(())
}

// Whether a store of this form writes this format.
fn writes(form: Form, format: u8) -> bool
    ensures { IsTrue result → IsWritten form format }
{
    match form {
        Form::One => format == 1,
        Form::Two => format == 2,
        Form::Turn => format == 1 || format == 2,
    }
}

// The faults of the buckets of node 1, which is empty, and of node 3, which has block 0, with these bytes of the two xored, where these
// nodes are wanted.
fn path_faults(
    rt: &impl Abort,
    alloc: Global,
    p: &Params,
    format: u8,
    wants: (u32, u32),
    changes: [(usize, u8); 2],
) -> Result<(Option<BucketFault>, Option<BucketFault>), NoMemory> {
    let len = p.bucket_len() as usize;
    let mut path = [0u8; 120];
    assert!(rt; writes(p.form(), format) && 3 <= p.nodes() && len <= 60);
    write_bucket(alloc, p, 1, None, format, &mut path[..len])?;
    write_bucket(alloc, p, 3, Some(0), format, &mut path[len..2 * len])?;
    for (at, mask) in changes {
        if at < 120 {
            path[at] ^= mask;
        }
    }
    let root = fault_of(alloc, p, wants.0, format, &path[..len])?;
    let leaf = fault_of(alloc, p, wants.1, format, &path[len..2 * len])?;
    Ok((root, leaf))
}

#[test]
fn altered_paths(rt: HostRuntime) -> Result<(), Fail> {
    let alloc = rt.alloc();
    let p = Params::new(1, 1, 4, 1, 1)?;
    for (changes, root, leaf) in [
        ([(0, 0), (0, 0)], None, None),
        ([(0, 3), (0, 0)], Some(BucketFault::Format), None),
        ([(3, 1), (0, 0)], Some(BucketFault::Padding), None),
        ([(7, 2), (0, 0)], Some(BucketFault::Node), None),
        ([(11, 1), (0, 0)], None, None),
        ([(24, 1), (0, 0)], Some(BucketFault::Dummy), None),
        ([(39, 1), (0, 0)], None, None),
        ([(48, 0x80), (0, 0)], None, Some(BucketFault::Id)),
        ([(3, 1), (11, 1)], Some(BucketFault::Padding), None),
        ([(51, 1), (0, 0)], None, None),
        ([(52, 1), (0, 0)], None, None),
    ] {
        assert_eq!(rt;
            path_faults(&rt, alloc, &p, 1, (1, 3), changes)?,
            (root, leaf),
            "at {changes:?}"
        );
    }
    // the two buckets swapped
    assert_eq!(rt;
        path_faults(&rt, alloc, &p, 1, (3, 1), [(0, 0), (0, 0)])?,
        (Some(BucketFault::Node), Some(BucketFault::Node))
    );
    Ok(())
}

// of the leaf's bucket, whose block is zeros: a bit of the value is another value, and without the bit of its id field the block is missing
#[test]
fn altered_leaf(rt: HostRuntime) -> Result<(), Fail> {
    let alloc = rt.alloc();
    let p = Params::new(1, 1, 4, 1, 1)?;
    for (at, count) in [(52, 1), (51, 0)] {
        let mut bytes = [0; 28];
        write_bucket(alloc, &p, 3, Some(0), 1, &mut bytes)?;
        bytes[at - 28] ^= 1;
        let mut room = Room::new(alloc, &p)?;
        assert_eq!(rt; decode(&p, &KEY, 3, 1, &bytes, &mut room), Ok(()));
        let bucket = room.bucket().ok_or("the room is empty")?;
        let entries = bucket.entries.as_slice();
        assert_eq!(rt; entries.len(), count);
        for entry in entries {
            let found = (entry.id, entry.value.as_slice());
            assert_eq!(rt; found, (0, [1, 0, 0, 0].as_slice()));
        }
    }
    Ok(())
}

// the form, the format, the byte, and the faults
#[test]
fn altered_tags(rt: HostRuntime) -> Result<(), Fail> {
    let alloc = rt.alloc();
    let two = Params::new(1, 1, 4, 1, 1)?.with_form(Form::Two)?;
    let turn = Params::new(1, 1, 4, 1, 1)?.with_form(Form::Turn)?;
    for (p, format, change, root, leaf) in [
        (two, 2, (0, 0), None, None),
        (two, 2, (0, 3), Some(BucketFault::Format), None),
        (two, 2, (7, 2), Some(BucketFault::Node), None),
        (two, 2, (11, 1), Some(BucketFault::Tag), None),
        (two, 2, (24, 1), Some(BucketFault::Tag), None),
        (two, 2, (112, 1), None, Some(BucketFault::Tag)),
        (turn, 2, (112, 1), None, Some(BucketFault::Tag)),
        (turn, 1, (24, 1), Some(BucketFault::Dummy), None),
        (turn, 1, (59, 1), Some(BucketFault::Tag), None),
        (turn, 1, (0, 3), Some(BucketFault::Format), None),
        (turn, 1, (0, 0), None, None),
    ] {
        assert_eq!(rt;
            path_faults(&rt, alloc, &p, format, (1, 3), [change, (0, 0)])?,
            (root, leaf),
            "at {format} {change:?}"
        );
    }
    Ok(())
}

// as many blocks as a bucket of the store may have
#[test]
fn stock(rt: HostRuntime) -> Result<(), Fail> {
    let p = Params::new(2, 2, 4, 4, 1)?;
    let stock = stocked(rt.alloc(), &p)?;
    let entries = stock.entries.as_slice();
    assert_eq!(rt; entries.len(), 2);
    for entry in entries {
        assert_eq!(rt; entry.value.as_slice().len(), 4);
    }
    Ok(())
}
