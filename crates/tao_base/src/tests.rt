mod doors;

use crate::{
    Block, Bucket, BucketFault, ByteSink, ByteSource, Entries, Entry, Form, Image, Numbers,
    ParamFault, Params, Sink, Source, append_within, are_same, fill, is_listed, on_path, path_node,
    write_all,
};
use std::test::Fail;

// (l, z, b), the session limit or TreeTooLarge, in each form
#[test]
fn session_limits(rt: HostRuntime) -> Result<(), Fail> {
    for (l, z, b, limit) in [
        (10, 4, 4096, 5_946),
        (13, 8, 4088, 2_340),
        (16, 8, 504, 15_420),
        (10, 4, 64, 65_536),
        (1, 1, 4, 65_536),
    ] {
        let p = Params::new(l, z, b, 1, 1)?;
        assert_eq!(rt; p.session_limit(), limit, "at {l} {z} {b}");
        assert_eq!(rt; p.nodes(), (2u32 << l) - 1);
        assert_eq!(rt; p.bucket_len(), 20 + z * (4 + b));
        assert!(rt; p.form() == Form::One);
    }
    for (l, z, b) in [(13, 8, 4092), (16, 8, 4096)] {
        assert_eq!(rt; Params::new(l, z, b, 1, 1), Err(ParamFault::TreeTooLarge));
    }
    let p = Params::new(13, 8, 4088, 1, 1)?;
    for form in [Form::Two, Form::Turn] {
        assert_eq!(rt; p.with_form(form), Err(ParamFault::TreeTooLarge));
    }
    let p = Params::new(1, 1, 4, 1, 1)?.with_form(Form::Turn)?;
    assert_eq!(rt; p.bucket_len(), 60);
    assert!(rt; p.form() == Form::Turn);
    Ok(())
}

// one number past a limit, with what it breaks, and two limits at once
#[test]
fn limits_in_order(rt: HostRuntime) -> Result<(), Fail> {
    for (l, z, b, n, k, fault) in [
        (0, 1, 4, 1, 1, ParamFault::Height),
        (17, 1, 4, 1, 1, ParamFault::Height),
        (1, 0, 4, 1, 1, ParamFault::BucketSize),
        (1, 9, 4, 1, 1, ParamFault::BucketSize),
        (1, 1, 0, 1, 1, ParamFault::BlockSize),
        (1, 1, 6, 1, 1, ParamFault::BlockSize),
        (1, 1, 4100, 1, 1, ParamFault::BlockSize),
        (1, 1, 4, 0, 1, ParamFault::Count),
        (1, 1, 4, 3, 1, ParamFault::Count),
        (1, 1, 4, 1, 0, ParamFault::Period),
        (1, 1, 4, 1, 65, ParamFault::Period),
        (17, 9, 5, 0, 0, ParamFault::Height),
        (16, 8, 4096, 1, 65, ParamFault::Period),
    ] {
        assert_eq!(rt;
            Params::new(l, z, b, n, k),
            Err(fault),
            "at {l} {z} {b} {n} {k}"
        );
    }
    let p = Params::new(2, 3, 8, 12, 64)?;
    assert_eq!(rt; (p.l(), p.z(), p.b(), p.n(), p.k()), (2, 3, 8, 12, 64));
    Ok(())
}

#[test]
fn path_of_leaf_3(rt: HostRuntime) -> Result<(), Fail> {
    let p = Params::new(2, 1, 4, 1, 1)?;
    for (depth, node) in [(0, 1), (1, 3), (2, 7)] {
        assert!(rt; depth <= p.l() && 3 < 1 << p.l());
        assert_eq!(rt; path_node(&p, 3, depth), node);
    }
    for node in 1..8u32 {
        assert!(rt; 3 < 1 << p.l() && node <= p.nodes());
        assert_eq!(rt;
            on_path(&p, 3, node),
            node == 1 || node == 3 || node == 7,
            "at {node}"
        );
    }
    Ok(())
}

#[test]
fn lists(rt: HostRuntime) -> Result<(), Fail> {
    let alloc = rt.alloc();
    let mut block = Block::new(alloc);
    block.push(7)?;
    block.extend_from_slice(&[8, 9])?;
    block.as_mut_slice()[0] = 6;
    assert_eq!(rt; block.as_slice(), [6, 8, 9].as_slice());
    block.truncate(2);
    assert_eq!(rt; block.as_slice(), [6, 8].as_slice());
    let mut entries = Entries::new(alloc)?;
    for id in 0..9 {
        let value = Block::from_slice(alloc, &[id as u8])?;
        entries.push(Entry { id, value })?;
    }
    assert_eq!(rt; entries.as_slice().len(), 9);
    entries.as_mut_slice()[0].id = 100;
    entries.truncate(8);
    assert_eq!(rt; entries.as_slice().len(), 8);
    assert_eq!(rt; entries.as_slice()[0].id, 100);
    let bucket = Bucket {
        node: 1,
        version: 2,
        nonce: 3,
        entries,
    };
    assert_eq!(rt;
        bucket.entries.as_slice()[7].value.as_slice(),
        [7].as_slice()
    );
    let numbers = Numbers::from_vec(vec![in alloc; 1, 2]?);
    assert_eq!(rt; numbers.as_slice(), [1, 2].as_slice());
    Ok(())
}

#[test]
fn numbers_of_faults(rt: HostRuntime) -> Result<(), Fail> {
    let limits = [
        ParamFault::Height as u8,
        ParamFault::BucketSize as u8,
        ParamFault::BlockSize as u8,
        ParamFault::Count as u8,
        ParamFault::Period as u8,
        ParamFault::TreeTooLarge as u8,
    ];
    assert_eq!(rt; limits.as_slice(), [1, 2, 3, 4, 5, 6].as_slice());
    let buckets = [
        BucketFault::Length as u8,
        BucketFault::Format as u8,
        BucketFault::Padding as u8,
        BucketFault::Node as u8,
        BucketFault::Id as u8,
        BucketFault::Order as u8,
        BucketFault::Dummy as u8,
        BucketFault::Tag as u8,
    ];
    assert_eq!(rt; buckets.as_slice(), [1, 2, 3, 4, 5, 6, 7, 8].as_slice());
    Ok(())
}

// five bytes through rooms of two, with a call that fails between
#[test]
fn source_in_memory(rt: HostRuntime) -> Result<(), Fail> {
    let alloc = rt.alloc();
    let bytes = Image::from_slice(alloc, b"abcde")?;
    let mut source = ByteSource::new(bytes, Numbers::from_slice(alloc, &[1])?);
    let mut room = [0u8; 2];
    assert_eq!(rt; source.read(&mut room).ok(), Some(2));
    assert_eq!(rt; room, [b'a', b'b']);
    assert!(rt; source.read(&mut room).is_err());
    assert_eq!(rt; source.read(&mut room).ok(), Some(2));
    assert_eq!(rt; room, [b'c', b'd']);
    assert_eq!(rt; source.read(&mut room).ok(), Some(1));
    assert_eq!(rt; room[0], b'e');
    assert_eq!(rt; source.read(&mut room).ok(), Some(0));
    Ok(())
}

// the capacity is used up; a call that fails, and a write past the capacity
#[test]
fn sink_in_memory(rt: HostRuntime) -> Result<(), Fail> {
    let alloc = rt.alloc();
    let mut sink = ByteSink::new(alloc, Numbers::from_slice(alloc, &[1])?);
    sink.reserve(2)?;
    sink.reserve(2)?;
    assert_eq!(rt; sink.write(b"abc").ok(), Some(3));
    assert!(rt; sink.write(b"d").is_err());
    assert_eq!(rt; sink.write(b"de").ok(), Some(1));
    assert!(rt; sink.write(b"e").is_err());
    assert_eq!(rt; sink.bytes(), b"abcd".as_slice());
    Ok(())
}

// rooms that are filled, and one that the end cuts short; a call that fails
#[test]
fn rooms_filled(rt: HostRuntime) -> Result<(), Fail> {
    let alloc = rt.alloc();
    let bytes = Image::from_slice(alloc, b"abcde")?;
    let mut source = ByteSource::new(bytes, Numbers::from_slice(alloc, &[1])?);
    let mut room = [0u8; 3];
    assert_eq!(rt; fill(&mut source, &mut room).ok(), Some(3));
    assert_eq!(rt; room, [b'a', b'b', b'c']);
    assert!(rt; fill(&mut source, &mut room).is_err());
    assert_eq!(rt; fill(&mut source, &mut room).ok(), Some(2));
    assert_eq!(rt; room[..2], [b'd', b'e'][..]);
    Ok(())
}

// a text that is written whole, and one that is longer than the capacity
#[test]
fn texts_written(rt: HostRuntime) -> Result<(), Fail> {
    let alloc = rt.alloc();
    let mut sink = ByteSink::new(alloc, Numbers::new(alloc));
    sink.reserve(5)?;
    assert!(rt; write_all(&mut sink, b"abc").is_ok());
    assert!(rt; write_all(&mut sink, b"def").is_err());
    assert_eq!(rt; sink.bytes(), b"abcde".as_slice());
    Ok(())
}

#[test]
fn slices(rt: HostRuntime) -> Result<(), Fail> {
    let alloc = rt.alloc();
    let mut list = Vec::with_capacity(alloc, 3)?;
    list.push_reserved(1u8);
    append_within(&mut list, &[2, 3]);
    assert!(rt; are_same(&list, &[1, 2, 3]));
    assert!(rt; !are_same(&list, &[1, 2]));
    assert!(rt; is_listed(&[4, 5], 5));
    assert!(rt; !is_listed(&[4, 5], 4 + (1 << 32)));
    Ok(())
}
