//! Doors in memory, and the links and streams that come through them.
ghost use Rattle.std.specs.Prelude.{◌≡◌, ◌+◌, ◌<◌, IfOk};
ghost use Rattle.tao_base.specs.Limits.{shape};
ghost use Rattle.tao_base.specs.declared.parameters.Form.TheVariants.{One};
ghost use Rattle.tao_tree.specs.Nodes.{reach_of};

use super::{LEN, check_no_path, check_path, small};
use crate::{FailTable, MemDoors, MemLink, Shaped, SharedTree, Streams, Tree};
use std::alloc::Global;
use std::marker::Brand;
use std::process::Abort;
use std::sync::Wait;
use std::test::Fail;
use tao_base::{
    ByteSink, ByteSource, DoorFault, Doors, Failed, Image, Link, NoMemory, Numbers, Params, Sink,
    Source,
};

#[test]
fn doors_in_memory(rt: HostRuntime) -> Result<(), Fail> {
    let alloc = rt.alloc();
    through_doors::<Brand, _>(&rt, alloc, Tree::new(alloc, &small()?)?)
}

// Links and streams through doors to this tree.
fn through_doors<J: Shaped + Send + Sync, R: Abort + Wait>(
    rt: &R,
    alloc: Global,
    tree: Tree,
) -> Result<(), Fail>
    requires brand { tree.shape ≡ J.shape }
    requires small { tree.shape ≡ shape 1 1 4 1 1 One }
{
    let shared: SharedTree<J> = SharedTree::new(tree);
    dialled_link(rt, alloc, &shared)?;
    refused_links(rt, alloc, &shared)?;
    streams_in_order(rt, alloc, &shared)?;
    listening(rt, alloc, &shared)
}

// the first answer of link 0 is forged, its second call fails, and its log has no capacity for a third one
fn dialled_link<J: Shaped + Send + Sync, R: Abort + Wait>(
    rt: &R,
    alloc: Global,
    tree: &SharedTree<J>,
) -> Result<(), Fail>
    requires { tree.now ≡ shape 1 1 4 1 1 One }
{
    let fails = FailTable::from_slice(alloc, &[(1, 0), (0, 1)])?;
    let mut doors = MemDoors::new(alloc, tree, Streams::new(alloc), fails, 2, 0);
    doors.forge(0, 0, 27, 5)?;
    doors.forge(1, 0, 26, 5)?;
    let mut near = link_0(alloc, &mut doors)?;
    fails_after_a_forgery(rt, &mut near);
    assert!(rt; doors.link(0).is_none());
    doors.hang_up(0, near);
    assert!(rt; doors.link(0).is_some());
    assert!(rt; doors.link(1).is_none());
    Ok(())
}

fn link_0<'t, J: Shaped + Send + Sync>(
    alloc: Global,
    doors: &mut MemDoors<'t, J>,
) -> Result<MemLink<'t, J>, Fail>
    requires { doors.old.shape ≡ shape 1 1 4 1 1 One }
    ensures link { IfOk result (λ near. near.shape ≡ shape 1 1 4 1 1 One) }
    ensures out { IfOk result (λ _. 0 < doors.new.links_out) }
{
    Ok(doors.dial(alloc, &small()?, "anywhere", 0)?)
}

fn fails_after_a_forgery<L: Link, R: Abort + Wait>(rt: &R, near: &mut L)
    requires { L.reach near.old ≡ reach_of (shape 1 1 4 1 1 One) }
{
    let mut forged = [0; 2 * LEN];
    forged[27] = 5;
    check_path(rt, near, 1, forged);
    check_no_path(rt, near);
    check_no_path(rt, near);
}

// a link whose dialling is listed, trees of another height and of longer buckets, and one of as many blocks and another period
fn refused_links<J: Shaped + Send + Sync, R: Abort + Wait>(
    rt: &R,
    alloc: Global,
    tree: &SharedTree<J>,
) -> Result<(), Fail> {
    let fails = FailTable::from_slice(alloc, &[(1, 4_294_967_295)])?;
    let mut doors = MemDoors::new(alloc, tree, Streams::new(alloc), fails, 1, 1);
    let p = small()?;
    assert!(rt; fault_of(alloc, &mut doors, &p, 1) == Some(DoorFault::Failed));
    assert!(rt;
        fault_of(alloc, &mut doors, &Params::new(2, 1, 4, 1, 1)?, 0) == Some(DoorFault::Failed)
    );
    assert!(rt;
        fault_of(alloc, &mut doors, &Params::new(1, 1, 8, 1, 1)?, 0) == Some(DoorFault::Failed)
    );
    assert!(rt; fault_of(alloc, &mut doors, &Params::new(1, 1, 4, 2, 9)?, 0).is_none());
    Ok(())
}

// Why this link isn't dialled.
fn fault_of<D: Doors>(alloc: Global, doors: &mut D, p: &Params, link: u32) -> Option<DoorFault> {
    match doors.dial(alloc, p, "x", link) {
        Ok(_) => None,
        Err(fault) => Some(fault),
    }
}

// A stream that gives these bytes and takes one.
fn stream(alloc: Global, bytes: &[u8]) -> Result<(ByteSource, ByteSink), NoMemory> {
    let source = ByteSource::new(Image::from_slice(alloc, bytes)?, Numbers::new(alloc));
    let mut sink = ByteSink::new(alloc, Numbers::new(alloc));
    sink.reserve(1)?;
    Ok((source, sink))
}

// two streams with a call that fails between, and then none; both come back to their places
fn streams_in_order<J: Shaped + Send + Sync, R: Abort + Wait>(
    rt: &R,
    alloc: Global,
    tree: &SharedTree<J>,
) -> Result<(), Fail> {
    let mut streams = Streams::new(alloc);
    streams.push(stream(alloc, b"a")?)?;
    streams.push(stream(alloc, b"b")?)?;
    let fails = FailTable::from_slice(alloc, &[(300, 0), (301, 1)])?;
    let mut doors = MemDoors::new(alloc, tree, streams, fails, 1, 1);
    let mut first = next_stream(&mut doors)?;
    assert!(rt; doors.accept().is_err());
    let second = next_stream(&mut doors)?;
    echo(&mut first)?;
    doors.give_back(0, first);
    assert!(rt; !is_back(&doors, 1, b""));
    doors.give_back(1, second);
    assert!(rt; is_back(&doors, 0, b"a"));
    assert!(rt; is_back(&doors, 1, b""));
    assert!(rt; doors.accept()?.is_none());
    Ok(())
}

fn next_stream<J: Shaped + Send + Sync>(
    doors: &mut MemDoors<'_, J>,
) -> Result<(ByteSource, ByteSink), Fail>
    ensures one_more { IfOk result (λ _. doors.new.rack.accepted ≡ doors.old.rack.accepted + 1) }
    ensures returned { IfOk result (λ _. doors.new.rack.returned ≡ doors.old.rack.returned) }
{
    match doors.accept()? {
        Some(stream) => Ok(stream),
        None => Err(Fail::from(Failed)),
    }
}

// Whether a stream of this number was given back, and these bytes were put there.
fn is_back<J: Shaped>(doors: &MemDoors<'_, J>, number: u32, bytes: &[u8]) -> bool {
    match doors.back(number) {
        Some(sink) => sink.bytes() == bytes,
        None => false,
    }
}

// Writes what is read first.
fn echo<S: Source, K: Sink>(stream: &mut (S, K)) -> Result<(), Failed> {
    let mut room = [0; 1];
    stream.0.read(&mut room)?;
    stream.1.write(&room)?;
    Ok(())
}

// the second call fails
fn listening<J: Shaped + Send + Sync, R: Abort + Wait>(
    rt: &R,
    alloc: Global,
    tree: &SharedTree<J>,
) -> Result<(), Fail> {
    let fails = FailTable::from_slice(alloc, &[(300, 1), (301, 0)])?;
    let mut doors = MemDoors::new(alloc, tree, Streams::new(alloc), fails, 1, 1);
    assert!(rt; doors.listen("here").is_ok());
    assert!(rt; doors.listen("here").is_err());
    assert!(rt; doors.listen("here").is_ok());
    Ok(())
}
