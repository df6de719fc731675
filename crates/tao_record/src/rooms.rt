//! Preallocated rooms for buckets.
ghost use Rattle.std.specs.Prelude.{◌≡◌, ◌≤◌, max, vec_len, IfOk, OnOk, All};
ghost use Rattle.tao_record.specs.Rooms.{IsRoom, AreRooms};

use std::alloc::Global;
use tao_base::{Block, Bucket, Buckets, Entries, Entry, NoMemory, Params};

/// Makes the list as long as is asked, where it is shorter. Each of its items is rooms for `count` buckets.
pub(crate) fn lengthen(
    alloc: Global,
    p: &Params,
    spare: &mut Vec<Buckets>,
    asked: usize,
    count: usize,
) -> Result<(), NoMemory>
    requires { All (AreRooms p.now count) spare.old.items }
    ensures ok { OnOk result (vec_len spare.new ≡ max (vec_len spare.old) asked) }
    ensures low { vec_len spare.old ≤ vec_len spare.new }
    ensures high { vec_len spare.new ≤ max (vec_len spare.old) asked }
    ensures rooms { All (AreRooms p.now count) spare.new.items }
{
    for _ in spare.len()..asked {
        spare.push(new_rooms(alloc, p, count)?)?;
    }
    Ok(())
}

fn new_rooms(alloc: Global, p: &Params, count: usize) -> Result<Buckets, NoMemory>
    ensures { IfOk result (AreRooms p.now count) }
{
    let mut rooms = Vec::with_capacity(alloc, count)?;
    for _ in 0..count {
        rooms.push(new_room(alloc, p)?)?;
    }
    Ok(Buckets::from_vec(rooms))
}

fn new_room(alloc: Global, p: &Params) -> Result<Bucket, NoMemory>
    ensures { IfOk result (IsRoom p.now) }
{
    let mut entries = Entries::new(alloc)?;
    for _ in 0..p.z() {
        let value = Block::from_vec(vec![in alloc; 0; p.b() as usize]?);
        entries.push(Entry { id: 0, value })?;
    }
    Ok(Bucket {
        node: 0,
        version: 0,
        nonce: 0,
        entries,
    })
}
