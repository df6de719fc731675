//! The rooms for the buckets of a path.
ghost use Rattle.std.specs.Prelude.{◌≡◌, ℕ, ◌+◌, ◌<◌, ◌≤◌, [], All, Some, true, is_some, take, length, vec_len, vec_capacity, IfOk};
ghost use Rattle.tao_base.specs.Limits.{Shape};
ghost use Rattle.tao_bucket.specs.Rooms.{emptied};
ghost use Rattle.tao_images.specs.Paths.{IsRoom};
ghost use Rattle.tao_processor.specs.Rooms.{IsFull, IsStockFor, buckets_held};

use std::alloc::Global;
use tao_base::{Bucket, NoMemory, Params};
use tao_bucket::Room;

/// An empty room for each node of a path.
pub(crate) fn path_rooms(alloc: Global, p: &Params) -> Result<Vec<Room>, NoMemory>
    ensures each { IfOk result (λ rooms. All (IsRoom p.now) rooms.items) }
    ensures enough { IfOk result (λ rooms. length rooms.items ≡ p.now.l + 1) }
{
    let count = p.l() as usize + 1;
    let mut rooms = Vec::with_capacity(alloc, count)?;
    for _ in 0..count {
        rooms.push(Room::new(alloc, p)?)?;
    }
    Ok(rooms)
}

/// Takes the buckets of the first rooms, so many, in exchange for buckets of the stock.
pub(crate) fn take_looked(
    rooms: &mut [Room],
    count: usize,
    stock: &mut Vec<Bucket>,
    taken: &mut Vec<Bucket>,
)
    requires within { count ≤ length rooms.old }
    requires full { All IsFull (take count rooms.old) }
    requires alike { (s : Shape) × All (IsRoom s) rooms.old × All (IsStockFor s) stock.old.items }
    requires enough { count ≤ vec_len stock.old }
    requires empty { taken.old.items ≡ [] }
    requires space { count ≤ vec_capacity taken.old }
    ensures taken { taken.new.items ≡ buckets_held count rooms.old }
    ensures rooms { (s : Shape) → All (IsRoom s) rooms.old → All (IsRoom s) rooms.new }
    ensures stocked { (s : Shape) → All (IsStockFor s) stock.old.items → All (IsStockFor s) stock.new.items }
    ensures len { vec_len stock.new + count ≡ vec_len stock.old }
    ensures capacity { vec_capacity taken.old ≤ vec_capacity taken.new }
{
    for i in 0..count {
        taken.push_reserved(take_bucket(&mut rooms[i], stock));
    }
}

// Takes the bucket of a room.
fn take_bucket(room: &mut Room, stock: &mut Vec<Bucket>) -> Bucket
    requires full { IsFull room.old }
    requires alike { (s : Shape) × IsRoom s room.old × All (IsStockFor s) stock.old.items }
    requires enough { 1 ≤ vec_len stock.old }
    ensures bucket { room.old.held ≡ Some result }
    ensures room { room.new ≡ emptied room.old }
    ensures stocked { (s : Shape) → All (IsStockFor s) stock.old.items → All (IsStockFor s) stock.new.items }
    ensures len { vec_len stock.new + 1 ≡ vec_len stock.old }
{
    match stock.pop() {
        Some(mut bucket) => {
            room.exchange(&mut bucket);
            bucket
        }
        None => unreachable!(),
    }
}
