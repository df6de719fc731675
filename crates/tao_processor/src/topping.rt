//! Preallocates for one more arrival.
ghost use Rattle.std.specs.Prelude.{◌≡◌, ℕ, ◌+◌, ◌≤◌, length, vec_len, vec_capacity, All, OnOk};
ghost use Rattle.tao_base.specs.Limits.{Shape};
ghost use Rattle.tao_images.specs.Orders.{IsOrderRoom};
ghost use Rattle.tao_record.specs.State.{issue_len};
ghost use Rattle.tao_tables.specs.Pools.{KeepsPools, wanted};
ghost use Rattle.tao_processor.specs.Rooms.{IsStockFor};
ghost use Rattle.tao_processor.specs.Topping.{pools_from, pools_in};

use crate::fetches::Fetch;
use crate::opening::most_written;
use std::alloc::Global;
use tao_base::{Block, Bucket, NoMemory, Order, Params};
use tao_bucket::stocked;
use tao_images::order_room;
use tao_record::Record;
use tao_requests::Requests;

/// Fills up the values to at least this many, each of `len` bytes.
pub(crate) fn fill_values(
    alloc: Global,
    len: usize,
    values: &mut Vec<Block>,
    count: usize,
) -> Result<(), NoMemory>
    requires each { All (λ value. length value ≡ len) values.old.items }
    ensures each { All (λ value. length value ≡ len) values.new.items }
    ensures kept { vec_len values.old ≤ vec_len values.new }
    ensures ok { OnOk result (count ≤ vec_len values.new) }
{
    while values.len() < count {
        values.push(Block::from_vec(vec![in alloc; 0; len]?))?;
    }
    Ok(())
}

/// Fills up the orders to at least this many, each with room for any write-back.
pub(crate) fn fill_orders(
    alloc: Global,
    p: &Params,
    orders: &mut Vec<Order>,
    count: usize,
) -> Result<(), NoMemory>
    requires each { All (IsOrderRoom p.now (issue_len p.now)) orders.old.items }
    ensures each { All (IsOrderRoom p.now (issue_len p.now)) orders.new.items }
    ensures kept { vec_len orders.old ≤ vec_len orders.new }
    ensures ok { OnOk result (count ≤ vec_len orders.new) }
{
    while orders.len() < count {
        orders.push(order_room(alloc, p, most_written(p))?)?;
    }
    Ok(())
}

/// Takes one of the orders.
pub(crate) fn take_order(orders: &mut Vec<Order>) -> Order
    requires some { 1 ≤ vec_len orders.old }
    ensures order { (s : Shape) (count : ℕ) → All (IsOrderRoom s count) orders.old.items → IsOrderRoom s count result }
    ensures left { (s : Shape) (count : ℕ) → All (IsOrderRoom s count) orders.old.items → All (IsOrderRoom s count) orders.new.items }
    ensures len { vec_len orders.new + 1 ≡ vec_len orders.old }
{
    match orders.pop() {
        Some(order) => order,
        None => unreachable!(),
    }
}

/// Fills up the buckets of the stock to at least this many.
pub(crate) fn fill_stock(
    alloc: Global,
    p: &Params,
    stock: &mut Vec<Bucket>,
    count: usize,
) -> Result<(), NoMemory>
    requires each { All (IsStockFor p.now) stock.old.items }
    ensures each { All (IsStockFor p.now) stock.new.items }
    ensures kept { vec_len stock.old ≤ vec_len stock.new }
    ensures ok { OnOk result (count ≤ vec_len stock.new) }
{
    while stock.len() < count {
        stock.push(stocked(alloc, p)?)?;
    }
    Ok(())
}

/// Gives the list capacity for this many items.
pub(crate) fn widen<T>(list: &mut Vec<T>, count: usize) -> Result<(), NoMemory>
where
    T: Drop,
    ensures items { list.new.items ≡ list.old.items }
    ensures len { vec_len list.new ≡ vec_len list.old }
    ensures kept { vec_capacity list.old ≤ vec_capacity list.new }
    ensures ok { OnOk result (count ≤ vec_capacity list.new) }
{
    let more = count.saturating_sub(list.len());
    list.reserve(more)?;
    Ok(())
}

/// How much each pool has to have.
#[derive(Clone, Copy, Debug)]
pub(crate) struct Wanted {
    pub dones: usize,
    pub issues: usize,
    pub others: usize,
    pub orders: usize,
    pub stock: usize,
    pub values: usize,
    pub rows: usize,
    pub places: usize,
}

/// What one more arrival needs, by the counts of arrivals, Dones, write-backs and acknowledgements so far.
pub(crate) fn wanted_now(p: &Params, arrivals: usize, dones: u64, issues: u32, acks: u32) -> Wanted
    requires most { arrivals ≤ 65536 }
    requires within { dones ≤ arrivals }
    ensures { pools_in result ≡ wanted p.now arrivals dones issues acks }
{
    let under_way = arrivals - dones as usize + 1;
    let due = (arrivals + 1).div_ceil(p.k() as usize);
    let unissued = due.saturating_sub(issues as usize);
    Wanted {
        dones: under_way,
        issues: unissued,
        others: (1 + due).saturating_sub(acks as usize),
        orders: unissued,
        stock: (p.l() as usize + 1) * under_way,
        values: under_way,
        rows: arrivals + 1,
        places: due,
    }
}

/// Fills up all pools to at least these sizes. If memory runs out, some have grown.
pub(crate) fn top_up(
    alloc: Global,
    p: &Params,
    wanted: &Wanted,
    session: &mut Record,
    requests: &mut Requests,
    fetches: &mut Vec<Fetch>,
    places: &mut Vec<usize>,
    values: &mut Vec<Block>,
    orders: &mut Vec<Order>,
    stock: &mut Vec<Bucket>,
) -> Result<(), NoMemory>
    requires each { All (λ value. length value ≡ p.now.b) values.old.items }
    requires order_rooms { All (IsOrderRoom p.now (issue_len p.now)) orders.old.items }
    requires stocked { All (IsStockFor p.now) stock.old.items }
    ensures history { session.new.history ≡ session.old.history }
    ensures requests { requests.new ≡ record requests.old { spare = requests.new.spare } }
    ensures rows { fetches.new.items ≡ fetches.old.items }
    ensures row_count { vec_len fetches.new ≡ vec_len fetches.old }
    ensures places { places.new.items ≡ places.old.items }
    ensures each { All (λ value. length value ≡ p.now.b) values.new.items }
    ensures order_rooms { All (IsOrderRoom p.now (issue_len p.now)) orders.new.items }
    ensures stocked { All (IsStockFor p.now) stock.new.items }
    ensures grown { KeepsPools (pools_from session.old requests.old.spare (vec_capacity fetches.old) (vec_capacity places.old) (vec_len values.old) (vec_len orders.old) (vec_len stock.old))
        (pools_from session.new requests.new.spare (vec_capacity fetches.new) (vec_capacity places.new) (vec_len values.new) (vec_len orders.new) (vec_len stock.new)) }
    ensures ok { OnOk result (KeepsPools (pools_in wanted.now) (pools_from session.new requests.new.spare (vec_capacity fetches.new) (vec_capacity places.new) (vec_len values.new) (vec_len orders.new) (vec_len stock.new))) }
{
    session.reserve(wanted.dones, wanted.issues, wanted.others)?;
    requests.reserve()?;
    widen(fetches, wanted.rows)?;
    widen(places, wanted.places)?;
    fill_values(alloc, p.b() as usize, values, wanted.values)?;
    fill_orders(alloc, p, orders, wanted.orders)?;
    fill_stock(alloc, p, stock, wanted.stock)?;
    Ok(())
}
