ghost use Rattle.std.specs.Prelude.{◌≡◌, ◌+◌, ◌<◌, ◌≤◌, ◌∷◌, ◌++◌, [], true, false, IfOk};
ghost use Rattle.tao_orders.specs.Below.{AreBelow};
ghost use Rattle.tao_orders.specs.Passes.{IsPutPassOf, IsTakePassOf, put_of, share_of};
ghost use Rattle.tao_orders.specs.Shares.{IsWhole};
ghost use Rattle.tao_orders.specs.Works.{number_of};

use crate::{Orders, PutPass, TakePass, Work};
use std::alloc::Global;
use std::sync::{Arc, Mutex, Wait};
use std::test::Fail;
use std::thread;
use std::thread::Threads;
use tao_base::{Image, Numbers, Order};

fn order(alloc: Global, version: u32) -> Work
    ensures { number_of result ≡ version }
{
    Work::Order(Order {
        version,
        nonce: u64::from(version),
        nodes: Numbers::new(alloc),
        image: Image::new(alloc),
    })
}

// The version of an order that is as it was put; 0 for another one and for a Stop.
fn version_of(work: &Work) -> u32 {
    match work {
        Work::Order(order) => {
            if order.nonce == u64::from(order.version) {
                order.version
            } else {
                0
            }
        }
        Work::Stop => 0,
    }
}

// Puts an order of a greater version than all before, and says whether it was accepted.
#[tactic(auto, using(crate::proofs::BelowLemmas::next_may, crate::proofs::BelowLemmas::below_more))]
fn put<R: Wait>(rt: &R, alloc: Global, orders: &Orders, pass: &mut PutPass, version: u32) -> bool
    requires pass { IsPutPassOf orders.now pass.old }
    requires version { 1 ≤ version }
    requires greater { AreBelow version (put_of pass.old) }
    ensures pass { IsPutPassOf orders.now pass.new }
    ensures more { result ≡ true → AreBelow (version + 1) (put_of pass.new) }
    ensures same { result ≡ false → AreBelow version (put_of pass.new) }
{
    match orders.put(rt, pass, order(alloc, version)) {
        Ok(()) => true,
        Err(_) => false,
    }
}

#[tactic(auto, using(crate::proofs::BelowLemmas::stop_may))]
fn put_stop<R: Wait>(rt: &R, orders: &Orders, pass: &mut PutPass) -> bool
    requires { IsPutPassOf orders.now pass.old }
    ensures { IsPutPassOf orders.now pass.new }
{
    match orders.put(rt, pass, Work::Stop) {
        Ok(()) => true,
        Err(_) => false,
    }
}

// The version that is taken, 0 for a Stop.
fn take<R: Wait>(rt: &R, orders: &Orders, pass: &mut TakePass) -> Option<u32>
    requires { IsTakePassOf orders.now pass.old }
    ensures { IsTakePassOf orders.now pass.new }
{
    match orders.take(rt, pass) {
        Some(work) => Some(version_of(&work)),
        None => None,
    }
}

// A pass that is split and joined again, whose share is whole once more.
fn split_and_join(orders: &Orders, pass: TakePass) -> TakePass
    requires { IsTakePassOf orders.now pass × IsWhole (share_of pass) }
    ensures { IsTakePassOf orders.now result × IsWhole (share_of result) }
{
    let mut pass = pass;
    let other = orders.split(&mut pass);
    orders.join(&mut pass, other);
    pass
}

#[test]
#[tactic(auto, using(crate::proofs::BelowLemmas::none_below))]
fn a_full_queue_hands_back(rt: HostRuntime) -> Result<(), Fail> {
    let alloc = rt.alloc();
    let (orders, mut putting, mut taking) = Orders::new(alloc, 1)?;
    assert!(rt; put(&rt, alloc, &orders, &mut putting, 1));
    assert!(rt; !put(&rt, alloc, &orders, &mut putting, 2));
    assert_eq!(rt; take(&rt, &orders, &mut taking), Some(1));
    assert_eq!(rt; take(&rt, &orders, &mut taking), None);
    assert!(rt; put(&rt, alloc, &orders, &mut putting, 2));
    assert_eq!(rt; take(&rt, &orders, &mut taking), Some(2));
    Ok(())
}

#[test]
#[tactic(auto, using(crate::proofs::BelowLemmas::none_below))]
fn a_stop_waits_for_room(rt: HostRuntime) -> Result<(), Fail> {
    let alloc = rt.alloc();
    let (orders, mut putting, mut taking) = Orders::new(alloc, 1)?;
    assert!(rt; put(&rt, alloc, &orders, &mut putting, 1));
    assert!(rt; !put_stop(&rt, &orders, &mut putting));
    assert_eq!(rt; take(&rt, &orders, &mut taking), Some(1));
    assert!(rt; put_stop(&rt, &orders, &mut putting));
    assert_eq!(rt; take(&rt, &orders, &mut taking), Some(0));
    Ok(())
}

#[test]
#[tactic(auto, using(crate::proofs::BelowLemmas::none_below))]
fn what_is_left_comes_back(rt: HostRuntime) -> Result<(), Fail> {
    let alloc = rt.alloc();
    let (orders, mut putting, taking) = Orders::new(alloc, 2)?;
    let mut taking = split_and_join(&orders, taking);
    assert!(rt; put(&rt, alloc, &orders, &mut putting, 1));
    assert!(rt; put(&rt, alloc, &orders, &mut putting, 2));
    assert_eq!(rt; take(&rt, &orders, &mut taking), Some(1));
    let left = orders.finish(&rt, putting, taking);
    let works = left.as_slice();
    assert_eq!(rt; works.len(), 1);
    assert_eq!(rt; version_of(&works[0]), 2);
    Ok(())
}

// The putting pass beside its queue, as they lie under a lock.
#[derive(Drop)]
struct Putting {
    orders: Arc<Orders, Global>,
    pass: PutPass,
    ghost own: { IsPutPassOf orders.value pass },
}

impl Putting {
    fn stop<R: Wait>(&mut self, rt: &R) -> bool {
        put_stop(rt, &self.orders, &mut self.pass)
    }
}

#[test]
fn the_putting_pass_lies_under_a_lock(rt: HostRuntime) -> Result<(), Fail> {
    let (orders, pass, mut taking) = Orders::new(rt.alloc(), 2)?;
    let orders = Arc::new(rt.alloc(), orders)?;
    let theirs = Arc::try_clone(&orders)?;
    let lock = Mutex::new(Putting {
        orders: theirs,
        pass,
    });
    assert!(rt; lock.lock(&rt).stop(&rt));
    assert_eq!(rt; take(&rt, &orders, &mut taking), Some(0));
    Ok(())
}

const COUNT: u32 = 2_000;

// Puts the versions from 1 on, and then a Stop for each of two takers.
fn put_all<R: Wait>(rt: &R, alloc: Global, orders: &Orders, pass: PutPass) -> PutPass
    requires { IsPutPassOf orders.now pass × (put_of pass ≡ []) }
    ensures { IsPutPassOf orders.now result }
{
    let mut pass = put_orders(rt, alloc, orders, pass);
    let mut stops = 0u32;
    for _ in rt.forever() {
        if stops == 2 {
            break;
        }
        if put_stop(rt, orders, &mut pass) {
            stops = stops.wrapping_add(1);
        } else {
            thread::yield_now();
        }
    }
    pass
}

#[tactic(auto, using(crate::proofs::BelowLemmas::none_below))]
fn put_orders<R: Wait>(rt: &R, alloc: Global, orders: &Orders, pass: PutPass) -> PutPass
    requires { IsPutPassOf orders.now pass × (put_of pass ≡ []) }
    ensures { IsPutPassOf orders.now result }
{
    let mut pass = pass;
    let mut version = 1;
    for _ in rt.forever() {
        if version > COUNT {
            break;
        }
        if put(rt, alloc, orders, &mut pass, version) {
            version += 1;
        } else {
            thread::yield_now();
        }
    }
    pass
}

// Takes until a Stop comes: how many orders, and the sum of their versions.
fn take_all<R: Wait>(rt: &R, orders: &Orders, pass: TakePass) -> (TakePass, u32, u32)
    requires { IsTakePassOf orders.now pass }
    ensures { IsTakePassOf orders.now result.0 }
{
    let mut pass = pass;
    let mut count = 0u32;
    let mut sum = 0u32;
    for _ in rt.forever() {
        match take(rt, orders, &mut pass) {
            Some(0) => break,
            Some(version) => {
                count = count.wrapping_add(1);
                sum = sum.wrapping_add(version);
            }
            None => thread::yield_now(),
        }
    }
    (pass, count, sum)
}

// Two threads take until each has its Stop.
fn take_by_two<R: Threads + Wait + Sync>(
    rt: &R,
    orders: &Orders,
    first: TakePass,
    second: TakePass,
) -> ((TakePass, u32, u32), (TakePass, u32, u32))
    requires { IsTakePassOf orders.now first × IsTakePassOf orders.now second }
    ensures { IsTakePassOf orders.now result.0.0 × IsTakePassOf orders.now result.1.0 }
{
    thread::join(
        rt,
        move ||
            requires { IsTakePassOf orders.now first }
            ensures { IsTakePassOf orders.entry.now result.0 }
        { take_all(rt, orders, first) },
        move ||
            requires { IsTakePassOf orders.now second }
            ensures { IsTakePassOf orders.entry.now result.0 }
        { take_all(rt, orders, second) },
    )
}

#[test]
fn two_takers_take_each_once(rt: HostRuntime) -> Result<(), Fail> {
    let alloc = rt.alloc();
    let (orders, putting, mut first) = Orders::new(alloc, 4)?;
    let second = orders.split(&mut first);
    let line = &orders;
    let (putting, (first, second)) = thread::join(
        &rt,
        move ||
            requires { IsPutPassOf line.now putting × (put_of putting ≡ []) }
            ensures { IsPutPassOf line.entry.now result }
        { put_all(&rt, alloc, line, putting) },
        move ||
            requires { IsTakePassOf line.now first × IsTakePassOf line.now second }
            ensures { IsTakePassOf line.entry.now result.0.0 × IsTakePassOf line.entry.now result.1.0 }
        { take_by_two(&rt, line, first, second) },
    );
    let (mut pass, count, sum) = first;
    let (other, more, rest) = second;
    assert_eq!(rt; count.wrapping_add(more), COUNT);
    assert_eq!(rt; sum.wrapping_add(rest), COUNT * (COUNT + 1) / 2);
    orders.join(&mut pass, other);
    let left = orders.finish(&rt, putting, pass);
    assert!(rt; left.as_slice().is_empty());
    Ok(())
}

// A taking pass with a share of its queue, as a thread of its own has them.
#[derive(Drop)]
struct Taking {
    orders: Arc<Orders, Global>,
    pass: TakePass,
    ghost own: { IsTakePassOf orders.value pass },
}

fn take_with<R: Wait>(rt: &R, taking: Taking) -> (u32, u32) {
    let Taking { orders, pass } = taking;
    let (_, count, sum) = take_all(rt, &orders, pass);
    (count, sum)
}

#[test]
fn threads_share_the_queue_by_an_arc(rt: HostRuntime) -> Result<(), Fail> {
    let alloc = rt.alloc();
    let (orders, putting, mut pass) = Orders::new(alloc, 4)?;
    let second = orders.split(&mut pass);
    let orders = Arc::new(alloc, orders)?;
    let theirs = Arc::try_clone(&orders)?;
    let first = Taking {
        orders: theirs,
        pass,
    };
    let theirs = Arc::try_clone(&orders)?;
    let second = Taking {
        orders: theirs,
        pass: second,
    };
    let first = thread::spawn(&rt, move || take_with(&rt, first))?;
    let second = thread::spawn(&rt, move || take_with(&rt, second))?;
    put_all(&rt, alloc, &orders, putting);
    let (count, sum) = first.join(&rt);
    let (more, rest) = second.join(&rt);
    assert_eq!(rt; count.wrapping_add(more), COUNT);
    assert_eq!(rt; sum.wrapping_add(rest), COUNT * (COUNT + 1) / 2);
    Ok(())
}
