//! The tree alone, behind a lock, and over its links, with the smallest parameters.
ghost use Rattle.std.specs.Prelude.{◌≡◌, ◌<◌, ◌≤◌, IfOk};
ghost use Rattle.tao_base.specs.Limits.{shape};
ghost use Rattle.tao_base.specs.Links.{IsSendable, header_node};
ghost use Rattle.tao_base.specs.declared.parameters.Form.TheVariants.{One};
ghost use Rattle.tao_tree.specs.Nodes.{reach_of};

mod doors;
mod memory;
mod streams;
mod trees;

use std::alloc::Global;
use std::process::Abort;
use std::sync::Wait;
use std::test::Fail;
use tao_base::{Failed, Image, Link, NoMemory, Numbers, Order, Params};
use tao_bucket::node_of;

pub(crate) const LEN: usize = 28;

pub(crate) fn small() -> Result<Params, Fail>
    ensures { IfOk result (λ p. p ≡ shape 1 1 4 1 1 One) }
{
    Ok(Params::new(1, 1, 4, 1, 1)?)
}

// The bytes of a bucket of this node, with another version in its header than it is sent with.
pub(crate) fn bucket(node: u8, last: u8) -> [u8; LEN] {
    let mut bytes = [0; LEN];
    bytes[7] = node;
    bytes[11] = 200;
    bytes[27] = last;
    bytes
}

// The node in a bucket's header.
fn node_in(rt: &impl Abort, bucket: &[u8; LEN]) -> u32
    ensures value { result ≡ header_node bucket.now }
    ensures low { 1 ≤ result }
    ensures high { result ≤ 3 }
{
    let node = node_of(bucket);
    assert!(rt; 1 <= node && node <= 3);
    node
}

// An order of one bucket.
pub(crate) fn order_of(
    rt: &impl Abort,
    alloc: Global,
    version: u32,
    bucket: [u8; LEN],
) -> Result<Order, NoMemory>
    ensures { IfOk result (λ order. IsSendable (reach_of (shape 1 1 4 1 1 One)) order) }
{
    let node = node_in(rt, &bucket);
    Ok(Order {
        version,
        nonce: 7,
        nodes: Numbers::from_slice(alloc, &[node])?,
        image: Image::from_slice(alloc, &bucket)?,
    })
}

// An order of two buckets.
pub(crate) fn order_of_two(
    rt: &impl Abort,
    alloc: Global,
    version: u32,
    first: [u8; LEN],
    second: [u8; LEN],
) -> Result<Order, NoMemory>
    ensures { IfOk result (λ order. IsSendable (reach_of (shape 1 1 4 1 1 One)) order) }
{
    let nodes = [node_in(rt, &first), node_in(rt, &second)];
    let mut image = Image::from_slice(alloc, &first)?;
    image.extend_from_slice(&second)?;
    Ok(Order {
        version,
        nonce: 8,
        nodes: Numbers::from_slice(alloc, &nodes)?,
        image,
    })
}

// What is answered to a fetch of this leaf over this link.
fn fetch<L: Link, R: Wait>(rt: &R, link: &mut L, leaf: u32) -> Result<[u8; 2 * LEN], Failed>
    requires link { L.reach link.old ≡ reach_of (shape 1 1 4 1 1 One) }
    requires leaf { leaf < 2 }
    ensures { L.reach link.new ≡ L.reach link.old }
{
    let mut path = [9; 2 * LEN];
    link.fetch(rt, 5, leaf, &mut path)?;
    Ok(path)
}

// A fetch of this leaf is answered by this path.
pub(crate) fn check_path<L: Link, R: Abort + Wait>(
    rt: &R,
    link: &mut L,
    leaf: u32,
    path: [u8; 2 * LEN],
)
    requires link { L.reach link.old ≡ reach_of (shape 1 1 4 1 1 One) }
    requires leaf { leaf < 2 }
    ensures { L.reach link.new ≡ L.reach link.old }
{
    match fetch(rt, link, leaf) {
        Ok(answer) => assert!(rt; answer == path),
        Err(_) => assert!(rt; false),
    }
}

// A fetch fails.
pub(crate) fn check_no_path<L: Link, R: Abort + Wait>(rt: &R, link: &mut L)
    requires { L.reach link.old ≡ reach_of (shape 1 1 4 1 1 One) }
    ensures { L.reach link.new ≡ L.reach link.old }
{
    let failed = fetch(rt, link, 1).is_err();
    assert!(rt; failed);
}

// A store over this link is acknowledged, or isn't.
pub(crate) fn check_store<L: Link, R: Abort + Wait>(
    rt: &R,
    link: &mut L,
    order: &Order,
    right: bool,
)
    requires link { L.reach link.old ≡ reach_of (shape 1 1 4 1 1 One) }
    requires order { IsSendable (reach_of (shape 1 1 4 1 1 One)) order.now }
    ensures { L.reach link.new ≡ L.reach link.old }
{
    let stored = link.store(rt, order).is_ok();
    assert!(rt; stored == right);
}
