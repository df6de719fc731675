//! Orders written in place.
ghost use Rattle.std.specs.Prelude.{◌≡◌, ◌+◌, ◌*◌, ◌≤◌, length, take, All, IfOk};
ghost use Rattle.std.specs.List.{flat_map};
ghost use Rattle.tao_base.specs.Limits.{bucket_len};
ghost use Rattle.tao_base.specs.Tree.{node_count};
ghost use Rattle.tao_bucket.specs.Encoding.{IsWritten, encoded};
ghost use Rattle.tao_base.specs.Buckets.{IsInForm};
ghost use Rattle.tao_model.specs.Trace.{nodes_in};
ghost use Rattle.tao_images.specs.Orders.{IsOrderOf, IsOrderRoom};

use std::alloc::Global;
use tao_base::{Bucket, Image, NoMemory, Numbers, Order, Params};
use tao_bucket::{encode_into, format_of};

/// An order in whose place one of up to `count` buckets can be written.
pub fn order_room(alloc: Global, p: &Params, count: u32) -> Result<Order, NoMemory>
    requires { count ≤ node_count p.now.l }
    ensures { IfOk result (IsOrderRoom p.now count) }
{
    let count = count as usize;
    let len = p.bucket_len() as usize;
    Ok(Order {
        version: 0,
        nonce: 0,
        nodes: Numbers::from_vec(vec![in alloc; 0; count]?),
        image: Image::from_vec(vec![in alloc; 0; count * len]?),
    })
}

/// Makes the order, in place, one that sends these buckets with this version and this first nonce.
pub fn write_order(
    p: &Params,
    key: &[u8; 32],
    version: u32,
    nonce: u64,
    buckets: &[Bucket],
    order: &mut Order,
)
    requires form { All (IsInForm p.now) buckets.now }
    requires room { IsOrderRoom p.now (length buckets.now) order.old }
    ensures { IsOrderOf key.now p.now version nonce buckets.now order.new }
{
    order.version = version;
    order.nonce = nonce;
    fill_nodes(&mut order.nodes, buckets);
    fill_image(p, key, format_of(p, version), buckets, &mut order.image);
}

fn fill_nodes(nodes: &mut Numbers, buckets: &[Bucket])
    requires { length buckets.now ≤ length nodes.old }
    ensures { nodes.new ≡ nodes_in buckets.now }
{
    write_nodes(nodes.as_mut_slice(), buckets);
    nodes.truncate(buckets.len());
}

// Writes the buckets' nodes to the first places.
fn write_nodes(nodes: &mut [u32], buckets: &[Bucket])
    requires { length buckets.now ≤ length nodes.old }
    ensures { take (length buckets.now) nodes.new ≡ nodes_in buckets.now }
{
    for (i, bucket) in buckets.iter().enumerate() {
        nodes[i] = bucket.node;
    }
}

fn fill_image(p: &Params, key: &[u8; 32], format: u8, buckets: &[Bucket], image: &mut Image)
    requires form { All (IsInForm p.now) buckets.now }
    requires format { IsWritten p.now.form format }
    requires room { length buckets.now * bucket_len p.now ≤ length image.old }
    ensures { image.new ≡ flat_map (encoded key.now p.now format) buckets.now }
{
    write_image(p, key, format, buckets, image.as_mut_slice());
    image.truncate(buckets.len() * p.bucket_len() as usize);
}

// Writes the buckets' encodings to the first places, one behind another.
fn write_image(p: &Params, key: &[u8; 32], format: u8, buckets: &[Bucket], image: &mut [u8])
    requires form { All (IsInForm p.now) buckets.now }
    requires format { IsWritten p.now.form format }
    requires room { length buckets.now * bucket_len p.now ≤ length image.old }
    ensures { take (length buckets.now * bucket_len p.now) image.new ≡ flat_map (encoded key.now p.now format) buckets.now }
{
    let len = p.bucket_len() as usize;
    for i in 0..buckets.len() {
        let at = i * len;
        encode_into(&buckets[i], p, key, format, &mut image[at..at + len]);
    }
}
