//! Orders compared with the buckets that they should send.
ghost use Rattle.std.specs.Prelude.{◌≡◌, ◌↔◌, ◌≤◌, length, All, IsTrue};
ghost use Rattle.std.specs.List.{flat_map};
ghost use Rattle.tao_base.specs.Limits.{bucket_len};
ghost use Rattle.tao_base.specs.Transfers.{same};
ghost use Rattle.tao_bucket.specs.Encoding.{IsWritten, encoded};
ghost use Rattle.tao_base.specs.Buckets.{IsInForm};
ghost use Rattle.tao_model.specs.Trace.{nodes_in};
ghost use Rattle.tao_images.specs.Orders.{IsOrderOf};

use tao_base::{Bucket, Order, Params, are_same};
use tao_bucket::{encode_into, format_of};

/// Whether the order sends these buckets with this version and this first nonce. Each bucket is encoded into the scratch bytes.
pub fn is_order(
    p: &Params,
    key: &[u8; 32],
    version: u32,
    nonce: u64,
    buckets: &[Bucket],
    order: &Order,
    scratch: &mut [u8],
) -> bool
    requires form { All (IsInForm p.now) buckets.now }
    requires scratch { bucket_len p.now ≤ length scratch.old }
    ensures { IsTrue result ↔ IsOrderOf key.now p.now version nonce buckets.now order.now }
{
    if order.version != version {
        return false;
    }
    if order.nonce != nonce {
        return false;
    }
    if !are_nodes(order.nodes.as_slice(), buckets) {
        return false;
    }
    let format = format_of(p, version);
    is_image(p, key, format, order.image.as_slice(), buckets, scratch)
}

// Whether these are the buckets' nodes.
fn are_nodes(nodes: &[u32], buckets: &[Bucket]) -> bool
    ensures { result ≡ same nodes.now (nodes_in buckets.now) }
{
    if nodes.len() != buckets.len() {
        return false;
    }
    for i in 0..buckets.len() {
        if nodes[i] != buckets[i].node {
            return false;
        }
    }
    true
}

// Whether these are the buckets' encodings, one behind another.
fn is_image(
    p: &Params,
    key: &[u8; 32],
    format: u8,
    image: &[u8],
    buckets: &[Bucket],
    scratch: &mut [u8],
) -> bool
    requires form { All (IsInForm p.now) buckets.now }
    requires format { IsWritten p.now.form format }
    requires scratch { bucket_len p.now ≤ length scratch.old }
    ensures { result ≡ same image.now (flat_map (encoded key.now p.now format) buckets.now) }
{
    let len = p.bucket_len() as usize;
    let bytes = &mut scratch[..len];
    let mut rest = image;
    for bucket in buckets {
        if rest.len() < len {
            return false;
        }
        let (first, later) = rest.split_at(len);
        encode_into(bucket, p, key, format, bytes);
        if !are_same(first, bytes) {
            return false;
        }
        rest = later;
    }
    rest.is_empty()
}
