//! The tags of the nodes' latest versions, each at its node's place.
ghost use Rattle.std.specs.Prelude.{◌≡◌, ◌+◌, ◌*◌, ◌<◌, ◌≤◌, ◌∷◌, length, drop, map, replicate, All, IfOk};
ghost use Rattle.std.specs.List.{range_with_len};
ghost use Rattle.std.specs.List.Sorted.{IsStrictlyIncreasing};
ghost use Rattle.tao_base.specs.Buckets.{IsInForm};
ghost use Rattle.tao_base.specs.Limits.{bucket_len, slots_len};
ghost use Rattle.tao_base.specs.Tree.{node_count};
ghost use Rattle.tao_bucket.specs.Encoding.{IsWritten, format_of as the_format, tag_of as the_tag};
ghost use Rattle.tao_images.specs.Paths.{piece};
ghost use Rattle.tao_model.specs.Trace.{nodes_in};
ghost use Rattle.tao_processor.specs.Tags.{HasTagsOf, SetsTags, KeepsTagsOf};

use std::alloc::Global;
use tao_base::{Bucket, Form, NoMemory, Order, Params};
use tao_bucket::{encode_into, format_of, tail_of};

/// The tags of the loaded buckets, each at its node's place. An untagged store has no places, and in a mixed one the load has no tags.
pub(crate) fn load_tags(
    alloc: Global,
    p: &Params,
    key: &[u8; 32],
    loaded: &[Bucket],
) -> Result<Vec<[u8; 32]>, NoMemory>
    requires in_form { All (IsInForm p.now) loaded.now }
    requires nodes { nodes_in loaded.now ≡ range_with_len 1 (node_count p.now.l) }
    ensures { IfOk result (λ tags. HasTagsOf key.now p.now loaded.now tags.items) }
{
    match p.form() {
        Form::One => Ok(Vec::new(alloc)),
        Form::Two => tags_in_turn(alloc, p, key, loaded),
        Form::Turn => Ok(vec![in alloc; [0; 32]; p.nodes() as usize + 1]?),
    }
}

// The tag of each bucket, behind a first place that is no bucket's.
fn tags_in_turn(
    alloc: Global,
    p: &Params,
    key: &[u8; 32],
    loaded: &[Bucket],
) -> Result<Vec<[u8; 32]>, NoMemory>
    requires in_form { All (IsInForm p.now) loaded.now }
    requires form { IsWritten p.now.form 2 }
    ensures { IfOk result (λ tags. tags.items ≡ replicate 32 0 ∷ map (the_tag key.now p.now) loaded.now) }
{
    let mut scratch = vec![in alloc; 0; p.bucket_len() as usize]?;
    let mut tags = Vec::with_capacity(alloc, loaded.len() + 1)?;
    tags.push_reserved([0; 32]);
    for i in 0..loaded.len() {
        tags.push_reserved(tag_of(p, key, &loaded[i], &mut scratch));
    }
    Ok(tags)
}

// The tag of a bucket, which is encoded into the scratch bytes.
fn tag_of(p: &Params, key: &[u8; 32], bucket: &Bucket, scratch: &mut [u8]) -> [u8; 32]
    requires in_form { IsInForm p.now bucket.now }
    requires form { IsWritten p.now.form 2 }
    requires scratch { length scratch.old ≡ bucket_len p.now }
    ensures { result ≡ the_tag key.now p.now bucket.now }
{
    encode_into(bucket, p, key, 2, scratch);
    let mut tag = [0; 32];
    copy_tag(p, scratch, &mut tag);
    tag
}

// Copies the tag of a bucket from its bytes.
fn copy_tag(p: &Params, bytes: &[u8], tag: &mut [u8; 32])
    requires form { IsWritten p.now.form 2 }
    requires len { length bytes.now ≡ bucket_len p.now }
    ensures { tag.new ≡ drop (slots_len p.now.z p.now.b) bytes.now }
{
    tag.copy_from_slice(tail_of(p, bytes));
}

/// Keeps the tags of an order's buckets, if its version has tags.
pub(crate) fn keep_tags(p: &Params, order: &Order, tags: &mut [[u8; 32]])
    requires image { length order.now.image ≡ length order.now.nodes * bucket_len p.now }
    requires rising { IsStrictlyIncreasing order.now.nodes }
    requires places { the_format p.now.form order.now.version ≡ 2 → All (λ node. node < length tags.old) order.now.nodes }
    ensures { KeepsTagsOf p.now order.now tags.old tags.new }
{
    if format_of(p, order.version) == 2 {
        set_tags(p, order, tags);
    }
}

fn set_tags(p: &Params, order: &Order, tags: &mut [[u8; 32]])
    requires form { IsWritten p.now.form 2 }
    requires image { length order.now.image ≡ length order.now.nodes * bucket_len p.now }
    requires rising { IsStrictlyIncreasing order.now.nodes }
    requires places { All (λ node. node < length tags.old) order.now.nodes }
    ensures { SetsTags p.now order.now (length order.now.nodes) tags.old tags.new }
{
    let nodes = order.nodes.as_slice();
    for i in 0..nodes.len() {
        let bytes = bucket_at(p, order.image.as_slice(), i);
        copy_tag(p, bytes, &mut tags[nodes[i] as usize]);
    }
}

// Bucket i of an image.
fn bucket_at<'a>(p: &Params, image: &'a [u8], i: usize) -> &'a [u8]
    requires { (i + 1) * bucket_len p.now ≤ length image.now }
    ensures value { result.now ≡ piece p.now image.now i }
    ensures len { length result.now ≡ bucket_len p.now }
{
    let len = p.bucket_len() as usize;
    let at = i * len;
    &image[at..at + len]
}
