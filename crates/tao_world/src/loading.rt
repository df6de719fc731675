//! The server's tree is loaded.
ghost use Rattle.std.specs.Prelude.{◌≡◌, ◌+◌, ◌*◌, ◌<◌, ◌≤◌, length, slice_index, IfOk};
ghost use Rattle.tao_base.specs.Limits.{bucket_len};
ghost use Rattle.tao_base.specs.Images.{bucket_in};
ghost use Rattle.tao_base.specs.Links.{FitsLinks};
ghost use Rattle.tao_images.specs.Paths.{piece};
ghost use Rattle.tao_tree.specs.Nodes.{applied, all_applied, empty_tree};
ghost use Rattle.tao_world.specs.Changes.{image_of};

use std::alloc::Global;
use tao_base::{Image, NoMemory, Numbers, Order};
use tao_desk::Desk;
use tao_tape::ScriptTape;
use tao_tree::Tree;

/// A tree to which the desk's load was applied, part by part.
pub(crate) fn loaded_tree(alloc: Global, desk: &Desk<ScriptTape>) -> Result<Tree, NoMemory>
    ensures { IfOk result (λ tree. tree ≡ all_applied (empty_tree desk.now.history.opening.shape) 0 (image_of desk.now.key desk.now.history.opening.shape 0 desk.now.history.opening.loaded)) }
{
    let p = desk.params();
    let mut tree = Tree::new(alloc, p)?;
    let mut order = Order {
        version: 0,
        nonce: 0,
        nodes: Numbers::new(alloc),
        image: Image::new(alloc),
    };
    for part in 0..p.nodes().div_ceil(256) {
        desk.load_part(part, &mut order)?;
        apply_order(&mut tree, &order);
    }
    Ok(tree)
}

// Applies all buckets of the order.
fn apply_order(tree: &mut Tree, order: &Order)
    requires { FitsLinks tree.old.shape order.now }
    ensures value { tree.new ≡ all_applied tree.old order.now.version order.now.image }
    ensures shape { tree.new.shape ≡ tree.old.shape }
{
    for i in 0..order.nodes.as_slice().len() {
        apply_bucket(tree, order, i);
    }
}

/// Applies bucket `i` of the order.
pub(crate) fn apply_bucket(tree: &mut Tree, order: &Order, i: usize)
    requires fits { FitsLinks tree.old.shape order.now }
    requires within { i < length order.now.nodes }
    ensures value { tree.new ≡ applied tree.old order.now.version (slice_index order.now.nodes i) (piece tree.old.shape order.now.image i) }
    ensures shape { tree.new.shape ≡ tree.old.shape }
{
    let len = tree.params().bucket_len() as usize;
    let node = order.nodes.as_slice()[i];
    tree.apply(order.version, node, bucket_of(&order.image, i, len));
}

// Bucket `i` of an image.
fn bucket_of(image: &Image, i: usize, len: usize) -> &[u8]
    requires { i * len + len ≤ length image.now }
    ensures { result.now ≡ bucket_in len image.now i }
{
    let image = image.as_slice();
    let at = i * len;
    &image[at..at + len]
}
