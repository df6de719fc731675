//! Whole paths that are read, and whole images that are applied.
ghost use Rattle.std.specs.Prelude.{◌≡◌, ◌+◌, ◌*◌, ◌^◌, ◌<◌, length};
ghost use Rattle.tao_base.specs.Limits.{bucket_len};
ghost use Rattle.tao_tree.specs.Nodes.{path_bytes, IsTreeImage, all_applied};

use crate::tree::Tree;
use tao_base::path_node;
use tao_bucket::node_of;

/// Copies the buckets of the path to the leaf, the root's first.
pub fn read_path(tree: &Tree, leaf: u32, out: &mut [u8])
    requires leaf { leaf < 2 ^ tree.now.shape.l }
    requires len { length out.old ≡ (tree.now.shape.l + 1) * bucket_len tree.now.shape }
    ensures { out.new ≡ path_bytes tree.now leaf }
{
    let p = tree.params();
    let len = p.bucket_len() as usize;
    for depth in 0..p.l() + 1 {
        let at = depth as usize * len;
        tree.read(path_node(p, leaf, depth), &mut out[at..at + len]);
    }
}

/// Applies each bucket of the image at the node in its header, with this version and not the one in its header.
pub(crate) fn apply_all(tree: &mut Tree, version: u32, image: &[u8])
    requires { IsTreeImage tree.old.shape image.now }
    ensures value { tree.new ≡ all_applied tree.old version image.now }
    ensures shape { tree.new.shape ≡ tree.old.shape }
{
    let len = tree.params().bucket_len() as usize;
    for i in 0..image.len() / len {
        let bucket = &image[i * len..i * len + len];
        tree.apply(version, node_of(bucket), bucket);
    }
}
