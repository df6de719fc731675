//! A tree that many threads reach. What it holds changes under the lock, so nothing is said of it; only its parameters stay.
ghost use Rattle.std.specs.Prelude.{◌≡◌, ◌+◌, ◌*◌, ◌^◌, ◌<◌, length};
ghost use Rattle.tao_base.specs.Limits.{IsShape, bucket_len};

use crate::planted::{Planted, Shaped};
use crate::tree::Tree;
use std::marker::Model;
use std::sync::{Mutex, Wait};
use tao_base::Params;

/// A tree behind a lock, which keeps the parameters that `J` names.
#[derive(Drop)]
pub struct SharedTree<J: Shaped> {
    p: Params,
    tree: Mutex<Planted<J>>,
}

impl<J: Shaped> Model for SharedTree<J> {
    ghost use Rattle.std.specs.Prelude.{◌≡◌};
    ghost use Rattle.tao_base.specs.Limits.{Shape, IsShape};

    ghost Value = { Shape };

    ghost view = { λ s. s.p };

    ghost invariant = { λ s. (s.p ≡ J.shape) × IsShape s.p };
}

impl<J: Shaped> SharedTree<J> {
    ghost use Rattle.tao_tree.specs.Nodes.{IsSomePath, IsTreeImage};

    /// Puts the tree behind a lock.
    pub fn new(tree: Tree) -> SharedTree<J>
        requires { tree.shape ≡ J.shape }
        ensures { result ≡ tree.shape }
    {
        SharedTree {
            p: *tree.params(),
            tree: Mutex::new(Planted::new(tree)),
        }
    }

    /// The parameters that the tree was made for.
    pub fn params(&self) -> &Params
        ensures value { result.now ≡ self.now }
        ensures shape { IsShape self.now }
    {
        &self.p
    }

    /// Copies the buckets of the path to the leaf, the root's first, as they are at one moment. Since a lock tells nothing of what it
    /// guards, the contract says that they are buckets of some tree; that they are this one's is tested.
    pub fn fetch_path<R: Wait>(&self, rt: &R, leaf: u32, out: &mut [u8])
        requires leaf { leaf < 2 ^ self.now.l }
        requires len { length out.old ≡ (self.now.l + 1) * bucket_len self.now }
        ensures { IsSomePath self.now leaf out.new }
    {
        self.tree.lock(rt).read_path(leaf, out);
    }

    /// Applies each bucket of the image at the node in its header, with this version.
    pub fn store_all<R: Wait>(&self, rt: &R, version: u32, image: &[u8])
        requires { IsTreeImage self.now image.now }
    {
        self.tree.lock(rt).apply_all(version, image);
    }

    /// The tree, once no link leads to it any more. It has kept its parameters.
    pub fn into_tree(self) -> Tree
        ensures { result.shape ≡ self }
    {
        self.tree.into_inner().into_tree()
    }
}
