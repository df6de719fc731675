//! A tree whose parameters stay known where nothing else is known of it, as under a lock.
ghost use Rattle.std.specs.Prelude.{◌≡◌, ◌+◌, ◌*◌, ◌^◌, ◌<◌, length};
ghost use Rattle.tao_base.specs.Limits.{Shape, bucket_len, shape};
ghost use Rattle.tao_base.specs.declared.parameters.Form.TheVariants.{One};
ghost use Rattle.tao_tree.specs.Nodes.{IsTreeImage, all_applied, path_bytes};

use crate::paths::{apply_all, read_path};
use crate::tree::Tree;
use std::marker::{Brand, Model, PhantomData};

/// The parameters of a tree that is shared. A call that passes `Brand` picks them.
pub trait Shaped {
    ghost shape: { Shape };
}

impl Shaped for Brand {
    ghost shape = { shape 1 1 4 1 1 One };
}

/// A tree of these parameters.
#[derive(Drop)]
pub(crate) struct Planted<J: Shaped> {
    tree: Tree,
    of: PhantomData<J>,
}

impl<J: Shaped> Model for Planted<J> {
    ghost use Rattle.std.specs.Prelude.{◌≡◌};
    ghost use Rattle.tao_tree.specs.Nodes.{TreeState};

    ghost Value = { TreeState };

    ghost view = { λ p. p.tree };

    ghost invariant = { λ p. p.tree.shape ≡ J.shape };
}

impl<J: Shaped> Planted<J> {
    pub(crate) fn new(tree: Tree) -> Planted<J>
        requires { tree.shape ≡ J.shape }
        ensures { result ≡ tree }
    {
        Planted {
            tree,
            of: PhantomData,
        }
    }

    // Copies the buckets of the path to the leaf, the root's first.
    pub(crate) fn read_path(&self, leaf: u32, out: &mut [u8])
        requires leaf { leaf < 2 ^ J.shape.l }
        requires len { length out.old ≡ (J.shape.l + 1) * bucket_len J.shape }
        ensures path { out.new ≡ path_bytes self.now leaf }
        ensures shape { self.now.shape ≡ J.shape }
    {
        read_path(&self.tree, leaf, out);
    }

    // Applies each bucket of the image at the node in its header, with this version.
    pub(crate) fn apply_all(&mut self, version: u32, image: &[u8])
        requires { IsTreeImage J.shape image.now }
        ensures { self.new ≡ all_applied self.old version image.now }
    {
        apply_all(&mut self.tree, version, image);
    }

    pub(crate) fn into_tree(self) -> Tree
        ensures tree { result ≡ self }
        ensures shape { result.shape ≡ J.shape }
    {
        self.tree
    }
}
