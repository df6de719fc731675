//! A link within the proxy itself.
ghost use Rattle.std.specs.Prelude.{◌≡◌, ◌+◌, ◌*◌, ◌^◌, ◌<◌, [], ◌∷◌, length, None, IsOk, OnErr};
ghost use Rattle.tao_base.specs.Causes.{HasCause};
ghost use Rattle.tao_base.specs.Limits.{bucket_len};
ghost use Rattle.tao_base.specs.Links.{TellsMore, IsSendable, asked_of};
ghost use Rattle.tao_base.specs.declared.links.Asked.TheVariants.{Fetch};
ghost use Rattle.tao_tree.specs.Nodes.{IsSomePath, reach_of};

use crate::planted::Shaped;
use crate::shared::SharedTree;
use std::marker::Model;
use std::sync::Wait;
use tao_base::{Failed, Link, Order};

/// A link straight to a tree. It never fails, and logs nothing.
#[derive(Drop)]
pub struct TreeLink<'t, J: Shaped> {
    tree: &'t SharedTree<J>,
}

impl<'t, J: Shaped> Model for TreeLink<'t, J> {
    ghost use Rattle.tao_base.specs.Limits.{Shape};

    ghost Value = { Shape };

    ghost view = { λ l. l.tree.now };
}

impl<'t, J: Shaped> TreeLink<'t, J> {
    /// A link to this tree.
    pub fn new(tree: &'t SharedTree<J>) -> TreeLink<'t, J>
        ensures { result ≡ tree.now }
    {
        TreeLink { tree }
    }
}

impl<'t, J: Shaped> Link for TreeLink<'t, J> {
    ghost faults = { λ _. 0 };

    ghost reach = { λ s. reach_of s };

    ghost told = { λ _. None };

    fn fetch<R: Wait>(&mut self, rt: &R, _id: u64, leaf: u32, path: &mut [u8]) -> Result<(), Failed>
        requires leaf { leaf < 2 ^ self.old.l }
        requires path { length path.old ≡ (self.old.l + 1) * bucket_len self.old }
        ensures reach { reach_of self.new ≡ reach_of self.old }
        ensures shape { self.new ≡ self.old }
        ensures told { TellsMore None None (Fetch _id leaf) result (path.new ∷ []) [] }
        ensures path_kept { OnErr result (path.new ≡ path.old) }
        ensures cause { HasCause 0 0 result }
        ensures ok { IsOk result }
        ensures path { IsSomePath self.old leaf path.new }
    {
        self.tree.fetch_path(rt, leaf, path);
        Ok(())
    }

    fn store<R: Wait>(&mut self, rt: &R, order: &Order) -> Result<(), Failed>
        requires { IsSendable (reach_of self.old) order.now }
        ensures reach { reach_of self.new ≡ reach_of self.old }
        ensures shape { self.new ≡ self.old }
        ensures told { TellsMore None None (asked_of order.now) result [] (order.now.version ∷ []) }
        ensures cause { HasCause 0 0 result }
        ensures ok { IsOk result }
    {
        self.tree
            .store_all(rt, order.version, order.image.as_slice());
        Ok(())
    }
}
