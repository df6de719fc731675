//! A link in memory, which logs its calls, fails where it is told to and alters answers where it is told to.
ghost use Rattle.std.specs.Prelude.{◌≡◌, ◌⊎◌, ◌+◌, ◌*◌, ◌^◌, ◌<◌, ◌↔◌, false, [], ◌∷◌, ◌++◌, length, Some, OnOk, OnErr, IsErr, IsTrue, Contains};
ghost use Rattle.tao_base.specs.Causes.{HasCause};
ghost use Rattle.tao_base.specs.Limits.{bucket_len};
ghost use Rattle.tao_base.specs.Links.{TellsMore, IsSendable, asked_of, told};
ghost use Rattle.tao_base.specs.declared.links.Asked.TheVariants.{Fetch};
ghost use Rattle.tao_tree.specs.Nodes.{reach_of};
ghost use Rattle.tao_tree.specs.Forging.{IsForgedPath, has_room, telling, with_answer, with_stored, failed};

use crate::forgeries::{Forgery, forge_path};
use crate::ledger::Ledger;
use crate::planted::Shaped;
use crate::shared::SharedTree;
use std::alloc::Global;
use std::marker::Model;
use std::sync::Wait;
use tao_base::{Failed, Items, Link, NoMemory, Numbers, Order, is_listed};

/// A link to a tree. Its log has the capacity that `reserve` made: a call beyond it isn't logged and fails.
#[derive(Drop)]
pub struct MemLink<'t, J: Shaped> {
    alloc: Global,
    tree: &'t SharedTree<J>,
    ledger: Ledger,
    fails: Numbers,
    calls: u64,
    faults: u64,
    forgeries: Items<Forgery>,
}

impl<'t, J: Shaped> Model for MemLink<'t, J> {
    ghost use Rattle.std.specs.Prelude.{◌≡◌, ◌+◌, ◌*◌};
    ghost use Rattle.tao_base.specs.Limits.{bucket_len};
    ghost use Rattle.tao_tree.specs.Forging.{LinkState, LinksTo};

    ghost Value = { LinkState };

    ghost view = { λ l. record {
      shape = l.tree.now;
      told = l.ledger.told;
      room = l.ledger.calls;
      buckets = l.ledger.buckets;
      fails = l.fails;
      calls = l.calls;
      faults = l.faults;
      forgeries = l.forgeries;
    } };

    ghost invariant = { λ l. LinksTo l.tree.now l.ledger };
}

impl<'t, J: Shaped> MemLink<'t, J> {
    ghost use Rattle.tao_tree.specs.Forging.{new_link};

    /// A link whose calls with the numbers in `fails`, counted from 0, fail. Its log has no capacity yet.
    pub fn new(alloc: Global, tree: &'t SharedTree<J>, fails: Numbers) -> MemLink<'t, J>
        ensures { result ≡ new_link tree.now fails }
    {
        let p = tree.params();
        let len = p.bucket_len() as usize;
        let path_len = (p.l() as usize + 1) * len;
        MemLink {
            alloc,
            tree,
            ledger: Ledger::new(alloc, path_len, len),
            fails,
            calls: 0,
            faults: 0,
            forgeries: Items::new(alloc),
        }
    }

    /// Preallocates the log of so many more calls, each with an answer of one path, and of so many more buckets of stores in all.
    pub fn reserve(&mut self, calls: usize, nodes: usize) -> Result<(), NoMemory>
        ensures ok { OnOk result (self.new ≡ record self.old { room = self.old.room + calls; buckets = self.old.buckets + nodes }) }
        ensures err { OnErr result (self.new ≡ self.old) }
    {
        self.ledger.reserve(self.alloc, calls, nodes)
    }

    /// The same link with these forgeries.
    pub(crate) fn with_forgeries(mut self, forgeries: Items<Forgery>) -> MemLink<'t, J>
        ensures { result ≡ record self.entry { forgeries = forgeries } }
    {
        self.forgeries = forgeries;
        self
    }

    /// From now on byte `at` of the path that answers call number `call` is xored with the mask. The tree isn't touched.
    pub fn forge(&mut self, call: u32, at: u32, mask: u8) -> Result<(), NoMemory>
        ensures ok { OnOk result (self.new ≡ record self.old { forgeries = self.old.forgeries ++ record { call = call; at = at; mask = mask } ∷ [] }) }
        ensures err { OnErr result (self.new ≡ self.old) }
    {
        self.forgeries.push(Forgery { call, at, mask })
    }
}

impl<'t, J: Shaped> Link for MemLink<'t, J> {
    ghost faults = { λ s. s.faults };

    ghost reach = { λ s. reach_of s.shape };

    ghost told = { λ s. Some s.told };

    fn fetch<R: Wait>(&mut self, rt: &R, id: u64, leaf: u32, path: &mut [u8]) -> Result<(), Failed>
        requires leaf { leaf < 2 ^ self.old.shape.l }
        requires path { length path.old ≡ (self.old.shape.l + 1) * bucket_len self.old.shape }
        ensures reach { reach_of self.new.shape ≡ reach_of self.old.shape }
        ensures shape { self.new.shape ≡ self.old.shape }
        ensures told { TellsMore (Some self.old.told) (Some self.new.told) (Fetch id leaf) result (path.new ∷ []) [] }
        ensures cause { HasCause self.old.faults self.new.faults result }
        ensures fails { IsErr result ↔ (Contains self.old.fails self.old.calls ⊎ (has_room self.old 0 ≡ false)) }
        ensures ok { OnOk result (self.new ≡ with_answer (telling self.old (Fetch id leaf) 0) path.new) }
        ensures err { OnErr result (self.new ≡ failed self.old (Fetch id leaf) 0) }
        ensures path_kept { OnErr result (path.new ≡ path.old) }
        ensures answer { OnOk result (IsForgedPath self.old.shape leaf self.old.forgeries self.old.calls path.new) }
    {
        let call = self.calls;
        self.calls = call.saturating_add(1);
        if !self.ledger.has_room(0) {
            self.faults = self.faults.saturating_add(1);
            return Err(Failed);
        }
        if is_listed(self.fails.as_slice(), call) {
            self.ledger.add_failed_fetch(id, leaf);
            self.faults = self.faults.saturating_add(1);
            return Err(Failed);
        }
        self.tree.fetch_path(rt, leaf, path);
        forge_path(self.forgeries.as_slice(), call, path);
        self.ledger.add_fetch(id, leaf, path);
        Ok(())
    }

    fn store<R: Wait>(&mut self, rt: &R, order: &Order) -> Result<(), Failed>
        requires { IsSendable (reach_of self.old.shape) order.now }
        ensures reach { reach_of self.new.shape ≡ reach_of self.old.shape }
        ensures shape { self.new.shape ≡ self.old.shape }
        ensures told { TellsMore (Some self.old.told) (Some self.new.told) (asked_of order.now) result [] (order.now.version ∷ []) }
        ensures cause { HasCause self.old.faults self.new.faults result }
        ensures fails { IsErr result ↔ (Contains self.old.fails self.old.calls ⊎ (has_room self.old (length order.now.nodes) ≡ false)) }
        ensures ok { OnOk result (self.new ≡ with_stored (telling self.old (asked_of order.now) (length order.now.nodes)) order.now.version) }
        ensures err { OnErr result (self.new ≡ failed self.old (asked_of order.now) (length order.now.nodes)) }
    {
        let call = self.calls;
        self.calls = call.saturating_add(1);
        if !self.ledger.has_room(order.nodes.as_slice().len()) {
            self.faults = self.faults.saturating_add(1);
            return Err(Failed);
        }
        if is_listed(self.fails.as_slice(), call) {
            self.ledger.add_failed_store(order);
            self.faults = self.faults.saturating_add(1);
            return Err(Failed);
        }
        self.tree
            .store_all(rt, order.version, order.image.as_slice());
        self.ledger.add_store(order);
        Ok(())
    }
}
