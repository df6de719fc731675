//! Doors in memory, whose links lead to a tree and whose streams are given beforehand.
ghost use Rattle.std.specs.Prelude.{◌≡◌, ◌↔◌, ◌<◌, [], ◌∷◌, ◌++◌, Some, IfOk, IsSome, OnOk, OnErr, IsErr, IsTrue, Contains};
ghost use Rattle.std.specs.Option.{option_copied};
ghost use Rattle.std.specs.Result.{result_err};
ghost use Rattle.tao_base.specs.Causes.{HasCause, one_more};
ghost use Rattle.tao_base.specs.Doors.{HasDoorCause, IsNewLink, AnswersFirst, after_dial, after_accept, after_hang_up, after_give_back};
ghost use Rattle.tao_base.specs.declared.doors.DoorFault.TheVariants.{Failed as DoorFailed};
ghost use Rattle.tao_tree.specs.Doors.{handed_by, sink_at, under, first_under, leads_to, link_of, CannotDial};
ghost use Rattle.tao_tree.specs.Nodes.{reach_of};

use crate::forgeries::Forgery;
use crate::mem_link::MemLink;
use crate::planted::Shaped;
use crate::rack::{Rack, Streams};
use crate::shared::SharedTree;
use std::alloc::Global;
use std::marker::Model;
use tao_base::{ByteSink, ByteSource, DoorFault, Doors, Failed, Items, NoMemory, Params};

/// Which calls fail: (link, call) for call number `call` of that link; (link, 4294967295) for its dialling; (300, n) and (301, n) for
/// calls number n of `listen` and `accept`. Calls are counted from 0.
pub type FailTable = Items<(u32, u32)>;

const DIALLING: u64 = 4_294_967_295;

const LISTEN: u32 = 300;

const ACCEPT: u32 = 301;

/// Doors to a tree behind a lock, at any address. They tell all that they are given back.
#[derive(Drop)]
pub struct MemDoors<'t, J: Shaped> {
    tree: &'t SharedTree<J>,
    rack: Rack,
    // has capacity for the links that are out
    hung: Vec<(u32, MemLink<'t, J>)>,
    out: usize,
    fails: FailTable,
    forgeries: Items<(u32, Forgery)>,
    calls: usize,
    nodes: usize,
    listens: u64,
    accepts: u64,
    faults: u64,
}

impl<'t, J: Shaped> Model for MemDoors<'t, J> {
    ghost use Rattle.std.specs.Prelude.{◌≤◌, ◌+◌, vec_len, vec_capacity};
    ghost use Rattle.tao_tree.specs.Doors.{DoorsState};

    ghost Value = { DoorsState };

    ghost view = { λ d. record {
      shape = d.tree.now;
      links_out = d.out;
      hung = d.hung.items;
      rack = d.rack;
      fails = d.fails;
      forgeries = d.forgeries;
      calls = d.calls;
      nodes = d.nodes;
      listens = d.listens;
      accepts = d.accepts;
      faults = d.faults;
    } };

    ghost invariant = { λ d. vec_len d.hung + d.out ≤ vec_capacity d.hung };
}

impl<'t, J: Shaped> MemDoors<'t, J> {
    ghost use Rattle.tao_tree.specs.Doors.{new_doors};

    /// Doors to this tree, where these streams wait. A link is dialled with capacity for so many calls, and so many buckets of stores.
    pub fn new(
        alloc: Global,
        tree: &'t SharedTree<J>,
        streams: Streams,
        fails: FailTable,
        calls: usize,
        nodes: usize,
    ) -> MemDoors<'t, J>
        ensures { result ≡ new_doors tree.now streams fails calls nodes }
    {
        MemDoors {
            tree,
            rack: Rack::new(alloc, streams),
            hung: Vec::new(alloc),
            out: 0,
            fails,
            forgeries: Items::new(alloc),
            calls,
            nodes,
            listens: 0,
            accepts: 0,
            faults: 0,
        }
    }

    /// Forges the answer of a call of the link that is dialled under this number later, as `MemLink::forge` does.
    pub fn forge(&mut self, link: u32, call: u32, at: u32, mask: u8) -> Result<(), NoMemory>
        ensures ok { OnOk result (self.new ≡ record self.old { forgeries = self.old.forgeries ++ (link, record { call = call; at = at; mask = mask }) ∷ [] }) }
        ensures err { OnErr result (self.new ≡ self.old) }
    {
        self.forgeries.push((link, Forgery { call, at, mask }))
    }

    /// The first link that was hung up under this number.
    pub fn link(&self, link: u32) -> Option<&MemLink<'t, J>>
        ensures { option_copied result ≡ first_under link self.now.hung }
    {
        first_under(&self.hung, link)
    }

    /// The sink of the stream that was given back as the connection of this number.
    pub fn back(&self, number: u32) -> Option<&ByteSink>
        ensures sink { option_copied result ≡ sink_at self.now.rack number }
        ensures some { IsSome result ↔ number < self.now.rack.returned }
    {
        self.rack.back(number as usize)
    }

    // Whether no link of this number is dialled for these parameters.
    fn refuses(&self, p: &Params, link: u32) -> bool
        ensures { IsTrue result ↔ CannotDial self.now p.now link }
    {
        has_call(self.fails.as_slice(), link, DIALLING) || !leads_to(self.tree.params(), p)
    }

    // The link to be dialled under this number.
    fn make_link(&self, alloc: Global, link: u32) -> Result<MemLink<'t, J>, NoMemory>
        ensures { IfOk result (λ near. near ≡ link_of self.now link) }
    {
        let fails = under(alloc, self.fails.as_slice(), link)?;
        let forgeries = under(alloc, self.forgeries.as_slice(), link)?;
        let mut near = MemLink::new(alloc, self.tree, fails).with_forgeries(forgeries);
        near.reserve(self.calls, self.nodes)?;
        Ok(near)
    }
}

impl<'t, J: Shaped + Send + Sync> Doors for MemDoors<'t, J> {
    type Near = MemLink<'t, J>;

    type Stream = (ByteSource, ByteSink);

    ghost faults = { λ d. d.faults };

    ghost handed = { handed_by };

    fn dial(
        &mut self,
        alloc: Global,
        p: &Params,
        _address: &str,
        link: u32,
    ) -> Result<MemLink<'t, J>, DoorFault>
        ensures cause { HasDoorCause self.old.faults self.new.faults result }
        ensures near { IfOk result (IsNewLink (λ near. reach_of near.shape) (λ near. near.faults) (λ near. Some near.told) p.now) }
        ensures handed { handed_by self.new ≡ after_dial (handed_by self.old) result }
        ensures fails { result_err result ≡ Some DoorFailed ↔ CannotDial self.old p.now link }
        ensures link { IfOk result (λ near. near ≡ link_of self.old link) }
        ensures rest { self.new ≡ record self.old { links_out = self.new.links_out; faults = self.new.faults } }
    {
        if self.refuses(p, link) {
            self.faults = self.faults.saturating_add(1);
            return Err(DoorFault::Failed);
        }
        let Ok(near) = self.make_link(alloc, link) else {
            return Err(DoorFault::Memory);
        };
        let Some(out) = self.out.checked_add(1) else {
            return Err(DoorFault::Memory);
        };
        if self.hung.reserve(out).is_err() {
            return Err(DoorFault::Memory);
        }
        self.out = out;
        Ok(near)
    }

    fn listen(&mut self, _address: &str) -> Result<(), Failed>
        ensures cause { HasCause self.old.faults self.new.faults result }
        ensures handed { handed_by self.new ≡ handed_by self.old }
        ensures fails { IsErr result ↔ Contains self.old.fails (300, self.old.listens) }
        ensures rest { self.new ≡ record self.old { listens = one_more self.old.listens; faults = self.new.faults } }
    {
        let call = self.listens;
        self.listens = call.saturating_add(1);
        if has_call(self.fails.as_slice(), LISTEN, call) {
            self.faults = self.faults.saturating_add(1);
            return Err(Failed);
        }
        Ok(())
    }

    fn accept(&mut self) -> Result<Option<(ByteSource, ByteSink)>, Failed>
        ensures cause { HasCause self.old.faults self.new.faults result }
        ensures first { AnswersFirst (handed_by self.old).waiting result }
        ensures handed { handed_by self.new ≡ after_accept (handed_by self.old) result }
        ensures fails { IsErr result ↔ Contains self.old.fails (301, self.old.accepts) }
        ensures rest { self.new ≡ record self.old { rack = self.new.rack; accepts = one_more self.old.accepts; faults = self.new.faults } }
    {
        let call = self.accepts;
        self.accepts = call.saturating_add(1);
        if has_call(self.fails.as_slice(), ACCEPT, call) {
            self.faults = self.faults.saturating_add(1);
            return Err(Failed);
        }
        Ok(self.rack.take_next())
    }

    fn hang_up(&mut self, link: u32, near: MemLink<'t, J>)
        requires { 0 < self.old.links_out }
        ensures faults { self.new.faults ≡ self.old.faults }
        ensures handed { handed_by self.new ≡ after_hang_up (handed_by self.old) link near.entry }
        ensures rest { self.new ≡ record self.old { links_out = self.new.links_out; hung = self.new.hung } }
    {
        self.out -= 1;
        self.hung.push_reserved((link, near));
    }

    fn give_back(&mut self, number: u32, stream: (ByteSource, ByteSink))
        requires next { number ≡ self.old.rack.returned }
        requires out { self.old.rack.returned < self.old.rack.accepted }
        ensures faults { self.new.faults ≡ self.old.faults }
        ensures handed { handed_by self.new ≡ after_give_back (handed_by self.old) stream }
        ensures rest { self.new ≡ record self.old { rack = self.new.rack } }
    {
        self.rack.put_back(stream);
    }
}

// Whether a call is listed as failing.
fn has_call(fails: &[(u32, u32)], link: u32, call: u64) -> bool
    ensures { IsTrue result ↔ Contains fails.now (link, call) }
{
    fails.iter().any(|e| e.0 == link && u64::from(e.1) == call)
}

// Whether a tree for these parameters has the nodes and the bucket length that are wanted.
fn leads_to(tree: &Params, wanted: &Params) -> bool
    ensures { result ≡ leads_to tree.now wanted.now }
{
    tree.nodes() == wanted.nodes() && tree.bucket_len() == wanted.bucket_len()
}

// What stands in the table under this number.
fn under<T: Copy>(alloc: Global, table: &[(u32, T)], number: u32) -> Result<Items<T>, NoMemory>
    ensures { IfOk result (λ items. items ≡ under number table.now) }
{
    let mut items = Items::new(alloc);
    for e in table {
        if e.0 == number {
            items.push(e.1)?;
        }
    }
    Ok(items)
}

// The first that stands in the table under this number.
fn first_under<T>(table: &[(u32, T)], number: u32) -> Option<&T>
    ensures { option_copied result ≡ first_under number table.now }
{
    match table.iter().find(|e| e.0 == number) {
        Some(e) => Some(&e.1),
        None => None,
    }
}
