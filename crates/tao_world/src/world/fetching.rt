//! Moves of fetches: operations arrive, buckets are read from the tree, and whole paths reach the desk.
ghost use Rattle.std.specs.Prelude.{◌≡◌, ℕ, ◌+◌, ◌*◌, ◌^◌, ◌<◌, ◌≤◌, ◌⊎◌, ◌∷◌, ◌++◌, true, false, List, length, reverse, slice_set, Some, None, not, IfSome, ◌==◌, IsSome, IfOk, IfErr, OnOk, OnErr};
ghost use Rattle.tao_base.specs.Limits.{bucket_len, session_limit};
ghost use Rattle.tao_base.specs.Links.{FitsLinks, order_limit};
ghost use Rattle.tao_base.specs.Tree.{node_at};
ghost use Rattle.tao_desk.specs.declared.faults.ArriveFault.TheVariants.{SessionFull, Memory};
ghost use Rattle.tao_desk.specs.Sound.{IsSound};
ghost use Rattle.tao_desk.specs.State.{SameStore};
ghost use Rattle.tao_images.specs.Answers.{AddsDone, IsAnswered};
ghost use Rattle.tao_model.specs.Events.{has_fault, is_under_way};
ghost use Rattle.tao_model.specs.Lawful.{IsInRange};
ghost use Rattle.tao_schedule.specs.Moves.{Move, Arrives, Serves, Completes};
ghost use Rattle.tao_tape.specs.Tapes.{either_word};
ghost use Rattle.tao_tree.specs.Nodes.{bytes_at};
ghost use Rattle.tao_world.specs.Changes.{with_bucket};
ghost use Rattle.tao_world.specs.Moving.{reading_of, fetch_at, node_of, HasRoom, IsToRead, with_read, HasServed, read_move, reads_above, HasReadAbove, HasCompleted, IsFull, HasNewFetch, next_word, words_left};
ghost use Rattle.tao_world.specs.State.{is_set_at, row_at};
ghost use Rattle.tao_world.specs.World.{IsLeftBy};

use crate::requests::{Fetch, PathRoom};
use crate::world::World;
use crate::world::storing::add_store;
use std::mem;
use tao_base::{NoMemory, Op, Order, Params};
use tao_desk::{ArriveFault, Desk};
use tao_tape::ScriptTape;
use tao_tree::Tree;

impl World {
    /// An operation arrives with the next word of the tape.
    pub(crate) fn arrive(&mut self, client: u32, op: Op) -> Result<(), ArriveFault>
        requires client { client < 64 }
        requires range { IsInRange self.old.desk.history.opening.shape op }
        requires word { 0 < words_left self.old }
        ensures changed { OnOk result (HasNewFetch client op self.old self.new) }
        ensures left { OnOk result ((ms : List Move) → IsLeftBy ms self.old → IsLeftBy (Arrives client op (next_word self.old) ∷ ms) self.new) }
        ensures fault { IfErr result (λ fault. ((fault ≡ SessionFull) × IsFull self.old) ⊎ ((fault ≡ Memory) × ¬ IsFull self.old)) }
        ensures err { OnErr result (self.new ≡ self.old) }
    {
        if self.fetches.len() >= self.desk.params().session_limit() as usize {
            return Err(ArriveFault::SessionFull);
        }
        if self.fetches.reserve(1).is_err() {
            return Err(ArriveFault::Memory);
        }
        let ask = self.desk.arrive(client, op)?;
        self.fetches
            .push_reserved(Some(Fetch::new(self.alloc, ask)));
        Ok(())
    }

    /// Reads the bucket at depth `d` of a fetch's path from the tree.
    pub(crate) fn serve(&mut self, i: usize, d: u32) -> Result<(), NoMemory>
        requires fetch { IsSome (row_at self.old.fetches i) }
        requires depth { d ≤ self.old.desk.history.opening.shape.l }
        requires unread { is_set_at (fetch_at self.old i).read d ≡ false }
        ensures changed { OnOk result (HasServed i d self.old self.new) }
        ensures left { OnOk result ((ms : List Move) → IsLeftBy ms self.old → IsLeftBy (Serves i (node_of self.old i d) ∷ ms) self.new) }
        ensures err { OnErr result (self.new ≡ self.old) }
    {
        self.give_room(i)?;
        self.read_bucket(i, d);
        Ok(())
    }

    /// Hands a path that was read whole to the desk. If a write-back comes out, its store is the last, and its version is told.
    pub(crate) fn complete(&mut self, i: usize) -> Result<Option<u32>, NoMemory>
        requires fetch { IsSome (row_at self.old.fetches i) }
        requires whole { (d : ℕ) → d ≤ self.old.desk.history.opening.shape.l → is_set_at (fetch_at self.old i).read d ≡ true }
        ensures changed { IfOk result (λ version. HasCompleted i version self.old self.new) }
        ensures left { OnOk result ((ms : List Move) → IsLeftBy ms self.old → IsLeftBy (Completes i ∷ ms) self.new) }
        ensures err { OnErr result (self.new ≡ self.old) }
    {
        self.stores.reserve(1)?;
        let flags = vec![in self.alloc; false; most_nodes(self.desk.params())]?;
        let fetch = take_fetch(&mut self.fetches, i);
        let (order, room) = admit(&mut self.desk, fetch);
        self.spare = room;
        Ok(add_store(&mut self.stores, order, flags))
    }

    /// Reads all buckets of a fetch's path that weren't read, root first.
    pub(crate) fn serve_rest(&mut self, i: usize) -> Result<(), NoMemory>
        requires { IsSome (row_at self.old.fetches i) }
        ensures changed { OnOk result (HasReadAbove i (self.old.desk.history.opening.shape.l + 1) self.old self.new) }
        ensures left { OnOk result ((ms : List Move) → IsLeftBy ms self.old → IsLeftBy (reverse (reads_above self.old i (self.old.desk.history.opening.shape.l + 1)) ++ ms) self.new) }
        ensures err { OnErr result (self.new ≡ self.old) }
    {
        self.give_room(i)?;
        self.read_rest(i);
        Ok(())
    }

    // Reads them into the room that is there.
    fn read_rest(&mut self, i: usize)
        requires fetch { IsSome (row_at self.old.fetches i) }
        requires room { length (fetch_at self.old i).read ≡ self.old.desk.history.opening.shape.l + 1 }
        ensures changed { HasReadAbove i (self.old.desk.history.opening.shape.l + 1) self.old self.new }
        ensures left { (ms : List Move) → IsLeftBy ms self.old → IsLeftBy (reverse (reads_above self.old i (self.old.desk.history.opening.shape.l + 1)) ++ ms) self.new }
    {
        let depths = self.desk.params().l() + 1;
        for d in 0..depths {
            self.read_unread(i, d);
        }
    }

    // Reads the bucket into the room that is there, unless it was read.
    fn read_unread(&mut self, i: usize, d: u32)
        requires fetch { IsSome (row_at self.old.fetches i) }
        requires depth { d ≤ self.old.desk.history.opening.shape.l }
        requires room { length (fetch_at self.old i).read ≡ self.old.desk.history.opening.shape.l + 1 }
        ensures changed { HasServed i d self.old self.new }
        ensures room { length (fetch_at self.new i).read ≡ self.old.desk.history.opening.shape.l + 1 }
        ensures left { (ms : List Move) → IsLeftBy ms self.old → IsLeftBy (read_move self.old i d ++ ms) self.new }
    {
        if is_read(&self.fetches, i, d) {
            return;
        }
        self.read_bucket(i, d);
    }

    // Gives a fetch room for its path, if it has none.
    fn give_room(&mut self, i: usize) -> Result<(), NoMemory>
        requires { IsSome (row_at self.old.fetches i) }
        ensures changed { OnOk result (HasRoom i self.old self.new) }
        ensures left { OnOk result ((ms : List Move) → IsLeftBy ms self.old → IsLeftBy ms self.new) }
        ensures err { OnErr result (self.new ≡ self.old) }
    {
        if has_room(&self.fetches, i) {
            return Ok(());
        }
        let p = self.desk.params();
        let room = self.spare.take_or_new(self.alloc, p)?;
        set_room(&mut self.fetches, i, room);
        Ok(())
    }

    // Reads the bucket into the room that is there.
    fn read_bucket(&mut self, i: usize, d: u32)
        requires { IsToRead self.old i d }
        ensures state { self.new ≡ with_read self.old i d }
        ensures left { (ms : List Move) → IsLeftBy ms self.old → IsLeftBy (Serves i (node_of self.old i d) ∷ ms) self.new }
    {
        read_row(&self.tree, &mut self.fetches, i, d);
    }
}

// Whether a fetch has room for its path.
fn has_room(fetches: &[Option<Fetch>], i: usize) -> bool
    requires { IsSome (row_at fetches.now i) }
    ensures { result ≡ not (length (reading_of (row_at fetches.now i)).read == 0) }
{
    let Some(fetch) = &fetches[i] else {
        unreachable!()
    };
    !fetch.room.is_none()
}

// Whether the bucket at depth `d` of a fetch's path was read.
fn is_read(fetches: &[Option<Fetch>], i: usize, d: u32) -> bool
    requires { IsSome (row_at fetches.now i) }
    ensures { result ≡ is_set_at (reading_of (row_at fetches.now i)).read d }
{
    let Some(fetch) = &fetches[i] else {
        unreachable!()
    };
    fetch.is_read(d)
}

// Gives a fetch this room.
fn set_room(fetches: &mut [Option<Fetch>], i: usize, room: PathRoom)
    requires { IsSome (row_at fetches.old i) }
    ensures { fetches.new ≡ slice_set fetches.old i (Some (record (reading_of (row_at fetches.old i)) { read = room.read; bytes = room.bytes })) }
{
    let Some(fetch) = &mut fetches[i] else {
        unreachable!()
    };
    fetch.room = room;
}

// Reads the bucket at depth `d` of a fetch's path from the tree.
fn read_row(tree: &Tree, fetches: &mut [Option<Fetch>], i: usize, d: u32)
    requires fetch { IsSome (row_at fetches.old i) }
    requires leaf { (reading_of (row_at fetches.old i)).leaf < 2 ^ tree.now.shape.l }
    requires depth { d ≤ tree.now.shape.l }
    requires flags { length (reading_of (row_at fetches.old i)).read ≡ tree.now.shape.l + 1 }
    requires bytes { length (reading_of (row_at fetches.old i)).bytes ≡ (tree.now.shape.l + 1) * bucket_len tree.now.shape }
    ensures { fetches.new ≡ slice_set fetches.old i (Some (with_bucket tree.now.shape (reading_of (row_at fetches.old i)) d (bytes_at tree.now (node_at tree.now.shape.l (reading_of (row_at fetches.old i)).leaf d)))) }
{
    let Some(fetch) = &mut fetches[i] else {
        unreachable!()
    };
    fetch.read_from(tree, d);
}

// The most nodes that an order may have.
fn most_nodes(p: &Params) -> usize
    ensures { result ≡ order_limit p.now }
{
    let periods = (p.k() * (p.l() + 1)).max(256);
    p.nodes().min(periods) as usize
}

// Takes a fetch out of its row.
fn take_fetch(fetches: &mut [Option<Fetch>], i: usize) -> Fetch
    requires { IsSome (row_at fetches.old i) }
    ensures fetch { row_at fetches.old i ≡ Some result }
    ensures rows { fetches.new ≡ slice_set fetches.old i None }
{
    let Some(fetch) = mem::replace(&mut fetches[i], None) else {
        unreachable!()
    };
    fetch
}

// Hands a path to the desk, which doesn't refuse it, and gives its room back.
fn admit(desk: &mut Desk<ScriptTape>, fetch: Fetch) -> (Option<Order>, PathRoom)
    requires path { length fetch.bytes ≡ (desk.old.history.opening.shape.l + 1) * bucket_len desk.old.history.opening.shape }
    requires up { has_fault (reverse desk.old.history.events) ≡ false }
    requires under_way { is_under_way (reverse desk.old.history.events) fetch.arrival ≡ true }
    requires answered { IsAnswered desk.old.key desk.old.history fetch.arrival fetch.bytes }
    ensures done { AddsDone desk.old.key desk.old.history desk.new.history fetch.arrival fetch.bytes result.0 }
    ensures fits { IfSome result.0 (FitsLinks desk.old.history.opening.shape) }
    ensures store { SameStore desk.old desk.new }
    ensures sound { IsSound either_word desk.new }
    ensures room { result.1 ≡ record { read = fetch.read; bytes = fetch.bytes } }
{
    let Fetch { ask, room } = fetch;
    let Ok(order) = desk.done(ask, &room.bytes) else {
        unreachable!()
    };
    (order, room)
}
