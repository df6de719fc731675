//! The player of a schedule.
ghost use Rattle.std.specs.Prelude.{◌≡◌, [], IfOk};
ghost use Rattle.tao_desk.specs.Calls.{IsStarted};
ghost use Rattle.tao_desk.specs.Sound.{IsSound};
ghost use Rattle.tao_tape.specs.Tapes.{either_word};
ghost use Rattle.tao_world.specs.Opening.{CanStart, first_blocks as first_values, source_of};
ghost use Rattle.tao_world.specs.World.{IsOpened, IsLeftBy, IsInStep};

use crate::loading::loaded_tree;
use crate::opening::{first_blocks, tape_of};
use crate::requests::{Fetch, PathRoom, Store};
use std::alloc::Global;
use std::marker::Model;
use tao_base::NoMemory;
use tao_desk::{Desk, StartFault};
use tao_record::Record;
use tao_tape::ScriptTape;
use tao_text::Script;
use tao_tree::Tree;

mod fetching;
mod placing;
mod storing;

/// A desk and its server, and the requests under way between them. It opens a session, and plays no step yet.
#[derive(Drop)]
pub struct World {
    alloc: Global,
    desk: Desk<ScriptTape>,
    tree: Tree,
    fetches: Vec<Option<Fetch>>,
    stores: Vec<Option<Store>>,
    spare: PathRoom,
}

impl Model for World {
    ghost use Rattle.tao_world.specs.World.{WorldState, IsWorld};

    ghost Value = { WorldState };

    ghost view = { λ w. record { desk = w.desk; tree = w.tree; fetches = w.fetches.items; stores = w.stores.items } };

    ghost invariant = { λ w. IsWorld (record { desk = w.desk; tree = w.tree; fetches = w.fetches.items; stores = w.stores.items }) w.spare };
}

impl World {
    /// Opens a session on a tree that has the load.
    pub fn start(alloc: Global, script: &Script) -> Result<World, NoMemory>
        requires { CanStart script.now }
        ensures opened { IfOk result (λ world. IsOpened script.now world) }
        ensures left { IfOk result (λ world. IsLeftBy [] world) }
        ensures in_step { IfOk result (λ world. IsInStep world) }
        ensures sound { IfOk result (λ world. IsSound either_word world.desk) }
    {
        let desk = opened_desk(alloc, script)?;
        let tree = loaded_tree(alloc, &desk)?;
        let mut stores = Vec::with_capacity(alloc, 1)?;
        stores.push_reserved(None);
        let _sound = desk.history();
        Ok(World {
            alloc,
            desk,
            tree,
            fetches: Vec::new(alloc),
            stores,
            spare: PathRoom::none(alloc),
        })
    }

    /// The record of the session.
    pub fn history(&self) -> &Record
        ensures value { result.now.history ≡ self.now.desk.history }
        ensures in_step { IsInStep self.now }
        ensures sound { IsSound either_word self.now.desk }
    {
        self.desk.history()
    }

    /// Ends the session, and gives its record and the tree as they are: whatever is under way stays so.
    pub fn stop(self) -> (Record, Tree)
        ensures record_is { result.0.history ≡ self.desk.history }
        ensures tree_is { result.1 ≡ self.tree }
        ensures in_step { IsInStep self }
        ensures sound { IsSound either_word self.desk }
    {
        (self.desk.into_history(), self.tree)
    }
}

// A desk with the script's first values and tape.
fn opened_desk(alloc: Global, script: &Script) -> Result<Desk<ScriptTape>, NoMemory>
    requires { CanStart script.now }
    ensures started { IfOk result (λ desk. IsStarted either_word (source_of script.now) script.now.params script.now.key (first_values script.now.params.n script.now.params.b script.now.loads) desk) }
    ensures sound { IfOk result (λ desk. IsSound either_word desk) }
{
    let blocks = first_blocks(alloc, &script.params, script.loads.as_slice())?;
    let tape = tape_of(alloc, script)?;
    match Desk::start(alloc, script.params, script.key, tape, blocks) {
        Ok(desk) => Ok(desk),
        Err(StartFault::Memory) => Err(NoMemory),
        Err(StartFault::BlockCount) => unreachable!(),
        Err(StartFault::BlockLength) => unreachable!(),
    }
}
