//! What a script says.
ghost use Rattle.std.specs.Prelude.{Some, codes};

use std::fmt;
use tao_base::{Entries, Image, Items, Numbers, Op, Ops, Params};

/// A store and what is done with it: its parameters, the key of its tape, the tape's words if the text lists them in place of the key's,
/// the first values of blocks by rising ids, and the steps.
#[derive(Drop)]
pub struct Script {
    pub params: Params,
    /// The line number of `tree`, counted from 1.
    pub tree_line: u32,
    /// The line number of `form`, if there is one.
    pub form_line: Option<u32>,
    pub key: [u8; 32],
    /// Whether to seal the session when it ends. No script asks for it.
    pub seal: bool,
    /// A sealed state to reopen. No script has one.
    pub reopen: Option<Image>,
    pub tape: Option<Numbers>,
    pub loads: Entries,
    pub steps: Steps,
}

/// One step of a script, with the number of its line, counted from 1.
#[derive(Debug, Drop)]
pub struct Step {
    pub line: u32,
    pub what: What,
}

pub type Steps = Items<Step>;

/// What happens in one step.
#[derive(Debug, Drop)]
pub enum What {
    /// An arrival of this client's operation and all that follows: its reads, its path admitted, and if it issues a write-back, all puts
    /// and the acknowledgement.
    Do(u32, Op),
    /// An arrival of this client's operation.
    A(u32, Op),
    /// For this fetch the server reads all buckets not yet read, root first, or the one at a depth.
    Read(u64, Option<u32>),
    /// The whole path of this fetch reaches the proxy.
    Done(u64),
    /// The server stores all buckets of this write-back that it hasn't stored yet, by rising nodes, or the one of a node.
    Put(u32, Option<u32>),
    /// The acknowledgement of this write-back reaches the proxy.
    Ack(u32),
}

/// The input of `twin`: a script, and what the second play loads and does on its schedule, one operation for each arrival of the script.
#[derive(Debug, Drop)]
pub struct Twins {
    pub first: Script,
    pub loads: Entries,
    pub ops: Ops,
}

// The key is not shown.
impl fmt::Debug for Script {
    ghost debug_output = { λ _. Some (codes "Script { .. }") };

    fn fmt<W: fmt::Write>(&self, f: &mut fmt::Formatter<W>) -> fmt::Result {
        f.write_str("Script { .. }")
    }
}
