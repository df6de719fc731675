//! The way to the server.
ghost use Rattle.std.specs.Prelude.{◌≡◌, ℕ, ◌+◌, ◌*◌, ◌^◌, ◌<◌, ◌≤◌, List, [], ◌∷◌, length, Option, OnErr};
ghost use Rattle.tao_base.specs.Causes.{HasCause};
ghost use Rattle.tao_base.specs.declared.links.Asked.TheVariants.{Fetch};
ghost use Rattle.tao_base.specs.Links.{Reach, Told, TellsMore, IsSendable, asked_of};

use crate::failures::Failed;
use crate::lists::{Image, Numbers};
use crate::storage::Order;
use std::sync::Wait;

/// What a link was asked.
#[derive(Debug, Drop)]
pub enum Asked {
    Fetch {
        id: u64,
        leaf: u32,
    },
    Store {
        version: u32,
        nonce: u64,
        nodes: Numbers,
        image: Image,
    },
}

/// A link to the server that keeps the tree. It may fail at any call, and may wait.
pub trait Link {
    /// How many calls have failed.
    ghost faults: { Self → ℕ };

    /// The tree that it leads to. No call changes it.
    ghost reach: { Self → Reach };

    /// What it was asked and what came of it, where it tells that.
    ghost told: { Self → Option Told };

    /// Fills `path` with the buckets from the root to the leaf. A failed fetch leaves it as it was.
    fn fetch<R: Wait>(&mut self, rt: &R, id: u64, leaf: u32, path: &mut [u8]) -> Result<(), Failed>
        requires leaf { leaf < 2 ^ (reach self.old).height }
        requires path { length path.old ≡ ((reach self.old).height + 1) * (reach self.old).bucket_len }
        ensures reach { reach self.new ≡ reach self.old }
        ensures told { TellsMore (told self.old) (told self.new) (Fetch id leaf) result (path.new ∷ []) [] }
        ensures path_kept { OnErr result (path.new ≡ path.old) }
        ensures cause { HasCause (faults self.old) (faults self.new) result };

    /// Sends all buckets of the order and waits for the acknowledgement.
    fn store<R: Wait>(&mut self, rt: &R, order: &Order) -> Result<(), Failed>
        requires { IsSendable (reach self.old) order.now }
        ensures reach { reach self.new ≡ reach self.old }
        ensures told { TellsMore (told self.old) (told self.new) (asked_of order.now) result [] (order.now.version ∷ []) }
        ensures cause { HasCause (faults self.old) (faults self.new) result };
}

impl<L: Link> Link for &mut L {
    ghost faults = { λ l. L.faults l.now };

    ghost reach = { λ l. L.reach l.now };

    ghost told = { λ l. L.told l.now };

    fn fetch<R: Wait>(
        &mut self,
        rt: &R,
        id: u64,
        leaf: u32,
        path: &mut [u8],
    ) -> Result<(), Failed> {
        (**self).fetch(rt, id, leaf, path)
    }

    fn store<R: Wait>(&mut self, rt: &R, order: &Order) -> Result<(), Failed> {
        (**self).store(rt, order)
    }
}
