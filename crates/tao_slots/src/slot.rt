//! A slot: the bucket of a node, the links to the slots of its neighbours, and its places on the lists of loose and of free slots.
ghost use Rattle.std.specs.Prelude.{◌≡◌, ◌^◌, ◌<◌};

use std::marker::Model;
use tao_base::Bucket;

/// Names a slot. It stays the slot of its node until the node is removed.
#[derive(Clone, Copy, Debug, PartialEq, Eq)]
pub struct SlotId {
    index: u32,
}

impl Model for SlotId {
    ghost use Rattle.std.specs.Prelude.{ℕ};

    ghost Value = { ℕ };

    ghost view = { λ id. id.index };

    ghost inverse = { λ n. record { index = n } };
}

impl SlotId {
    pub(crate) fn new(place: u32) -> SlotId
        ensures { result ≡ place }
    {
        SlotId { index: place }
    }

    // Its place in the vector of slots.
    pub(crate) fn place(self) -> u32
        ensures { result ≡ self }
    {
        self.index
    }
}

/// The slots of the node's parent and of its two children, each where it is held.
#[derive(Clone, Copy, Debug)]
pub(crate) struct Links {
    pub parent: Option<u32>,
    pub left: Option<u32>,
    pub right: Option<u32>,
}

#[derive(Debug, Drop)]
pub(crate) struct Slot {
    // None where the slot is free
    pub bucket: Option<Bucket>,
    pub links: Links,
    // the neighbours on the list of loose slots, where the slot is loose
    pub before: Option<u32>,
    pub after: Option<u32>,
    // the next free slot, where this one is free
    pub next: Option<u32>,
}

impl Slot {
    ghost use Rattle.std.specs.Prelude.{None};
    ghost use Rattle.tao_slots.specs.Columns.{no_links};

    /// A free slot.
    pub(crate) fn free(next: Option<u32>) -> Slot
        ensures bucket { result.bucket ≡ None }
        ensures links { result.links ≡ no_links }
        ensures next { result.next ≡ next }
    {
        Slot {
            bucket: None,
            links: Links {
                parent: None,
                left: None,
                right: None,
            },
            before: None,
            after: None,
            next,
        }
    }
}
