//! Slots of a tree of height 15, in which nodes are found.
ghost use Rattle.std.specs.Prelude.{◌≡◌, ◌<◌};

use std::alloc::Global;
use tao_base::{Bucket, Entries, NoMemory, Params};
use tao_slots::Slots;

const FINDS: u32 = 50_000_000;

/// Holds this many nodes, from the root on, and finds held nodes in a scattered order; then again without the root.
pub(crate) fn checksum(alloc: Global, count: u32) -> Result<u64, anyhow::Error> {
    let p = Params::new(15, 1, 4, 1, 1)?;
    let mut slots = Slots::with_room(alloc, &p, count as usize)?;
    hold(alloc, &p, &mut slots, count)?;
    let with_root = found(&slots, count);
    if let Some(root) = slots.find(1) {
        slots.remove(root);
    }
    Ok(
        with_root
            .wrapping_mul(31)
            .wrapping_add(found(&slots, count)),
    )
}

// Holds the first nodes, as many as the tree has at most.
fn hold(alloc: Global, p: &Params, slots: &mut Slots, count: u32) -> Result<(), NoMemory>
    requires { slots.old.shape ≡ p.now }
{
    for node in 1..p.nodes().min(count) + 1 {
        slots.reserve(1)?;
        if slots.find(node).is_none() {
            slots.insert(Bucket {
                node,
                version: 0,
                nonce: 0,
                entries: Entries::new(alloc)?,
            });
        }
    }
    Ok(())
}

// How many of the finds, over the numbers below `count`, found a slot.
fn found(slots: &Slots, count: u32) -> u64 {
    let mut word = 1u32;
    let mut found = 0u64;
    for _ in 0..FINDS {
        word = word.wrapping_mul(1_664_525).wrapping_add(1_013_904_223);
        let node = (u64::from(word) * u64::from(count)) >> 32;
        if slots.find(node as u32).is_some() {
            found = found.wrapping_add(1);
        }
    }
    found
}
