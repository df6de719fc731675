//! A preallocated room for one bucket. Only `new` has an answer for out of memory.
ghost use Rattle.std.specs.Prelude.{◌≡◌, ◌+◌, ◌*◌, ◌<◌, ◌≤◌, [], ◌++◌, length, map, vec_len, vec_capacity, All, IfOk, OnOk, OnErr, Some, true, is_some};
ghost use Rattle.std.specs.Option.{option_copied};
ghost use Rattle.std.specs.Result.{result_err};
ghost use Rattle.tao_base.specs.Limits.{slots_len};
ghost use Rattle.tao_bucket.specs.Reading.{slots_fault, clear_slots, read_bucket};

use crate::header::{node_of, nonce_of, version_of};
use crate::slots::check_slots;
use crate::stock::{fill, release, zero_blocks};
use crate::tail::body_len;
use std::alloc::Global;
use std::marker::Model;
use std::mem;
use tao_base::{Block, Bucket, BucketFault, Entries, NoMemory, Params};
use tao_tape::xor_stream;

/// A room for one bucket of a store, which may be used again and again.
#[derive(Debug, Drop)]
pub struct Room {
    alloc: Global,
    z: usize,
    b: usize,
    // What was last decoded, or given in exchange for it.
    bucket: Bucket,
    is_full: bool,
    // Blocks for the entries that the bucket doesn't have.
    spare: Vec<Block>,
    // The slots in clear.
    slots: Vec<u8>,
}

impl Model for Room {
    ghost use Rattle.std.specs.Prelude.{Some, None, if◌then◌else◌, vec_len, vec_capacity};
    ghost use Rattle.tao_bucket.specs.Rooms.{RoomState, room_of, IsStocked};

    ghost Value = { RoomState };

    ghost view = { λ r. room_of r.z r.b (if r.is_full then Some r.bucket else None) };

    ghost invariant = { λ r. IsStocked r.z r.b r.bucket.entries r.spare.items (vec_capacity r.spare) (vec_len r.slots) };
}

impl Room {
    ghost use Rattle.tao_bucket.specs.Rooms.{empty_room, holding, emptied, IsStock};

    /// An empty room for a bucket of a store with these parameters.
    pub fn new(alloc: Global, p: &Params) -> Result<Room, NoMemory>
        ensures { IfOk result (λ room. room ≡ empty_room p.now.z p.now.b) }
    {
        let z = p.z() as usize;
        let b = p.b() as usize;
        let bucket = Bucket {
            node: 0,
            version: 0,
            nonce: 0,
            entries: Entries::new(alloc)?,
        };
        Ok(Room {
            alloc,
            z,
            b,
            bucket,
            is_full: false,
            spare: zero_blocks(alloc, z, b)?,
            slots: vec![in alloc; 0; z * (4 + b)]?,
        })
    }

    /// The bucket that the room holds; none where it is empty.
    pub fn bucket(&self) -> Option<&Bucket>
        ensures { option_copied result ≡ self.now.held }
    {
        if self.is_full {
            Some(&self.bucket)
        } else {
            None
        }
    }

    /// Exchanges the bucket that the room holds for one of stock.
    pub fn exchange(&mut self, stock: &mut Bucket)
        requires full { is_some self.old.held ≡ true }
        requires stock { IsStock self.old.z self.old.b stock.old.entries }
        ensures bucket { self.old.held ≡ Some stock.new }
        ensures room { self.new ≡ emptied self.old }
    {
        mem::swap(&mut self.bucket, stock);
        self.spare.truncate(0);
        self.is_full = false;
    }

    /// Leaves the room without a bucket.
    pub fn empty(&mut self)
        ensures { self.new ≡ emptied self.old }
    {
        self.is_full = false;
    }

    /// Checks the slots of these bytes, and keeps their bucket where they have no fault.
    pub(crate) fn take_in(
        &mut self,
        p: &Params,
        key: &[u8; 32],
        bytes: &[u8],
    ) -> Result<(), BucketFault>
        requires z { self.old.z ≡ p.now.z }
        requires b { self.old.b ≡ p.now.b }
        requires len { slots_len p.now.z p.now.b ≤ length bytes.now }
        ensures fault { result_err result ≡ slots_fault p.now.n p.now.z p.now.b (clear_slots key.now p.now bytes.now) }
        ensures ok { OnOk result (self.new ≡ holding self.old (read_bucket key.now p.now bytes.now)) }
        ensures err { OnErr result (self.new ≡ emptied self.old) }
    {
        self.is_full = false;
        clear(p, key, bytes, &mut self.slots);
        check_slots(p, &self.slots)?;
        release(self.alloc, &mut self.bucket.entries, &mut self.spare);
        fill(p, &self.slots, &mut self.bucket.entries, &mut self.spare);
        self.bucket.node = node_of(bytes);
        self.bucket.version = version_of(bytes);
        self.bucket.nonce = nonce_of(bytes);
        self.is_full = true;
        Ok(())
    }
}

#[tactic(auto, unfolding(crate::specs::Reading::clear_slots))]
// Writes the slots in clear.
fn clear(p: &Params, key: &[u8; 32], bytes: &[u8], slots: &mut [u8])
    requires len { slots_len p.now.z p.now.b ≤ length bytes.now }
    requires slots { length slots.old ≡ p.now.z * (4 + p.now.b) }
    ensures { slots.new ≡ clear_slots key.now p.now bytes.now }
{
    slots.copy_from_slice(&bytes[20..body_len(p)]);
    xor_stream(key, nonce_of(bytes), slots);
}
