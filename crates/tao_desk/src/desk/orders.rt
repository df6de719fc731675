//! Orders: the load in parts, write-backs that are sent again, and which orders are the session's.
ghost use Rattle.std.specs.Prelude.{◌≡◌, ◌↔◌, ◌⊎◌, ◌+◌, ◌*◌, ◌<◌, ◌≤◌, true, false, take, drop, reverse, length, All, IfOk, OnOk, OnErr, IfErr, IsTrue};
ghost use Rattle.tao_base.specs.Limits.{bucket_len};
ghost use Rattle.tao_base.specs.Buckets.{IsInForm};
ghost use Rattle.tao_base.specs.Links.{FitsLinks, order_limit};
ghost use Rattle.tao_base.specs.Tree.{node_count};
ghost use Rattle.tao_model.specs.Events.{is_outstanding};
ghost use Rattle.tao_images.specs.Orders.{IsOrderOf, IsIssued};
ghost use Rattle.tao_desk.specs.declared.faults.AgainFault.TheVariants.{Stranger, Memory};

use crate::desk::Desk;
use crate::faults::AgainFault;
use std::alloc::Global;
use tao_base::{Bucket, NoMemory, Order, Params};
use tao_images::{is_order, order_room, write_order};
use tao_tape::Tape;

impl<T: Tape + Drop> Desk<T> {
    /// Makes the order that sends a part of the load: 256 buckets, root first, or what is left of them.
    pub fn load_part(&self, part: u32, out: &mut Order) -> Result<(), NoMemory>
        requires { 256 * part < node_count self.now.history.opening.shape.l }
        ensures order { OnOk result (IsOrderOf self.now.key self.now.history.opening.shape 0 (256 * part + 1) (take 256 (drop (256 * part) self.now.history.opening.loaded)) out.new) }
        ensures fits { OnOk result (FitsLinks self.now.history.opening.shape out.new) }
        ensures err { OnErr result (out.new ≡ out.old) }
    {
        self.processor.sound();
        let buckets = part_of(self.processor.history().loaded(), part);
        *out = new_order(
            self.alloc,
            self.processor.params(),
            self.processor.key(),
            0,
            256 * u64::from(part) + 1,
            buckets,
        )?;
        Ok(())
    }

    /// Makes the order of an outstanding write-back once more.
    pub fn order_again(&self, version: u32, out: &mut Order) -> Result<(), AgainFault>
        ensures refused { IfErr result (λ fault. ((fault ≡ Stranger) × (is_outstanding (reverse self.now.history.events) version ≡ false))
            ⊎ ((fault ≡ Memory) × (is_outstanding (reverse self.now.history.events) version ≡ true))) }
        ensures taken { OnOk result (is_outstanding (reverse self.now.history.events) version ≡ true) }
        ensures order { OnOk result (IsIssued self.now.key self.now.history out.new × (out.new.version ≡ version)) }
        ensures fits { OnOk result (FitsLinks self.now.history.opening.shape out.new) }
        ensures err { OnErr result (out.new ≡ out.old) }
    {
        self.processor.sound();
        if !self.processor.is_outstanding(version) {
            return Err(AgainFault::Stranger);
        }
        let (nonce, buckets) = self.processor.issue_of(version);
        match new_order(
            self.alloc,
            self.processor.params(),
            self.processor.key(),
            version,
            nonce,
            buckets,
        ) {
            Ok(order) => {
                *out = order;
                Ok(())
            }
            Err(NoMemory) => Err(AgainFault::Memory),
        }
    }

    /// Whether the order sends a write-back of the session, byte by byte. Each bucket is encoded into the scratch bytes.
    pub fn is_issued(&self, order: &Order, scratch: &mut [u8]) -> bool
        requires scratch { bucket_len self.now.history.opening.shape ≤ length scratch.old }
        ensures value { IsTrue result ↔ IsIssued self.now.key self.now.history order.now }
        ensures fits { IsTrue result → FitsLinks self.now.history.opening.shape order.now }
        ensures len { length scratch.new ≡ length scratch.old }
    {
        self.processor.sound();
        let version = order.version;
        if version == 0 {
            return false;
        }
        if version > self.processor.issues() {
            return false;
        }
        let (nonce, buckets) = self.processor.issue_of(version);
        is_order(
            self.processor.params(),
            self.processor.key(),
            version,
            nonce,
            buckets,
            order,
            scratch,
        )
    }
}

// 256 of the buckets, or what is left of them.
fn part_of(loaded: &[Bucket], part: u32) -> &[Bucket]
    requires { 256 * part ≤ length loaded.now }
    ensures { result.now ≡ take 256 (drop (256 * part) loaded.now) }
{
    let first = part as usize * 256;
    if loaded.len() - first > 256 {
        &loaded[first..first + 256]
    } else {
        &loaded[first..]
    }
}

// A new order that sends these buckets with this version and this first nonce.
fn new_order(
    alloc: Global,
    p: &Params,
    key: &[u8; 32],
    version: u32,
    nonce: u64,
    buckets: &[Bucket],
) -> Result<Order, NoMemory>
    requires form { All (IsInForm p.now) buckets.now }
    requires few { length buckets.now ≤ order_limit p.now }
    ensures order { IfOk result (IsOrderOf key.now p.now version nonce buckets.now) }
    ensures fits { IfOk result (FitsLinks p.now) }
{
    // for the proof: the parameters are within their limits
    let _within = p.l();
    let mut order = order_room(alloc, p, buckets.len() as u32)?;
    write_order(p, key, version, nonce, buckets, &mut order);
    Ok(order)
}
