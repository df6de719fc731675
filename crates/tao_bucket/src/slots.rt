//! The slots of a bucket in clear: an id field, which is one more than the id, and the bytes of a block; 0 in those without an entry.
ghost use Rattle.std.specs.Prelude.{◌≡◌, ◌==◌, ℕ, ◌+◌, ◌*◌, ◌^◌, ◌<◌, ◌≤◌, length, All};
ghost use Rattle.std.specs.List.{list_all};
ghost use Rattle.std.specs.Result.{result_err};
ghost use Rattle.tao_bucket.specs.Encoding.{HasBlock, slot_of, slots_of};
ghost use Rattle.tao_bucket.specs.Reading.{slot_at, id_field, slot_fault, slots_fault};

use tao_base::{BucketFault, Entry, Params};

fn write_slot(entry: &Entry, slot: &mut [u8])
    requires id { entry.now.id + 1 < 2 ^ 32 }
    requires len { length slot.old ≡ 4 + length entry.now.value }
    ensures { slot.new ≡ slot_of entry.now }
{
    let (id, value) = slot.split_at_mut(4);
    id.copy_from_slice(&(entry.id + 1).to_be_bytes());
    value.copy_from_slice(entry.value.as_slice());
}

/// Writes the slots of a bucket with these entries.
pub(crate) fn write_slots(p: &Params, entries: &[Entry], slots: &mut [u8])
    requires len { length slots.old ≡ p.now.z * (4 + p.now.b) }
    requires few { length entries.now ≤ p.now.z }
    requires ids { All (λ e. e.id < p.now.n) entries.now }
    requires values { All (HasBlock p.now.b) entries.now }
    ensures { slots.new ≡ slots_of p.now.z p.now.b entries.now }
{
    let len = 4 + p.b() as usize;
    for i in 0..entries.len() {
        let at = i * len;
        write_slot(&entries[i], &mut slots[at..at + len]);
    }
    slots[entries.len() * len..].fill(0);
}

/// Slot `i`.
pub(crate) fn slot_at<'a>(p: &Params, slots: &'a [u8], i: usize) -> &'a [u8]
    requires slots { length slots.now ≡ p.now.z * (4 + p.now.b) }
    requires within { i < p.now.z }
    ensures value { result.now ≡ slot_at p.now.b slots.now i }
    ensures len { length result.now ≡ 4 + p.now.b }
{
    let len = 4 + p.b() as usize;
    let at = i * len;
    &slots[at..at + len]
}

/// The id field of a slot.
pub(crate) fn id_field(slot: &[u8]) -> u32
    requires { 4 ≤ length slot.now }
    ensures { result ≡ id_field slot.now }
{
    u32::from_be_bytes([slot[0], slot[1], slot[2], slot[3]])
}

fn is_zero(bytes: &[u8]) -> bool
    ensures { result ≡ list_all (λ byte. byte == 0) bytes.now }
{
    bytes.iter().all(|byte| *byte == 0)
}

fn slot_fault(n: u32, before: Option<u32>, slot: &[u8]) -> Option<BucketFault>
    requires { 4 ≤ length slot.now }
    ensures { result ≡ slot_fault n before slot.now }
{
    let field = id_field(slot);
    if n < field {
        return Some(BucketFault::Id);
    }
    if field == 0 {
        if is_zero(&slot[4..]) {
            return None;
        }
        return Some(BucketFault::Dummy);
    }
    match before {
        Some(before) if before == 0 || field <= before => Some(BucketFault::Order),
        _ => None,
    }
}

/// Checks the slots of a bucket in order.
#[tactic(auto, using(crate::proofs::Firsts::none_more, crate::proofs::Firsts::first_at), unfolding(crate::specs::Reading::fault_at))]
pub(crate) fn check_slots(p: &Params, slots: &[u8]) -> Result<(), BucketFault>
    requires { length slots.now ≡ p.now.z * (4 + p.now.b) }
    ensures { result_err result ≡ slots_fault p.now.n p.now.z p.now.b slots.now }
{
    let mut before = None;
    for i in 0..p.z() as usize {
        let slot = slot_at(p, slots, i);
        if let Some(fault) = slot_fault(p.n(), before, slot) {
            return Err(fault);
        }
        before = Some(id_field(slot));
    }
    Ok(())
}
