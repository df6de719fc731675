//! The closing scan: the whole tree is read, leaf after leaf, and the final array comes out.
ghost use Rattle.std.specs.Prelude.{List, ◌≡◌, ◌⊎◌, ◌+◌, ◌*◌, ◌^◌, ◌<◌, ◌≤◌, ◌++◌, [], false, nat_lt, length, map, reverse, vec_capacity, codes, Some, None, All, IfOk, IfErr, OnOk, OnErr, if◌then◌else◌};
ghost use Rattle.std.specs.Result.{result_err};
ghost use Rattle.tao_base.specs.Limits.{bucket_len};
ghost use Rattle.tao_base.specs.Tree.{node_count};
ghost use Rattle.tao_base.specs.declared.session.Cause.TheVariants.{Link};
ghost use Rattle.tao_base.specs.declared.storage.Entry.{Entry as TheEntry};
ghost use Rattle.tao_model.specs.Events.{has_fault, cause_in};
ghost use Rattle.tao_model.specs.Replies.{array_now};
ghost use Rattle.tao_held.specs.Held.{held, newest_entries};
ghost use Rattle.tao_images.specs.Answers.{IsUnaltered};
ghost use Rattle.tao_desk.specs.declared.faults.ScanFault.TheVariants.{Memory};
ghost use Rattle.tao_desk.specs.Calls.{Refuses};
ghost use Rattle.tao_desk.specs.Refusals.{begin_refusal, scan_refusal};
ghost use Rattle.tao_desk.specs.Scanning.{IsScan, ReadsLeaf, TakesLeaf, Sees, entries_if_held, entries_held, entries_seen, values_in};
ghost use Rattle.tao_desk.specs.Sound.{IsSound};
ghost use Rattle.tao_desk.specs.State.{faulted};

use crate::desk::Desk;
use crate::desk::done::{cause_of, fault_of};
use crate::faults::{DoneFault, ScanFault};
use crate::seeing::Seen;
use std::alloc::Global;
use std::fmt;
use std::marker::Model;
use tao_base::{Block, Cause, NoMemory};
use tao_processor::Processor;
use tao_record::Record;
use tao_tape::Tape;

/// A closing scan. The paths of all leaves are read one after another, each node where it comes first; then the final array is there.
#[derive(Drop)]
pub struct Scan<T: Tape + Drop> {
    desk: Desk<T>,
    next: u32,
    seen: Seen,
}

impl<T: Tape + Drop> Model for Scan<T> {
    ghost use Rattle.std.specs.Prelude.{map, vec_capacity};
    ghost use Rattle.tao_desk.specs.Scanning.{ScanState, IsScan};

    ghost Value = { ScanState };

    ghost view = { λ s. record { desk = s.desk; next = s.next; taken = map (λ bucket. bucket.value) s.seen.taken.items } };

    ghost invariant = { λ s. IsScan s.desk.history s.next (map (λ bucket. bucket.value) s.seen.taken.items) s.seen.values.items s.seen.known.items (vec_capacity s.seen.taken) };
}

// The key is not shown.
impl<T: Tape + Drop> fmt::Debug for Scan<T> {
    ghost debug_output = { λ _. Some (codes "Scan { .. }") };

    fn fmt<W: fmt::Write>(&self, f: &mut fmt::Formatter<W>) -> fmt::Result {
        f.write_str("Scan { .. }")
    }
}

impl<T: Tape + Drop> Desk<T> {
    /// Begins the closing scan, once all fetches are done and all write-backs acknowledged. Else the desk comes back as it was.
    pub fn begin_scan(self) -> Result<Scan<T>, (Desk<T>, ScanFault)>
        ensures refused { IfErr result (λ e. (begin_refusal self.history ≡ Some e.1) ⊎ ((e.1 ≡ Memory) × (begin_refusal self.history ≡ None))) }
        ensures taken { IfOk result (λ _. begin_refusal self.history ≡ None) }
        ensures err { IfErr result (λ e. e.0 ≡ self) }
        ensures begun { IfOk result (λ scan. scan ≡ record { desk = self; next = 0; taken = [] }) }
        ensures sound { IsSound T.word self }
    {
        self.processor.sound();
        match refusal(&self.processor) {
            Some(fault) => return Err((self, fault)),
            None => {}
        }
        match see_held(self.alloc, &self.processor) {
            Ok(seen) => Ok(Scan {
                desk: self,
                next: 0,
                seen,
            }),
            Err(NoMemory) => Err((self, ScanFault::Memory)),
        }
    }

    // Reads the path of the scan's next leaf.
    fn read_new(&mut self, leaf: u32, path: &[u8], seen: &mut Seen) -> Result<(), DoneFault>
        requires leaf { leaf < 2 ^ self.old.history.opening.shape.l }
        requires path { length path.now ≡ (self.old.history.opening.shape.l + 1) * bucket_len self.old.history.opening.shape }
        requires scan { IsScan self.old.history leaf (map (λ bucket. bucket.value) seen.old.taken.items) seen.old.values.items seen.old.known.items (vec_capacity seen.old.taken) }
        ensures fault { result_err result ≡ scan_refusal self.old.key self.old.history leaf path.now }
        ensures ok { OnOk result (self.new ≡ self.old) }
        ensures read { OnOk result (ReadsLeaf self.old leaf path.now (map (λ bucket. bucket.value) seen.old.taken.items) (map (λ bucket. bucket.value) seen.new.taken.items)) }
        ensures scan { OnOk result (IsScan self.old.history (leaf + 1) (map (λ bucket. bucket.value) seen.new.taken.items) seen.new.values.items seen.new.known.items (vec_capacity seen.new.taken)) }
        ensures refused { IfErr result (λ fault. Refuses (2 ^ 32 + leaf) self.old self.new fault) }
        ensures err { OnErr result (seen.new ≡ seen.old) }
        ensures sound { IsSound T.word self.new }
    {
        self.processor.sound();
        if self.processor.is_down() {
            return Err(DoneFault::Down);
        }
        match self.processor.look_new(leaf, path) {
            Ok(()) => {}
            Err(refused) => {
                self.processor
                    .fault(cause_of((1 << 32) + u64::from(leaf), refused));
                self.processor.sound();
                return Err(fault_of(refused));
            }
        }
        seen.read(self.processor.looked());
        self.processor.sound();
        Ok(())
    }
}

impl<T: Tape + Drop> Scan<T> {
    /// The leaf whose path is to be read next; none after the last.
    pub fn next_leaf(&self) -> Option<u32>
        ensures { result ≡ (if nat_lt self.now.next (2 ^ self.now.desk.history.opening.shape.l) then Some self.now.next else None) }
    {
        if self.next < 1 << self.desk.params().l() {
            Some(self.next)
        } else {
            None
        }
    }

    /// Reads the path of the next leaf, one bucket for each node, root first. Buckets of nodes that the proxy holds or that an earlier
    /// path had aren't read.
    pub fn path(&mut self, path: &[u8]) -> Result<(), DoneFault>
        requires next { self.old.next < 2 ^ self.old.desk.history.opening.shape.l }
        requires path { length path.now ≡ (self.old.desk.history.opening.shape.l + 1) * bucket_len self.old.desk.history.opening.shape }
        ensures fault { result_err result ≡ scan_refusal self.old.desk.key self.old.desk.history self.old.next path.now }
        ensures ok { OnOk result (TakesLeaf self.old self.new path.now) }
        ensures refused { IfErr result (λ fault. Refuses (2 ^ 32 + self.old.next) self.old.desk self.new.desk fault) }
        ensures err { OnErr result (self.new ≡ record self.old { desk = self.new.desk }) }
        ensures sound { IsSound T.word self.new.desk }
    {
        // for the proof: the height is within its limit
        let _ = self.desk.params();
        self.desk.read_new(self.next, path, &mut self.seen)?;
        self.next += 1;
        Ok(())
    }

    /// The final array, once all paths are read: of each block the first value in the stash, the nodes that the proxy holds, and the
    /// buckets read.
    pub fn array(&self) -> &[Block]
        requires { self.now.next ≡ 2 ^ self.now.desk.history.opening.shape.l }
        ensures seen { result.now ≡ values_in self.now.desk.history.opening.shape (entries_seen self.now.desk.history.opening (reverse self.now.desk.history.events) self.now.taken) }
        ensures plain { IsUnaltered self.now.desk.key self.now.desk.history
            → All (λ bucket. bucket.entries ≡ newest_entries self.now.desk.history.opening (reverse self.now.desk.history.events) bucket.node) self.now.taken
            → result.now ≡ array_now self.now.desk.history.opening (reverse self.now.desk.history.events) }
    {
        // for the proof: the record is sound
        let _ = self.desk.params();
        &self.seen.values
    }

    /// A link has failed, which ends the session. After a fault nothing changes: the first cause stays.
    pub fn fail(&mut self, link: u32)
        ensures state { self.new ≡ (if has_fault (reverse self.old.desk.history.events) then self.old else record self.old { desk = faulted self.old.desk (Link link) }) }
        ensures sound { IsSound T.word self.new.desk }
    {
        self.desk.fail(link);
    }

    /// The cause of the fault that ended the session, if one did.
    pub fn down(&self) -> Option<Cause>
        ensures { result ≡ cause_in (reverse self.now.desk.history.events) }
    {
        self.desk.down()
    }

    /// The record of the session.
    pub fn history(&self) -> &Record
        ensures value { result.now.history ≡ self.now.desk.history }
        ensures sound { IsSound T.word self.now.desk }
    {
        self.desk.history()
    }

    /// Ends the scan and the session, and gives the record.
    pub fn into_history(self) -> Record
        ensures value { result.history ≡ self.desk.history }
        ensures sound { IsSound T.word self.desk }
    {
        self.desk.into_history()
    }
}

// Why the scan can't begin, if it can't.
fn refusal(processor: &Processor) -> Option<ScanFault>
    ensures { result ≡ begin_refusal processor.now.history }
{
    processor.sound();
    if processor.is_down() {
        return Some(ScanFault::Down);
    }
    let undone = processor.arrivals() - processor.dones();
    let outstanding = processor.issues() - processor.acks();
    if undone == 0 && outstanding == 0 {
        None
    } else {
        Some(ScanFault::Busy {
            undone,
            outstanding,
        })
    }
}

// Sees all entries that the proxy holds.
fn see_held(alloc: Global, processor: &Processor) -> Result<Seen, NoMemory>
    ensures sees { IfOk result (λ seen. Sees processor.now.history.opening.shape (entries_held processor.now.history.opening (reverse processor.now.history.events)) seen.values.items seen.known.items) }
    ensures taken { IfOk result (λ seen. seen.taken.items ≡ []) }
    ensures space { IfOk result (λ seen. node_count processor.now.history.opening.shape.l < vec_capacity seen.taken) }
{
    processor.sound();
    let mut seen = Seen::new(alloc, processor.params())?;
    seen.see(processor.stash());
    see_nodes(processor, &mut seen);
    Ok(seen)
}

// Sees the entries of the nodes that the proxy holds.
fn see_nodes(processor: &Processor, seen: &mut Seen)
    requires { Sees processor.now.history.opening.shape (held processor.now.history.opening (reverse processor.now.history.events) 0) seen.old.values.items seen.old.known.items }
    ensures sees { Sees processor.now.history.opening.shape (entries_held processor.now.history.opening (reverse processor.now.history.events)) seen.new.values.items seen.new.known.items }
    ensures taken { seen.new.taken ≡ seen.old.taken }
{
    processor.sound();
    for node in 1..processor.params().nodes() + 1 {
        see_node(processor, node, seen);
    }
}

// Sees the entries of a node, if the proxy holds it.
fn see_node(processor: &Processor, node: u32, seen: &mut Seen)
    requires low { 1 ≤ node }
    requires sees { (before : List TheEntry) × Sees processor.now.history.opening.shape before seen.old.values.items seen.old.known.items }
    ensures sees { (before : List TheEntry) → Sees processor.now.history.opening.shape before seen.old.values.items seen.old.known.items
        → Sees processor.now.history.opening.shape (before ++ entries_if_held processor.now.history.opening (reverse processor.now.history.events) node) seen.new.values.items seen.new.known.items }
    ensures taken { seen.new.taken ≡ seen.old.taken }
{
    processor.sound();
    let Some(entries) = processor.entries(node) else {
        return;
    };
    seen.see(entries.as_slice());
}
