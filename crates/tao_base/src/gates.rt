//! Gates that the threads of a session pass beside its fetches and stores.
use std::sync::Wait;
use std::sync::atomic::{AtomicU64, Ordering};
use std::thread;

/// A place to hold threads. It is passed at 1 before a fetch, 2 after it, 3 before a store, 4 after it.
pub trait Gate {
    /// Client `who`, or the writer of link `who`, is at this place; it may wait there.
    fn pass<R: Wait>(&self, rt: &R, who: u32, place: u8);
}

/// A gate that holds nobody.
#[derive(Clone, Copy, Debug, PartialEq, Eq)]
pub struct OpenGate;

impl Gate for OpenGate {
    fn pass<R: Wait>(&self, _rt: &R, _who: u32, _place: u8) {}
}

const FIRST_CAME: u64 = 1;

const SECOND_CAME: u64 = 2;

const SECOND_FETCHED: u64 = 4;

const BOTH_CAME: u64 = FIRST_CAME | SECOND_CAME;

const ALL: u64 = BOTH_CAME | SECOND_FETCHED;

/// Shows that two fetches overlap. It holds clients 0 and 1 before their fetches until both have come, and client 0 until client 1 has
/// fetched, each for a limited number of turns of waiting.
#[derive(Debug, Drop)]
pub struct HoldGate {
    limit: u32,
    came: AtomicU64,
    over: AtomicU64,
}

impl HoldGate {
    /// A gate that waits for at most `limit` turns.
    pub fn new(limit: u32) -> HoldGate {
        HoldGate {
            limit,
            came: AtomicU64::new(0),
            over: AtomicU64::new(0),
        }
    }

    /// Whether both came and client 1 fetched, while client 0 was held.
    pub fn met(&self) -> bool {
        self.came.load(Ordering::SeqCst) == ALL && !self.held_too_long()
    }

    /// Whether somebody was held until the limit.
    pub fn held_too_long(&self) -> bool {
        self.over.load(Ordering::SeqCst) != 0
    }

    // Waits until all of these have come, or for the limit.
    fn hold(&self, wanted: u64) {
        for _ in 0..self.limit {
            if self.have_come(wanted) {
                return;
            }
            thread::yield_now();
        }
        if !self.have_come(wanted) {
            self.over.store(1, Ordering::SeqCst);
        }
    }

    fn have_come(&self, wanted: u64) -> bool {
        self.came.load(Ordering::SeqCst) & wanted == wanted
    }
}

impl Gate for HoldGate {
    fn pass<R: Wait>(&self, _rt: &R, who: u32, place: u8) {
        match (who, place) {
            (0, 1) => {
                self.came.fetch_or(FIRST_CAME, Ordering::SeqCst);
                self.hold(BOTH_CAME);
                self.hold(ALL);
            }
            (1, 1) => {
                self.came.fetch_or(SECOND_CAME, Ordering::SeqCst);
                self.hold(BOTH_CAME);
            }
            (1, 2) => {
                self.came.fetch_or(SECOND_FETCHED, Ordering::SeqCst);
            }
            _ => {}
        }
    }
}
