//! Streams in memory, each at its place: handed out in order, and taken back in order.
ghost use Rattle.std.specs.Prelude.{◌≡◌, ◌↔◌, ◌<◌, length, slice_get, slice_set, Some, None, IsSome};
ghost use Rattle.std.specs.Option.{option_copied};

use std::alloc::Global;
use std::marker::Model;
use std::mem;
use tao_base::{ByteSink, ByteSource, Items, Numbers};

/// Streams in memory: pairs of a source and a sink.
pub type Streams = Items<(ByteSource, ByteSink)>;

/// Streams of which the first were handed out, and the first of these taken back.
#[derive(Drop)]
pub(crate) struct Rack {
    alloc: Global,
    streams: Streams,
    accepted: usize,
    returned: usize,
}

impl Model for Rack {
    ghost use Rattle.std.specs.Prelude.{◌≤◌, length, take, drop};
    ghost use Rattle.tao_tree.specs.Doors.{RackState};

    ghost Value = { RackState };

    ghost view = { λ r. record { accepted = r.accepted; returned = r.returned; waiting = drop r.accepted r.streams; back = take r.returned r.streams } };

    ghost invariant = { λ r. (r.returned ≤ r.accepted) × (r.accepted ≤ length r.streams) };
}

impl Rack {
    ghost use Rattle.tao_tree.specs.Doors.{new_rack, without_first, with_back, sink_at};

    pub(crate) fn new(alloc: Global, streams: Streams) -> Rack
        ensures { result ≡ new_rack streams }
    {
        Rack {
            alloc,
            streams,
            accepted: 0,
            returned: 0,
        }
    }

    /// Hands the next stream out, if one waits.
    pub(crate) fn take_next(&mut self) -> Option<(ByteSource, ByteSink)>
        ensures first { result ≡ slice_get self.old.waiting 0 }
        ensures none { result ≡ None → self.new ≡ self.old }
        ensures some { (stream : _) → result ≡ Some stream → self.new ≡ without_first self.old }
    {
        if self.streams.as_slice().len() <= self.accepted {
            return None;
        }
        let place = self.accepted;
        self.accepted += 1;
        Some(replace_at(&mut self.streams, place, blank(self.alloc)))
    }

    /// Takes the next stream back to its place.
    pub(crate) fn put_back(&mut self, stream: (ByteSource, ByteSink))
        requires { self.old.returned < self.old.accepted }
        ensures { self.new ≡ with_back self.old stream }
    {
        replace_at(&mut self.streams, self.returned, stream);
        self.returned += 1;
    }

    /// The sink of the stream that was taken back to this place.
    pub(crate) fn back(&self, place: usize) -> Option<&ByteSink>
        ensures sink { option_copied result ≡ sink_at self.now place }
        ensures some { IsSome result ↔ place < self.now.returned }
    {
        if place < self.returned {
            Some(&self.streams.as_slice()[place].1)
        } else {
            None
        }
    }
}

// What stands where a stream was handed out.
fn blank(alloc: Global) -> (ByteSource, ByteSink) {
    (
        ByteSource::new(Items::new(alloc), Numbers::new(alloc)),
        ByteSink::new(alloc, Numbers::new(alloc)),
    )
}

#[tactic(auto, using(tao_base::proofs::Fronts::with_front_all))]
// Puts an item at a place, and hands out the one that was there.
fn replace_at<T>(items: &mut Items<T>, place: usize, item: T) -> T
    requires { place < length items.old }
    ensures out { slice_get items.old place ≡ Some result }
    ensures items { items.new ≡ slice_set items.old place item }
{
    mem::replace(&mut items.as_mut_slice()[place], item)
}
