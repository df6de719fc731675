//! Drops nodes that may leave.
ghost use Rattle.std.specs.Prelude.{◌≡◌};
ghost use Rattle.tao_base.specs.declared.session.Event.TheVariants.{Issue};
ghost use Rattle.tao_model.specs.WholeRecords.{IsAt};
ghost use Rattle.tao_model.specs.Trace.{nodes_in};
ghost use Rattle.tao_tables.specs.WriteBacks.{IsIssueAt};
ghost use Rattle.tao_processor.specs.Steps.{Forgets};

use tao_base::{Bucket, Event};
use tao_holdings::Holdings;

/// The first nonce and the buckets of this version's write-back, which is at this place of the record.
pub(crate) fn issued(events: &[Event], place: usize, version: u32) -> (u64, &[Bucket])
    requires there { IsIssueAt events.now place version }
    ensures { IsAt events.now place (Issue version result.0 result.1.now) }
{
    match &events[place] {
        Event::Issue { nonce, buckets, .. } => (*nonce, buckets.as_slice()),
        Event::Arrive { .. } | Event::Done { .. } | Event::Acked { .. } | Event::Fault { .. } => {
            unreachable!()
        }
    }
}

/// Drops those nodes of these buckets that may leave on the acknowledgement of this version.
pub(crate) fn forget_all(holdings: &mut Holdings, version: u32, buckets: &[Bucket])
    ensures { Forgets version (nodes_in buckets.now) holdings.old holdings.new }
{
    for i in 0..buckets.len() {
        holdings.forget_one(version, buckets[i].node);
    }
}
