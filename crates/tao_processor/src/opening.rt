//! What a session allocates when it begins.
ghost use Rattle.std.specs.Prelude.{◌≡◌, ◌+◌, ◌*◌, ◌≤◌, [], All, IfOk, vec_len, vec_capacity, min, replicate, false};
ghost use Rattle.tao_base.specs.Limits.{session_limit};
ghost use Rattle.tao_record.specs.State.{issue_len};
ghost use Rattle.tao_requests.specs.State.{fresh};
ghost use Rattle.tao_processor.specs.Rooms.{KeepsRooms};
ghost use Rattle.tao_processor.specs.Steps.{AreEmptyBuckets};

use crate::rooms::path_rooms;
use std::alloc::Global;
use tao_base::{Bucket, Entries, NoMemory, Params};
use tao_bucket::Room;
use tao_requests::Requests;
use tao_sequence::Sequence;

/// The lists that events use, with capacity for any of them.
#[derive(Drop)]
pub(crate) struct Lists {
    pub recent: Vec<u32>,
    pub written: Vec<Bucket>,
    pub rooms: Vec<Room>,
    pub taken: Vec<Bucket>,
}

// Allocates these lists.
fn event_lists(alloc: Global, p: &Params) -> Result<Lists, NoMemory>
    ensures recent { IfOk result (λ lists. lists.recent.items ≡ []) }
    ensures recent_fits { IfOk result (λ lists. p.now.k * (p.now.l + 1) ≤ vec_capacity lists.recent) }
    ensures written { IfOk result (λ lists. AreEmptyBuckets (issue_len p.now) lists.written.items) }
    ensures rooms { IfOk result (λ lists. KeepsRooms p.now lists.rooms.items 0 lists.taken.items (vec_capacity lists.taken) []) }
{
    let depths = p.l() as usize + 1;
    let recent = Vec::with_capacity(alloc, p.k() as usize * depths)?;
    let written = empty_buckets(alloc, p)?;
    let rooms = path_rooms(alloc, p)?;
    let taken = Vec::with_capacity(alloc, depths)?;
    Ok(Lists {
        recent,
        written,
        rooms,
        taken,
    })
}

/// The parts of a processor that don't depend on what was loaded, before the first event.
#[derive(Drop)]
pub(crate) struct Fresh {
    pub requests: Requests,
    pub sequence: Sequence,
    pub acknowledged: Sequence,
    pub lists: Lists,
}

/// Allocates these parts.
pub(crate) fn fresh_parts(alloc: Global, p: &Params) -> Result<Fresh, NoMemory>
    ensures requests { IfOk result (λ parts. parts.requests ≡ fresh p.now) }
    ensures sequence { IfOk result (λ parts. parts.sequence ≡ replicate (session_limit p.now) false) }
    ensures acknowledged { IfOk result (λ parts. parts.acknowledged ≡ replicate (session_limit p.now) false) }
    ensures recent { IfOk result (λ parts. parts.lists.recent.items ≡ []) }
    ensures recent_fits { IfOk result (λ parts. p.now.k * (p.now.l + 1) ≤ vec_capacity parts.lists.recent) }
    ensures written { IfOk result (λ parts. AreEmptyBuckets (issue_len p.now) parts.lists.written.items) }
    ensures rooms { IfOk result (λ parts. KeepsRooms p.now parts.lists.rooms.items 0 parts.lists.taken.items (vec_capacity parts.lists.taken) []) }
{
    let requests = Requests::new(alloc, p)?;
    let sequence = Sequence::new(alloc, p)?;
    let acknowledged = Sequence::new(alloc, p)?;
    let lists = event_lists(alloc, p)?;
    Ok(Fresh {
        requests,
        sequence,
        acknowledged,
        lists,
    })
}

/// The most buckets that a write-back may have.
pub(crate) fn most_written(p: &Params) -> u32
    ensures { result ≡ issue_len p.now }
{
    (p.k() * (p.l() + 1)).min(p.nodes())
}

// Empty buckets, enough for any write-back.
fn empty_buckets(alloc: Global, p: &Params) -> Result<Vec<Bucket>, NoMemory>
    ensures { IfOk result (λ buckets. AreEmptyBuckets (issue_len p.now) buckets.items) }
{
    let count = most_written(p) as usize;
    let mut buckets = Vec::with_capacity(alloc, count)?;
    for _ in 0..count {
        buckets.push(Bucket {
            node: 0,
            version: 0,
            nonce: 0,
            entries: Entries::new(alloc)?,
        })?;
    }
    Ok(buckets)
}
