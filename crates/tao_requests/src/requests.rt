//! The requests of a session.
ghost use Rattle.std.specs.Prelude.{◌≡◌, ◌+◌, ◌<◌, ◌≤◌, false, max, [], ◌∷◌, ◌++◌, length, vec_len, vec_capacity, IfOk, OnOk, OnErr};
ghost use Rattle.std.specs.Option.{option_copied};
ghost use Rattle.tao_model.specs.Lawful.{IsInRange};
ghost use Rattle.tao_model.specs.Events.{is_pad_op};

use crate::queues::{Wait, enter, first_answer, leave};
use crate::request::{Kind, Request};
use crate::rooms::{Room, copy_op, new_room, take_room};
use crate::settling::settle_queue;
use std::alloc::Global;
use std::marker::Model;
use tao_base::{Block, NoMemory, Op, Params};

/// The requests of a session in the order of arrival, each with its kind and its answer.
/// Requests begin and are settled without allocating, in capacity that `reserve` made.
#[derive(Debug, Drop)]
pub struct Requests {
    alloc: Global,
    p: Params,
    requests: Vec<Request>,
    // one per request
    waits: Vec<Wait>,
    // the last request in each block's queue
    lasts: Vec<Option<usize>>,
    rooms: Vec<Room>,
}

impl Model for Requests {
    ghost use Rattle.std.specs.Prelude.{vec_len, vec_capacity};
    ghost use Rattle.tao_requests.specs.State.{RequestsState};
    ghost use Rattle.tao_requests.specs.Queues.{IsKept, HasRoom};

    ghost Value = { RequestsState };

    ghost view = { λ r. record { shape = r.p; requests = r.requests.items; spare = vec_len r.rooms } };

    ghost invariant = { λ r. IsKept r.p r.requests.items r.waits.items r.lasts.items
        × HasRoom r.p r.rooms.items (vec_len r.rooms) (vec_len r.requests) (vec_capacity r.requests) (vec_capacity r.waits) };
}

impl Requests {
    ghost use Rattle.tao_requests.specs.State.{fresh, begun, kind_now, request_at, block_of, IsUnderWay};
    ghost use Rattle.tao_requests.specs.Settling.{settled, value_from, KeepsAnswers};

    /// No requests and no capacity.
    pub fn new(alloc: Global, p: &Params) -> Result<Requests, NoMemory>
        ensures { IfOk result (λ r. r ≡ fresh p.now) }
    {
        Ok(Requests {
            alloc,
            p: *p,
            requests: Vec::new(alloc),
            waits: Vec::new(alloc),
            lasts: vec![in alloc; None; p.n() as usize]?,
            rooms: Vec::new(alloc),
        })
    }

    /// Makes capacity for one request, unless there is some.
    pub fn reserve(&mut self) -> Result<(), NoMemory>
        ensures ok { OnOk result (self.new ≡ record self.old { spare = max self.old.spare 1 }) }
        ensures err { OnErr result (self.new ≡ self.old) }
    {
        if self.rooms.is_empty() {
            self.requests.reserve(1)?;
            self.waits.reserve(1)?;
            self.rooms.push(new_room(self.alloc, &self.p)?)?;
        }
        Ok(())
    }

    /// Begins the next request. Its value is copied into a preallocated buffer.
    pub fn begin(&mut self, arrival: u64, op: &Op) -> Kind
        requires spare { 0 < self.old.spare }
        requires next { arrival ≡ length self.old.requests }
        requires op { IsInRange self.old.shape op.now }
        ensures kind { result ≡ kind_now self.old.requests op.now }
        ensures value { self.new ≡ begun self.old op.now }
    {
        let Room { answer, written } = take_room(&self.p, &mut self.rooms);
        let kind = enter(&mut self.lasts, &mut self.waits, op, arrival as usize);
        let (settled, room) = first_answer(self.alloc, op, answer);
        let request = Request {
            op: copy_op(op, written),
            kind,
            answer: settled,
        };
        self.requests.push_reserved(request);
        self.waits.push_reserved(Wait { next: None, room });
        kind
    }

    /// A real request's fetch is done and found this value of its block: answers all requests that wait on the block,
    /// and leaves the value after them.
    pub fn settle(&mut self, arrival: u64, value: &mut Block)
        requires under_way { IsUnderWay self.old.requests arrival }
        requires value { length value.old ≡ self.old.shape.b }
        ensures settled { self.new ≡ settled self.old arrival value.old }
        ensures value { value.new ≡ value_from arrival (block_of self.old.requests arrival) value.old self.old.requests }
        ensures len { length value.new ≡ length value.old }
        ensures count { length self.new.requests ≡ length self.old.requests }
        ensures stays { KeepsAnswers self.old.requests self.new.requests }
    {
        let first = arrival as usize;
        leave(&mut self.lasts, &self.requests[first].op);
        settle_queue(
            self.alloc,
            &mut self.requests,
            &mut self.waits,
            first,
            value,
        );
    }

    /// The kind that the request began with.
    pub fn kind_of(&self, arrival: u64) -> Kind
        requires { arrival < length self.now.requests }
        ensures { result ≡ (request_at self.now.requests arrival).kind }
    {
        self.requests[arrival as usize].kind
    }

    /// The block of a request that isn't a pad.
    pub fn block_of(&self, arrival: u64) -> u32
        requires arrived { arrival < length self.now.requests }
        requires no_pad { is_pad_op (request_at self.now.requests arrival).op ≡ false }
        ensures { result ≡ block_of self.now.requests arrival }
    {
        match &self.requests[arrival as usize].op {
            Op::Read(block) | Op::Write(block, _) => *block,
            Op::Pad => unreachable!(),
        }
    }

    /// The value before the request's operation, once it is settled.
    pub fn answer_of(&self, arrival: u64) -> Option<&Block>
        requires { arrival < length self.now.requests }
        ensures { option_copied result ≡ (request_at self.now.requests arrival).answer }
    {
        self.requests[arrival as usize].answer.as_ref()
    }
}
