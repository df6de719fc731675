//! The processor: the proxy's tables, and the events that change them.
ghost use Rattle.std.specs.Prelude.{◌≡◌, ℕ, ◌+◌, ◌*◌, ◌<◌, ◌≤◌, [], ◌∷◌, true, false, IfOk, OnOk, OnErr, length, reverse, vec_len, All};
ghost use Rattle.tao_base.specs.declared.session.Event.TheVariants.{Arrive, Done, Issue, Acked, Fault};
ghost use Rattle.tao_model.specs.Events.{has_fault, arrived, dones, issues};
ghost use Rattle.tao_model.specs.Requests.{fetched_leaf};
ghost use Rattle.tao_model.specs.Lawful.{MayFollow};

mod looking;
mod readers;

use crate::fetches::{Fetch, leaf_now};
use crate::finishing::finish;
use crate::forgetting::{forget_all, issued};
use crate::opening::{Fresh, Lists, fresh_parts};
use crate::rooms::take_looked;
use crate::tags::{keep_tags, load_tags};
use crate::topping::{take_order, top_up, wanted_now};
use crate::writing::write_back;
use std::alloc::Global;
use std::marker::Model;
use tao_base::{Block, Blocks, Bucket, Cause, NoMemory, Numbers, Op, Order, Params};
use tao_bucket::Room;
use tao_holdings::Holdings;
use tao_record::Record;
use tao_requests::Requests;
use tao_sequence::Sequence;
use tao_tables::touch_path;

/// All that the proxy keeps, except its tape.
#[derive(Drop)]
pub struct Processor {
    alloc: Global,
    p: Params,
    key: [u8; 32],
    session: Record,
    requests: Requests,
    sequence: Sequence,
    acknowledged: Sequence,
    fetches: Vec<Fetch>,
    recent: Vec<u32>,
    places: Vec<usize>,
    dones: u64,
    issues: u32,
    acks: u32,
    nonce: u64,
    tags: Vec<[u8; 32]>,
    holdings: Holdings,
    written: Vec<Bucket>,
    values: Vec<Block>,
    orders: Vec<Order>,
    stock: Vec<Bucket>,
    ready: bool,
    rooms: Vec<Room>,
    looked: usize,
    // the buckets of a Done on their way to the holdings, else empty
    taken: Vec<Bucket>,
}

impl Model for Processor {
    ghost use Rattle.tao_processor.specs.State.{ProcessorState};

    ghost Value = { ProcessorState };

    ghost use Rattle.std.specs.Prelude.{vec_len, vec_capacity};
    ghost use Rattle.tao_processor.specs.Groups.{IsProcessor};
    ghost use Rattle.tao_processor.specs.Rooms.{buckets_held};

    ghost view = { λ r. record { key = r.key; history = r.session.history; holdings = r.holdings; ready = r.ready; looked = buckets_held r.looked r.rooms.items } };

    ghost invariant = { λ r. IsProcessor (record {
      shape = r.p;
      key = r.key;
      session = r.session;
      requests = r.requests;
      done_flags = r.sequence;
      acked_flags = r.acknowledged;
      rows = r.fetches.items;
      row_count = vec_len r.fetches;
      row_room = vec_capacity r.fetches;
      recent = r.recent.items;
      recent_room = vec_capacity r.recent;
      places = r.places.items;
      place_room = vec_capacity r.places;
      done_count = r.dones;
      issue_count = r.issues;
      ack_count = r.acks;
      next_nonce = r.nonce;
      tags = r.tags.items;
      holdings = r.holdings;
      written = r.written.items;
      values = r.values.items;
      value_count = vec_len r.values;
      orders = r.orders.items;
      order_count = vec_len r.orders;
      stock = r.stock.items;
      stock_count = vec_len r.stock;
      ready = r.ready;
      rooms = r.rooms.items;
      looked = r.looked;
      taken = r.taken.items;
      taken_room = vec_capacity r.taken;
    }) };
}

impl Processor {
    ghost use Rattle.tao_images.specs.Answers.{with_event};
    ghost use Rattle.tao_processor.specs.State.{IsProcessorSound, IsLookedAt, Issues, IsOpened};

    /// Loads all blocks, with these words for their positions, and begins a session.
    pub fn open(
        alloc: Global,
        p: &Params,
        key: [u8; 32],
        words: Numbers,
        blocks: Blocks,
    ) -> Result<Processor, NoMemory>
        requires words { length words ≡ p.now.n }
        requires blocks { length blocks ≡ p.now.n }
        requires values { All (λ value. length value ≡ p.now.b) blocks }
        ensures opened { IfOk result (λ c. IsOpened key p.now words blocks c) }
    {
        // for the proof: the parameters are in range
        let _ = p.k();
        let (loaded, holdings) = Holdings::load(alloc, p, words.as_slice(), blocks.as_slice())?;
        let tags = load_tags(alloc, p, &key, loaded.as_slice())?;
        let session = Record::begin(alloc, p, words, blocks, loaded)?;
        let Fresh {
            requests,
            sequence,
            acknowledged,
            lists,
        } = fresh_parts(alloc, p)?;
        let Lists {
            recent,
            written,
            rooms,
            taken,
        } = lists;
        Ok(Processor {
            alloc,
            p: *p,
            key,
            session,
            requests,
            sequence,
            acknowledged,
            fetches: Vec::new(alloc),
            recent,
            places: Vec::new(alloc),
            dones: 0,
            issues: 0,
            acks: 0,
            nonce: u64::from(p.nodes()) + 1,
            tags,
            holdings,
            written,
            values: Vec::new(alloc),
            orders: Vec::new(alloc),
            stock: Vec::new(alloc),
            ready: false,
            rooms,
            looked: 0,
            taken,
        })
    }

    /// The facts that hold after each event, for callers' proofs.
    pub fn sound(&self)
        ensures { IsProcessorSound self.now }
    {
        let _ = &self.p;
        self.holdings.forms();
    }

    /// Preallocates for one more arrival. Once the session has begun, this is the only call that takes memory.
    pub fn reserve(&mut self) -> Result<(), NoMemory>
        ensures ok { OnOk result (self.new ≡ record self.old { ready = true }) }
        ensures err { OnErr result (self.new ≡ self.old) }
    {
        let wanted = wanted_now(
            &self.p,
            self.fetches.len(),
            self.dones,
            self.issues,
            self.acks,
        );
        match top_up(
            self.alloc,
            &self.p,
            &wanted,
            &mut self.session,
            &mut self.requests,
            &mut self.fetches,
            &mut self.places,
            &mut self.values,
            &mut self.orders,
            &mut self.stock,
        ) {
            Ok(()) => {
                self.ready = true;
                Ok(())
            }
            Err(error) => Err(error),
        }
    }

    /// Records a fault, which ends the session.
    pub fn fault(&mut self, cause: Cause)
        requires running { has_fault (reverse self.old.history.events) ≡ false }
        requires follows { MayFollow self.old.history.opening (reverse self.old.history.events) (Fault cause) }
        ensures state { self.new ≡ record self.old { history = with_event self.old.history (Fault cause) } }
    {
        self.session.add_fault(cause);
    }

    /// Admits the path of this arrival, which was looked at last.
    pub fn done(&mut self, arrival: u64)
        requires running { has_fault (reverse self.old.history.events) ≡ false }
        requires follows { MayFollow self.old.history.opening (reverse self.old.history.events) (Done arrival self.old.looked) }
        requires tags { IsLookedAt self.old arrival }
        ensures state { self.new ≡ record self.old { history = with_event self.old.history (Done arrival self.old.looked); holdings = self.new.holdings; looked = [] } }
    {
        let Fetch { leaf, word } = self.fetches[arrival as usize];
        self.holdings.forms();
        take_looked(
            &mut self.rooms,
            self.looked,
            &mut self.stock,
            &mut self.taken,
        );
        self.looked = 0;
        self.session.add_done(arrival, &self.taken);
        self.holdings.take_in(leaf, &mut self.taken);
        finish(
            &mut self.holdings,
            &mut self.requests,
            &mut self.values,
            arrival,
            leaf,
            word,
        );
        self.holdings.end_fetch(leaf, self.dones + 1);
        self.sequence.done(arrival);
        touch_path(&self.p, &mut self.recent, leaf);
        self.dones += 1;
    }

    /// A client's operation arrives. Gives the leaf that it fetches.
    pub fn arrive(&mut self, client: u32, op: Op, word: u32) -> u32
        requires ready { self.old.ready ≡ true }
        requires running { has_fault (reverse self.old.history.events) ≡ false }
        requires follows { MayFollow self.old.history.opening (reverse self.old.history.events) (Arrive client op word) }
        ensures leaf { result ≡ fetched_leaf self.new.history.opening (reverse self.new.history.events) (arrived (reverse self.old.history.events)) }
        ensures state { self.new ≡ record self.old { history = with_event self.old.history (Arrive client op word); holdings = self.new.holdings; ready = false } }
    {
        let kind = self.requests.begin(self.fetches.len() as u64, &op);
        let leaf = leaf_now(&self.p, &self.holdings, kind, &op, word);
        self.holdings.begin_fetch(leaf);
        self.fetches.push_reserved(Fetch { leaf, word });
        self.session.add_arrive(client, op, word);
        self.ready = false;
        leaf
    }

    /// The write-back of this version was acknowledged.
    pub fn acked(&mut self, version: u32)
        requires running { has_fault (reverse self.old.history.events) ≡ false }
        requires follows { MayFollow self.old.history.opening (reverse self.old.history.events) (Acked version) }
        ensures state { self.new ≡ record self.old { history = with_event self.old.history (Acked version); holdings = self.new.holdings } }
    {
        let place = self.places[version as usize - 1];
        let (_, buckets) = issued(self.session.events(), place, version);
        forget_all(&mut self.holdings, version, buckets);
        self.acknowledged.done(u64::from(version) - 1);
        self.acks += 1;
        self.session.add_acked(version);
    }

    /// Issues the write-back of a full period, and gives the order that sends it.
    pub fn issue(&mut self) -> Order
        requires running { has_fault (reverse self.old.history.events) ≡ false }
        requires due { dones (reverse self.old.history.events) ≡ (issues (reverse self.old.history.events) + 1) * self.old.history.opening.shape.k }
        ensures issued { Issues self.old self.new result }
    {
        let version = self.issues + 1;
        let place = self.session.events().len();
        let mut order = take_order(&mut self.orders);
        write_back(
            &self.p,
            &self.key,
            &mut self.session,
            &mut self.holdings,
            &mut self.written,
            &self.recent,
            version,
            self.nonce,
            &mut order,
        );
        keep_tags(&self.p, &order, &mut self.tags);
        self.holdings.set_versions(&self.recent, version);
        self.places.push_reserved(place);
        self.nonce += self.recent.len() as u64;
        self.issues = version;
        self.recent.truncate(0);
        order
    }
}
