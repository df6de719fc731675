//! Sessions of a desk with a server in memory, which answers as it was stored or with bytes turned. The processor is tested here too.

mod refusals;
mod scans;
mod sessions;

use crate::{AckFault, AgainFault, ArriveFault, Ask, Desk, DoneFault, Scan, ScanFault, StartFault};
use std::alloc::Global;
use std::marker::Model;
use std::process::Abort;
use tao_base::{Block, Blocks, Cause, Form, Image, Numbers, Op, Order, Params};
use tao_tape::{ListTape, Tape};

// One block of four bytes in a tree of three nodes, written back after each fetch.
fn one_block(rt: &impl Abort, form: Form) -> Params {
    let p = Params::new(1, 1, 4, 1, 1).expect(rt, "parameters");
    p.with_form(form).expect(rt, "a form")
}

fn block(alloc: Global, rt: &impl Abort, bytes: &[u8]) -> Block {
    Block::from_slice(alloc, bytes).expect(rt, "memory")
}

// A write of four bytes that are all this one.
fn write(alloc: Global, rt: &impl Abort, id: u32, byte: u8) -> Op {
    Op::Write(id, block(alloc, rt, &[byte; 4]))
}

// Turns the bits of a mask in one byte.
fn turn(rt: &impl Abort, path: &mut Image, at: usize, mask: u8) {
    assert!(rt; at < path.as_slice().len());
    path.as_mut_slice()[at] ^= mask;
}

// An order that sends nothing.
fn no_order(alloc: Global) -> Order {
    Order {
        version: 0,
        nonce: 0,
        nodes: Numbers::new(alloc),
        image: Image::new(alloc),
    }
}

// A desk with these first values and words, under the key of zeros.
fn start(
    alloc: Global,
    rt: &impl Abort,
    p: Params,
    words: &[u32],
    blocks: Blocks,
) -> Result<Desk<ListTape>, StartFault> {
    assert!(rt; words.len() >= p.n() as usize);
    let words = Numbers::from_slice(alloc, words).expect(rt, "memory");
    Desk::start(alloc, p, [0; 32], ListTape::new(words), blocks)
}

// A session whose blocks all have this first value.
fn begin(
    alloc: Global,
    rt: &impl Abort,
    p: Params,
    words: &[u32],
    value: &[u8],
) -> Session<ListTape> {
    let mut blocks = Blocks::new(alloc);
    for _ in 0..p.n() {
        blocks.push(block(alloc, rt, value)).expect(rt, "memory");
    }
    let desk = start(alloc, rt, p, words, blocks).expect(rt, "a desk");
    Session::behind(alloc, rt, desk)
}

// A desk and the server behind it. Clauses see nothing of them, and tests let them go by `drop`: both keep the proofs of the tests small.
#[derive(Drop)]
struct Session<T: Tape + Drop> {
    desk: Desk<T>,
    server: Server,
}

impl<T: Tape + Drop> Model for Session<T> {
    ghost use Rattle.std.specs.Prelude.{⊤};

    ghost Value = { ⊤ };

    ghost view = { λ _. tt };
}

impl<T: Tape + Drop> Session<T> {
    // The session of a desk, whose load is sent.
    fn behind(alloc: Global, rt: &impl Abort, desk: Desk<T>) -> Session<T> {
        assert!(rt; 0 < desk.params().nodes());
        let mut load = no_order(alloc);
        desk.load_part(0, &mut load).expect(rt, "memory");
        let server = Server::loaded(alloc, rt, desk.params().bucket_len() as usize, &load);
        Session { desk, server }
    }

    // An operation of client 0 arrives.
    fn arrive(&mut self, rt: &impl Abort, op: Op) -> Ask {
        self.desk.arrive(0, op).expect(rt, "an ask")
    }

    fn refuses(&mut self, op: Op, fault: ArriveFault) -> bool {
        self.desk.arrive(0, op).err() == Some(fault)
    }

    // The buckets of these nodes, as they were stored last.
    fn path(&self, rt: &impl Abort, nodes: &[u32]) -> Image {
        self.server.path(rt, nodes)
    }

    // A fetch is answered by this path.
    fn done(
        &mut self,
        rt: &impl Abort,
        ask: Ask,
        path: &Image,
    ) -> Result<Option<Order>, DoneFault> {
        let p = self.desk.params();
        let len = (p.l() as usize + 1) * p.bucket_len() as usize;
        assert!(rt; path.as_slice().len() == len);
        self.desk.done(ask, path.as_slice())
    }

    // A fetch is answered by this path, which is taken.
    fn answer(&mut self, rt: &impl Abort, ask: Ask, path: &Image) -> Option<Order> {
        self.done(rt, ask, path)
            .expect(rt, "an answer that is taken")
    }

    fn refuses_answer(
        &mut self,
        rt: &impl Abort,
        ask: Ask,
        path: &Image,
        fault: DoneFault,
    ) -> bool {
        self.done(rt, ask, path).err() == Some(fault)
    }

    // Answers a fetch of the path of these nodes as the server has it, and stores what is then written back. The version of that is told,
    // and 0 where nothing is written back.
    fn serve(&mut self, rt: &impl Abort, ask: Ask, nodes: &[u32]) -> u32 {
        assert!(rt; self.leads_to_leaf(nodes, ask.leaf()));
        let path = self.path(rt, nodes);
        match self.answer(rt, ask, &path) {
            Some(order) => {
                self.server.store(rt, &order);
                order.version
            }
            None => 0,
        }
    }

    fn leads_to_leaf(&self, nodes: &[u32], leaf: u32) -> bool {
        let node = (1 << self.desk.params().l()) + u64::from(leaf);
        nodes.last().map(|last| u64::from(*last)) == Some(node)
    }

    // An operation of client 0 arrives, and its fetch is served.
    fn access(&mut self, rt: &impl Abort, op: Op, nodes: &[u32]) -> u32 {
        let ask = self.arrive(rt, op);
        self.serve(rt, ask, nodes)
    }

    fn acked(&mut self, rt: &impl Abort, version: u32) {
        self.desk.acked(version).expect(rt, "an acknowledgement");
    }

    fn refuses_ack(&mut self, version: u32, fault: AckFault) -> bool {
        self.desk.acked(version).err() == Some(fault)
    }

    fn fail(&mut self, link: u32) {
        self.desk.fail(link);
    }

    fn is_down(&self) -> bool {
        self.desk.down().is_some()
    }

    fn is_down_by(&self, cause: Cause) -> bool {
        self.desk.down() == Some(cause)
    }

    fn order_again(&self, rt: &impl Abort, version: u32, out: &mut Order) {
        self.desk.order_again(version, out).expect(rt, "an order");
    }

    fn refuses_again(&self, version: u32, out: &mut Order, fault: AgainFault) -> bool {
        self.desk.order_again(version, out).err() == Some(fault)
    }

    fn is_issued(&self, rt: &impl Abort, order: &Order) -> bool {
        assert!(rt; self.desk.params().bucket_len() <= 128);
        self.desk.is_issued(order, &mut [0; 128])
    }

    // Whether an arrival is answered, and by this value.
    fn is_answered(&self, arrival: u64, value: &[u8]) -> bool {
        match self.desk.reply(arrival) {
            Some(reply) => reply.as_slice() == value,
            None => false,
        }
    }

    fn released(&self) -> u64 {
        self.desk.released()
    }

    fn is_resident(&self, node: u32) -> bool {
        self.desk.is_resident(node)
    }

    fn residents(&self) -> usize {
        self.desk.residents()
    }

    fn is_first_outstanding(&self, version: u32) -> bool {
        self.desk.first_outstanding() == Some(version)
    }

    fn events(&self) -> usize {
        self.desk.history().events().len()
    }

    // The closing scan; or the session comes back.
    fn begin_scan(self) -> Result<Closing<T>, (Session<T>, ScanFault)> {
        let Session { desk, server } = self;
        match desk.begin_scan() {
            Ok(scan) => Ok(Closing { scan, server }),
            Err((desk, fault)) => Err((Session { desk, server }, fault)),
        }
    }

    // The closing scan.
    fn close(self, rt: &impl Abort) -> Closing<T> {
        match self.begin_scan() {
            Ok(scan) => scan,
            Err(_) => panic!(rt; "the scan is refused"),
        }
    }

    // Why the scan can't begin, with the session as it was.
    fn refused_scan(self, rt: &impl Abort) -> (Session<T>, ScanFault) {
        let events = self.events();
        match self.begin_scan() {
            Ok(_) => panic!(rt; "the scan begins"),
            Err((desk, fault)) => {
                assert!(rt; desk.events() == events);
                (desk, fault)
            }
        }
    }
}

// A closing scan and the server behind it. Clauses know that it isn't past the last leaf, and no more.
#[derive(Drop)]
struct Closing<T: Tape + Drop> {
    scan: Scan<T>,
    server: Server,
}

impl<T: Tape + Drop> Model for Closing<T> {
    ghost use Rattle.std.specs.Prelude.{⊤, ◌≤◌, ◌^◌};

    ghost Value = { ⊤ };

    ghost view = { λ _. tt };

    ghost invariant = { λ c. c.scan.next ≤ 2 ^ c.scan.desk.history.opening.shape.l };
}

impl<T: Tape + Drop> Closing<T> {
    fn is_next(&self, leaf: u32) -> bool {
        self.scan.next_leaf() == Some(leaf)
    }

    // The next leaf's path is this one.
    fn path(&mut self, rt: &impl Abort, path: &Image) -> Result<(), DoneFault> {
        assert!(rt; self.scan.next_leaf().is_some());
        let p = self.scan.history().params();
        let len = (p.l() as usize + 1) * p.bucket_len() as usize;
        assert!(rt; path.as_slice().len() == len);
        self.scan.path(path.as_slice())
    }

    fn read(&mut self, rt: &impl Abort, path: &Image) {
        self.path(rt, path).expect(rt, "a path that is taken");
    }

    fn refuses(&mut self, rt: &impl Abort, path: &Image, fault: DoneFault) -> bool {
        self.path(rt, path).err() == Some(fault)
    }

    // The next leaf's path is that of these nodes, as they were stored last.
    fn read_nodes(&mut self, rt: &impl Abort, nodes: &[u32]) {
        let path = self.server.path(rt, nodes);
        self.read(rt, &path);
    }

    // The final array is this one.
    fn check_array(&self, rt: &impl Abort, values: &[[u8; 4]]) {
        match self.scan.next_leaf() {
            Some(_) => panic!(rt; "a leaf is left"),
            None => check_values(rt, self.scan.array(), values),
        }
    }

    fn fail(&mut self, link: u32) {
        self.scan.fail(link);
    }

    fn is_down_by(&self, cause: Cause) -> bool {
        self.scan.down() == Some(cause)
    }

    fn events(self) -> usize {
        self.scan.into_history().events().len()
    }
}

// These values are the array.
fn check_values(rt: &impl Abort, array: &[Block], values: &[[u8; 4]]) {
    assert_eq!(rt; array.len(), values.len());
    for (block, value) in array.iter().zip(values) {
        assert!(rt; block.as_slice() == value.as_slice());
    }
}

// A server: of each node the bucket that was stored last.
#[derive(Drop)]
struct Server {
    alloc: Global,
    len: usize,
    nodes: Blocks,
}

impl Server {
    // The server that was sent the load, in buckets of this length.
    fn loaded(alloc: Global, rt: &impl Abort, len: usize, load: &Order) -> Server {
        assert!(rt; 0 < len);
        let mut nodes = Blocks::new(alloc);
        for bucket in load.image.as_slice().chunks_exact(len) {
            nodes.push(block(alloc, rt, bucket)).expect(rt, "memory");
        }
        Server { alloc, len, nodes }
    }

    // The bucket of a node.
    fn bucket(&self, rt: &impl Abort, node: u32) -> &[u8] {
        let nodes = self.nodes.as_slice();
        assert!(rt; 1 <= node && node as usize <= nodes.len());
        nodes[node as usize - 1].as_slice()
    }

    // The buckets of these nodes.
    fn path(&self, rt: &impl Abort, nodes: &[u32]) -> Image {
        let mut path = Image::new(self.alloc);
        for node in nodes {
            let bucket = self.bucket(rt, *node);
            path.extend_from_slice(bucket).expect(rt, "memory");
        }
        path
    }

    // Stores an order.
    fn store(&mut self, rt: &impl Abort, order: &Order) {
        assert!(rt; 0 < self.len);
        let mut buckets = order.image.as_slice().chunks_exact(self.len);
        for node in order.nodes.as_slice() {
            let bucket = buckets.next().expect(rt, "a bucket for each node");
            self.put(rt, *node, bucket);
        }
    }

    // Stores the bucket of a node.
    fn put(&mut self, rt: &impl Abort, node: u32, bucket: &[u8]) {
        let nodes = self.nodes.as_mut_slice();
        assert!(rt; 1 <= node && node as usize <= nodes.len());
        nodes[node as usize - 1] = block(self.alloc, rt, bucket);
    }
}
