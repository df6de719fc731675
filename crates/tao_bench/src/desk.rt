//! Whole accesses: an arrival, its path from a tree in memory, its reply, and its write-back.
ghost use Rattle.std.specs.Prelude.{◌≡◌, ◌+◌, ◌*◌};
ghost use Rattle.tao_base.specs.Limits.{bucket_len};

use crate::flush::mixed;
use anyhow::ensure;
use std::alloc::Global;
use std::marker::Model;
use tao_base::{Block, Blocks, Image, NoMemory, Numbers, Op, Order, Params};
use tao_desk::{Ask, Desk};
use tao_tape::KeyTape;
use tao_tree::{Tree, read_path};

/// In a tree of this height that is half full of blocks of 64 bytes, this many accesses, each with a write-back.
pub(crate) fn checksum(alloc: Global, height: u32, count: u32) -> Result<u64, anyhow::Error> {
    ensure!(height <= 16, "the tree is too high");
    let p = Params::new(height, 4, 64, 4 << height, 1)?;
    let mut session = Session::start(alloc, p)?;
    session.load(alloc)?;
    let mut sum = 0u64;
    for i in 0..count {
        sum = sum.wrapping_add(session.access(alloc, i)?);
    }
    Ok(sum)
}

// A desk, its server's tree, and room for a path. Clauses see nothing of them.
#[derive(Drop)]
struct Session {
    desk: Desk<KeyTape>,
    tree: Tree,
    path: Vec<u8>,
}

impl Model for Session {
    ghost use Rattle.std.specs.Prelude.{⊤};

    ghost Value = { ⊤ };

    ghost view = { λ _. tt };
}

impl Session {
    fn start(alloc: Global, p: Params) -> Result<Session, anyhow::Error> {
        Ok(Session {
            desk: start_desk(alloc, p)?,
            tree: Tree::new(alloc, &p)?,
            path: vec![in alloc; 0; path_len(&p)]?,
        })
    }

    // Stores the load.
    fn load(&mut self, alloc: Global) -> Result<(), anyhow::Error> {
        let mut order = Order {
            version: 0,
            nonce: 0,
            nodes: Numbers::new(alloc),
            image: Image::new(alloc),
        };
        for part in 0..self.desk.params().nodes().div_ceil(256) {
            self.load_part(part, &mut order)?;
        }
        Ok(())
    }

    fn load_part(&mut self, part: u32, order: &mut Order) -> Result<(), anyhow::Error> {
        let nodes = self.desk.params().nodes();
        ensure!(part < nodes.div_ceil(256), "there is no such part");
        self.desk.load_part(part, order)?;
        self.store(order)
    }

    // Access i reads or writes one block in turn, and gives the sum of its reply's bytes.
    fn access(&mut self, alloc: Global, i: u32) -> Result<u64, anyhow::Error> {
        let op = self.operation(alloc, i)?;
        let ask = self.desk.arrive(0, op)?;
        let arrival = ask.arrival();
        self.read(&ask)?;
        self.answer(ask)?;
        Ok(self.sum_of_reply(arrival))
    }

    fn operation(&self, alloc: Global, i: u32) -> Result<Op, NoMemory> {
        let block = mixed(i) % self.desk.params().n();
        if i % 2 == 0 {
            return Ok(Op::Read(block));
        }
        Ok(Op::Write(block, Block::from_vec(vec![in alloc; 7; 64]?)))
    }

    // Reads the path that was asked for.
    fn read(&mut self, ask: &Ask) -> Result<(), anyhow::Error> {
        let p = self.tree.params();
        ensure!(ask.leaf() < 1 << p.l(), "there is no such leaf");
        ensure!(self.path.len() == path_len(p), "the room is no path");
        read_path(&self.tree, ask.leaf(), &mut self.path);
        Ok(())
    }

    // The path reaches the desk, and what it then writes back is stored and acknowledged.
    fn answer(&mut self, ask: Ask) -> Result<(), anyhow::Error> {
        ensure!(
            self.path.len() == path_len(self.desk.params()),
            "the answer is no path"
        );
        match self.desk.done(ask, self.path.as_slice())? {
            Some(order) => {
                self.store(&order)?;
                self.desk.acked(order.version)?;
            }
            None => {}
        }
        Ok(())
    }

    fn store(&mut self, order: &Order) -> Result<(), anyhow::Error> {
        let len = self.tree.params().bucket_len() as usize;
        ensure!(len > 0, "a bucket is empty");
        let buckets = order.image.as_slice().chunks_exact(len);
        for (node, bucket) in order.nodes.as_slice().iter().zip(buckets) {
            self.apply(order.version, *node, bucket)?;
        }
        Ok(())
    }

    fn apply(&mut self, version: u32, node: u32, bucket: &[u8]) -> Result<(), anyhow::Error> {
        let p = self.tree.params();
        ensure!(1 <= node && node <= p.nodes(), "there is no such node");
        ensure!(
            bucket.len() == p.bucket_len() as usize,
            "a bucket has another length"
        );
        self.tree.apply(version, node, bucket);
        Ok(())
    }

    fn sum_of_reply(&self, arrival: u64) -> u64 {
        let mut sum = 0u64;
        match self.desk.reply(arrival) {
            Some(reply) => {
                for byte in reply.as_slice() {
                    sum = sum.wrapping_add(u64::from(*byte));
                }
            }
            None => {}
        }
        sum
    }
}

fn path_len(p: &Params) -> usize
    ensures { result ≡ (p.now.l + 1) * bucket_len p.now }
{
    (p.l() as usize + 1) * p.bucket_len() as usize
}

fn start_desk(alloc: Global, p: Params) -> Result<Desk<KeyTape>, anyhow::Error> {
    let mut blocks = Blocks::new(alloc);
    for _ in 0..p.n() {
        blocks.push(Block::from_vec(vec![in alloc; 7; p.b() as usize]?))?;
    }
    let tape = KeyTape::new([7; 32]);
    Ok(Desk::start(alloc, p, [7; 32], tape, blocks)?)
}
