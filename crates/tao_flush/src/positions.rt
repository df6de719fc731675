//! The positions of the blocks: the tape word of each, and the leaf that it stands for.
ghost use Rattle.std.specs.Prelude.{◌≡◌, ◌^◌, ◌<◌, length, IfOk, slice_set};

use std::alloc::Global;
use std::marker::Model;
use tao_base::{NoMemory, Params};

/// The tape word of each block. A block's leaf is its word modulo the number of leaves.
#[derive(Debug, Drop)]
pub struct Positions {
    p: Params,
    words: Vec<u32>,
}

impl Model for Positions {
    ghost use Rattle.std.specs.Prelude.{◌≡◌, vec_len};
    ghost use Rattle.tao_base.specs.Limits.{IsShape};
    ghost use Rattle.tao_flush.specs.State.{PositionsState};

    ghost Value = { PositionsState };

    ghost view = { λ it. record { shape = it.p; words = it.words.items } };

    ghost invariant = { λ it. IsShape it.p × (vec_len it.words ≡ it.p.n) };
}

impl Positions {
    ghost use Rattle.tao_flush.specs.State.{leaf_in};

    /// The first positions: word b is that of block b.
    pub fn new(alloc: Global, p: &Params, words: &[u32]) -> Result<Positions, NoMemory>
        requires { length words.now ≡ p.now.n }
        ensures { IfOk result (λ positions. positions ≡ record { shape = p.now; words = words.now }) }
    {
        // tells the prover that the parameters are within their limits
        let _within = p.l();
        Ok(Positions {
            p: *p,
            words: Vec::from_slice(alloc, words)?,
        })
    }

    /// The leaf that the block is assigned to.
    pub fn leaf(&self, block: u32) -> u32
        requires { block < self.now.shape.n }
        ensures value { result ≡ leaf_in self.now block }
        ensures leaf { result < 2 ^ self.now.shape.l }
        ensures count { length self.now.words ≡ self.now.shape.n }
    {
        self.words[block as usize] % (1 << self.p.l())
    }

    /// Gives the block another word.
    pub fn set(&mut self, block: u32, word: u32)
        requires { block < self.old.shape.n }
        ensures { self.new ≡ record self.old { words = slice_set self.old.words block word } }
    {
        self.words[block as usize] = word;
    }
}
