//! The tape of a key.
ghost use Rattle.std.specs.Prelude.{◌≡◌, ◌+◌, ◌≤◌, Some, codes};
ghost use Rattle.tao_tape.specs.Tapes.{drawn, key_word, key_left};

use crate::tape::Tape;
use rand_chacha::ChaCha20Rng;
use rand_core::SeedableRng;
use rand_core::utils::NextWord;
use std::fmt;
use std::marker::Model;

/// The words of stream 0 of a key: those of ChaCha20 (RFC 8439), with 64 bits for the block counter. There are 2^64 - 1.
#[derive(Drop)]
pub struct KeyTape {
    key: [u8; 32],
    words: ChaCha20Rng,
}

impl Model for KeyTape {
    ghost use Rattle.std.specs.Prelude.{◌≡◌, ◌-◌, ◌^◌, ◌≤◌};
    ghost use Rattle.rand_chacha.specs.ChaCha.{key_of};
    ghost use Rattle.tao_tape.specs.Tapes.{Drawn, drawn};

    ghost Value = { Drawn };

    ghost view = { λ t. drawn t.key t.words.word_pos };

    ghost invariant = { λ t. (t.words.key ≡ key_of t.key) × (t.words.stream ≡ 0) × (t.words.word_pos ≤ 2 ^ 64 - 1) };
}

impl KeyTape {
    /// The tape at its first word.
    pub fn new(key: [u8; 32]) -> KeyTape
        ensures { result ≡ drawn key 0 }
    {
        KeyTape {
            key,
            words: ChaCha20Rng::from_seed(key),
        }
    }
}

impl Tape for KeyTape {
    ghost place = { λ t. t.place };

    ghost source = { λ t. t.source };

    ghost word = { key_word };

    ghost left = { key_left };

    fn next(&mut self) -> u32 {
        self.words.next_word()
    }

    fn left(&self) -> u64 {
        u64::MAX - self.words.get_word_pos() as u64
    }
}

// The key is not shown.
impl fmt::Debug for KeyTape {
    ghost debug_output = { λ _. Some (codes "KeyTape { .. }") };

    fn fmt<W: fmt::Write>(&self, f: &mut fmt::Formatter<W>) -> fmt::Result {
        f.write_str("KeyTape { .. }")
    }
}
