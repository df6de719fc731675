//! The tape of a list.
ghost use Rattle.std.specs.Prelude.{◌≡◌, ◌+◌, ◌≤◌};
ghost use Rattle.tao_tape.specs.Tapes.{drawn, list_word, list_left};

use crate::tape::Tape;
use std::marker::Model;
use tao_base::Numbers;

/// Words that are listed, as in a script.
#[derive(Debug, Drop)]
pub struct ListTape {
    words: Numbers,
    at: usize,
}

impl Model for ListTape {
    ghost use Rattle.std.specs.Prelude.{◌≤◌, length};
    ghost use Rattle.tao_tape.specs.Tapes.{Drawn, drawn};

    ghost Value = { Drawn };

    ghost view = { λ t. drawn t.words t.at };

    ghost invariant = { λ t. t.at ≤ length t.words };
}

impl ListTape {
    /// The tape at its first word.
    pub fn new(words: Numbers) -> ListTape
        ensures { result ≡ drawn words 0 }
    {
        ListTape { words, at: 0 }
    }
}

impl Tape for ListTape {
    ghost place = { λ t. t.place };

    ghost source = { λ t. t.source };

    ghost word = { list_word };

    ghost left = { list_left };

    fn next(&mut self) -> u32 {
        let word = self.words.as_slice()[self.at];
        self.at += 1;
        word
    }

    fn left(&self) -> u64 {
        (self.words.as_slice().len() - self.at) as u64
    }
}
