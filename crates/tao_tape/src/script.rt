//! A tape of either kind.
ghost use Rattle.std.specs.Prelude.{◌≡◌, ◌+◌, ◌≤◌};
ghost use Rattle.tao_tape.specs.Tapes.{either_word, either_left};

use crate::key::KeyTape;
use crate::list::ListTape;
use crate::tape::Tape;

/// The tape of a key or of a list, whichever the text asks for.
#[derive(Debug, Drop)]
pub enum ScriptTape {
    Key(KeyTape),
    Words(ListTape),
}

impl Tape for ScriptTape {
    ghost use Rattle.tao_tape.specs.Script.{script_source, script_place};

    ghost place = { script_place };

    ghost source = { script_source };

    ghost word = { either_word };

    ghost left = { either_left };

    fn next(&mut self) -> u32 {
        match self {
            ScriptTape::Key(tape) => tape.next(),
            ScriptTape::Words(tape) => tape.next(),
        }
    }

    fn left(&self) -> u64 {
        match self {
            ScriptTape::Key(tape) => tape.left(),
            ScriptTape::Words(tape) => tape.left(),
        }
    }
}
