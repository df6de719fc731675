//! The commands by their words.
ghost use Rattle.std.specs.Prelude.{◌↔◌, map, IsNone, IsTrue, string_bytes};
ghost use Rattle.taostore.specs.Endings.{EndsAs, PlayEnds, RefusedEnds, kept_history};
ghost use Rattle.taostore.specs.Words.{AskToPlay, AreRefused};

use crate::output::{End, finish};
use crate::play::play_top;
use std::alloc::Global;
use tao_base::{Sink, Source};
use tao_record::Record;

/// What a command leaves beside its output: the record of the session that ran.
#[derive(Debug, Drop)]
pub struct Kept {
    /// Whether or not the output failed, it is the whole record, or, if memory ran out while it was played, that of the first steps or none.
    pub history: Option<Record>,
}

/// Does what the words after the program's name ask for, and answers the exit status.
pub fn taostore<S: Source, K: Sink>(
    alloc: Global,
    words: &[String],
    source: &mut S,
    sink: &mut K,
    kept: &mut Kept,
) -> u8
    requires { IsNone kept.old.history }

    ensures refused { AreRefused (map string_bytes words.now)
        → EndsAs K.put K.faults sink.old sink.new
        (RefusedEnds S.left S.faults source.old source.new (kept_history kept.new.history)) result }
    ensures play { AskToPlay (map string_bytes words.now)
        → EndsAs K.put K.faults sink.old sink.new
        (PlayEnds S.left S.faults source.old source.new (kept_history kept.new.history)) result }
{
    if is_play(words) {
        play_top(alloc, source, sink, kept)
    } else {
        finish(sink, End::Refused)
    }
}

// Whether the words are the one word `play`.
fn is_play(words: &[String]) -> bool
    ensures { IsTrue result ↔ AskToPlay (map string_bytes words.now) }
{
    match words {
        [word] => word.as_str() == "play",
        _ => false,
    }
}
