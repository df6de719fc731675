//! The command `play`, which plays a script.
ghost use Rattle.std.specs.Prelude.{◌≡◌, ◌^◌, ◌+◌, None, IsNone, IfOk, IfErr};
ghost use Rattle.tao_text.specs.Texts.{IsScript};
ghost use Rattle.taostore.specs.Endings.{EndsAs, PlayEnds, ScriptEnds, PlayedEnds, IsLawfullyPlayed, TakesPlayed, kept_history, end_line, IsEndOf};
ghost use Rattle.taostore.specs.Unbuilt.{IsPlayable};

use crate::commands::Kept;
use crate::faults::StreamFault;
use crate::output::{End, finish};
use crate::reading::take_all;
use crate::session::{Played, session_of};
use crate::transcript::tell_session;
use crate::unbuilt::unbuilt_line;
use std::alloc::Global;
use tao_base::{Sink, Source};
use tao_text::{Script, TextFault, TextKind, read_script};

/// The bytes of the longest script.
const MAX_SCRIPT: usize = 1 << 24;

/// Takes a script from the source and plays it, writes its transcript, and answers the exit status. The record is kept. Where memory runs
/// out, the end line for that stands behind whole lines of the transcript; before all was played there are none.
pub fn play_top<S: Source, K: Sink>(
    alloc: Global,
    source: &mut S,
    sink: &mut K,
    kept: &mut Kept,
) -> u8
    requires { IsNone kept.old.history }

    ensures { EndsAs K.put K.faults sink.old sink.new
        (PlayEnds S.left S.faults source.old source.new (kept_history kept.new.history)) result }
{
    match take_script(alloc, source) {
        Ok(script) => play_script(alloc, script, sink, kept),
        Err(end) => finish(sink, end),
    }
}

#[tactic(auto, using(crate::proofs::Breaks::ends_unread))]
// The script that the source has left.
fn take_script<S: Source>(alloc: Global, source: &mut S) -> Result<Script, End>
    ensures taken { IfOk result (TakesPlayed S.left S.faults source.old source.new) }
    ensures limits { IfOk result IsScript }
    ensures playable { IfOk result IsPlayable }
    ensures err { IfErr result (λ end. PlayEnds S.left S.faults source.old source.new None end (end_line end)) }
{
    let bytes = match take_all(alloc, source, MAX_SCRIPT + 1) {
        Ok(bytes) => bytes,
        Err(StreamFault::Failed) => return Err(End::SourceFailed),
        Err(StreamFault::NoMemory) => return Err(End::NoMemory),
    };
    let script = match read_script(alloc, bytes.as_slice()) {
        Ok(script) => script,
        Err(fault) => return Err(end_of(fault)),
    };
    match unbuilt_line(&script) {
        Some(line) => Err(End::Unbuilt(line)),
        None => Ok(script),
    }
}

// How a call ends whose text wasn't read.
fn end_of(fault: TextFault) -> End
    ensures { IsEndOf fault result }
{
    match fault.kind {
        TextKind::Memory => End::NoMemory,
        _ => End::Broken(fault),
    }
}

// Plays a script, writes its transcript and keeps its record.
fn play_script<K: Sink>(alloc: Global, script: Script, sink: &mut K, kept: &mut Kept) -> u8
    requires none { IsNone kept.old.history }
    requires script { IsScript script }
    requires playable { IsPlayable script }
    ensures { EndsAs K.put K.faults sink.old sink.new (ScriptEnds script (kept_history kept.new.history)) result }
{
    finish_played(alloc, session_of(alloc, script), sink, kept)
}

/// Writes what playing came to, and keeps its record, whatever the status is.
pub(crate) fn finish_played<K: Sink>(
    alloc: Global,
    played: Played,
    sink: &mut K,
    kept: &mut Kept,
) -> u8
    requires none { IsNone kept.old.history }
    requires lawful { IsLawfullyPlayed played }
    ensures { EndsAs K.put K.faults sink.old sink.new (PlayedEnds played (kept_history kept.new.history)) result }
{
    match played {
        Played::Whole(session, blocks) => {
            let status = tell_session(alloc, &session, blocks.as_slice(), sink);
            kept.history = Some(session);
            status
        }
        Played::Part(session) => {
            kept.history = Some(session);
            finish(sink, End::NoMemory)
        }
        Played::Nothing => finish(sink, End::NoMemory),
    }
}
