//! Answers that are read from a stream, however it is chunked. Of any other frame nothing behind its length field is read.
ghost use Rattle.std.specs.Prelude.{◌≡◌, ◌+◌, ◌-◌, ◌^◌, ◌<◌, ◌≤◌, ◌++◌, length, drop, IfOk, OnErr, MatchBool};
ghost use Rattle.std.specs.Int.{w32, to_be_bytes};
ghost use Rattle.std.specs.Io.KnownBytes.{Consumes};
ghost use Rattle.tao_base.specs.Causes.{HasCause};
ghost use Rattle.tao_base.specs.Transfers.{ConsumesFewer};
ghost use Rattle.tao_wire.specs.Frames.{frame};
ghost use Rattle.tao_wire.specs.declared.message.Message.TheVariants.{Path, Stored};
ghost use Rattle.tao_tree.specs.Streams.{ConsumesOther, ConsumesWrong, AnswersFetch, AnswersStore};

use tao_base::{Failed, Source, are_same, fill};
use tao_wire::{length_bytes, path_head, stored_content};

/// Reads the answer to a fetch, and says whether it is one; the path then stands behind kind byte and id.
pub(crate) fn receive_path<S: Source>(
    source: &mut S,
    content: &mut [u8],
    id: u64,
) -> Result<bool, Failed>
    requires low { 9 ≤ length content.old }
    requires high { length content.old < 2 ^ 32 }
    ensures came { IfOk result (λ right. MatchBool right
        (Consumes (S.left source.old) (S.left source.new) (frame (Path id (drop 9 content.new))))
        (ConsumesWrong (S.left source.old) (S.left source.new) (AnswersFetch id (length content.new - 9)) (length content.new))) }
    ensures err { OnErr result (ConsumesFewer (S.left source.old) (S.left source.new) (4 + length content.old)) }
    ensures cause { HasCause (S.faults source.old) (S.faults source.new) result }
{
    if !receive(source, content)? {
        return Ok(false);
    }
    Ok(are_same(&content[..9], &path_head(id)))
}

/// Reads the answer to a store, and says whether it is one.
pub(crate) fn receive_stored<S: Source>(source: &mut S, version: u32) -> Result<bool, Failed>
    ensures came { IfOk result (λ right. MatchBool right
        (Consumes (S.left source.old) (S.left source.new) (frame (Stored version)))
        (ConsumesWrong (S.left source.old) (S.left source.new) (AnswersStore version) 5)) }
    ensures err { OnErr result (ConsumesFewer (S.left source.old) (S.left source.new) (4 + 5)) }
    ensures cause { HasCause (S.faults source.old) (S.faults source.new) result }
{
    let mut content = [0; 5];
    if !receive(source, &mut content)? {
        return Ok(false);
    }
    Ok(are_same(&content, &stored_content(version)))
}

// Reads a frame whose content is as long as the room, and says whether one came.
fn receive<S: Source>(source: &mut S, content: &mut [u8]) -> Result<bool, Failed>
    requires { length content.old < 2 ^ 32 }
    ensures came { IfOk result (λ whole. MatchBool whole
        (Consumes (S.left source.old) (S.left source.new) (to_be_bytes w32 (length content.new) ++ content.new))
        (ConsumesOther (S.left source.old) (S.left source.new) (length content.new))) }
    ensures err { OnErr result (ConsumesFewer (S.left source.old) (S.left source.new) (4 + length content.old)) }
    ensures cause { HasCause (S.faults source.old) (S.faults source.new) result }
{
    let mut field = [0; 4];
    if fill(source, &mut field)? < 4 {
        return Ok(false);
    }
    if !are_same(&field, &length_bytes(content.len() as u32)) {
        return Ok(false);
    }
    let n = fill(source, content)?;
    Ok(n == content.len())
}
