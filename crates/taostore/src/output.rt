//! The end of an output: its last line, and the status that goes with it.
ghost use Rattle.std.specs.Prelude.{◌≡◌, ◌++◌, OnOk, OnErr};
ghost use Rattle.tao_base.specs.Transfers.{PutsAll, PutsPart};
ghost use Rattle.taostore.specs.Output.{Finishes};
ghost use Rattle.taostore.specs.Endings.{break_line, end_line, status_of};

use crate::writing::put_pieces;
use itoa::Buffer;
use tao_base::{Failed, Sink, write_all};
use tao_text::TextFault;

/// How a call ends where its sink takes all.
#[derive(Clone, Copy, Debug, PartialEq, Eq)]
pub enum End {
    /// The whole script was played.
    Done,
    /// The words ask for nothing that the program does.
    Refused,
    /// The source holds no script: its first break.
    Broken(TextFault),
    /// The script has something that can't be played yet, first on this line.
    Unbuilt(u32),
    /// The source has failed.
    SourceFailed,
    /// Memory ran out.
    NoMemory,
}

/// The status of a call whose sink has failed. It has no end line.
pub const SINK_FAILED: u8 = 5;

impl End {
    /// The exit status.
    pub fn status(self) -> u8
        ensures { result ≡ status_of self }
    {
        match self {
            End::Done => 0,
            End::Refused => 2,
            End::Broken(_) | End::Unbuilt(_) => 3,
            End::SourceFailed => 4,
            End::NoMemory => 8,
        }
    }
}

/// Writes the end line, and answers the exit status: that of the end, or another one where the sink fails.
pub fn finish<K: Sink>(sink: &mut K, end: End) -> u8
    ensures { Finishes K.put K.faults sink.old sink.new (status_of end) (end_line end) result }
{
    finish_text(sink, &[], end)
}

/// Writes the text that is left and the end line, and answers the exit status.
pub fn finish_text<K: Sink>(sink: &mut K, text: &[u8], end: End) -> u8
    ensures { Finishes K.put K.faults sink.old sink.new (status_of end) (text.now ++ end_line end) result }
{
    match put_text_and_end(sink, text, end) {
        Ok(()) => end.status(),
        Err(_) => SINK_FAILED,
    }
}

#[tactic(auto, using(tao_base::proofs::TransferLemmas::puts_then, tao_base::proofs::TransferLemmas::part_of_more, tao_base::proofs::TransferLemmas::part_then))]
fn put_text_and_end<K: Sink>(sink: &mut K, text: &[u8], end: End) -> Result<(), Failed>
    ensures ok { OnOk result (PutsAll K.put K.faults sink.old sink.new (text.now ++ end_line end)) }
    ensures err { OnErr result (PutsPart K.put K.faults sink.old sink.new (text.now ++ end_line end)) }
{
    write_all(sink, text)?;
    put_end(sink, end)
}

// The last line of the output.
fn put_end<K: Sink>(sink: &mut K, end: End) -> Result<(), Failed>
    ensures ok { OnOk result (PutsAll K.put K.faults sink.old sink.new (end_line end)) }
    ensures err { OnErr result (PutsPart K.put K.faults sink.old sink.new (end_line end)) }
{
    match end {
        End::Done => write_all(sink, b"end 0\n"),
        End::Refused => write_all(sink, b"end 2\n"),
        End::Broken(fault) => put_break(sink, fault.line, fault.kind.name()),
        End::Unbuilt(line) => put_break(sink, line, "Unbuilt"),
        End::SourceFailed => write_all(sink, b"end 4\n"),
        End::NoMemory => write_all(sink, b"end 8\n"),
    }
}

// The end line of a script that isn't played: the number of a line, and a name.
fn put_break<K: Sink>(sink: &mut K, line: u32, name: &str) -> Result<(), Failed>
    ensures ok { OnOk result (PutsAll K.put K.faults sink.old sink.new (break_line line name.now)) }
    ensures err { OnErr result (PutsPart K.put K.faults sink.old sink.new (break_line line name.now)) }
{
    let mut digits = Buffer::new();
    let number = digits.format(line).as_bytes();
    put_pieces(sink, &[b"end 3 ", number, b" ", name.as_bytes(), b"\n"])
}
