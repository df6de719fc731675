//! The text of a session that was played to its end, written while it is made.
ghost use Rattle.std.specs.Prelude.{◌≡◌, ◌+◌, ◌<◌, ◌++◌, [], length, reverse, flat_map, Some, OnOk};
ghost use Rattle.std.specs.List.{range_with_len};
ghost use Rattle.tao_model.specs.Lawful.{FollowsLawfully};
ghost use Rattle.tao_model.specs.Transcript.{closing_lines, block_line};
ghost use Rattle.tao_trace.specs.Printing.{lines_before, lines_at};
ghost use Rattle.taostore.specs.Output.{TellsLines, session_lines};
ghost use Rattle.taostore.specs.Endings.{EndsAs, SessionEnds};

use crate::faults::StreamFault;
use crate::output::{End, SINK_FAILED, finish_text};
use crate::writing::put_waiting;
use std::alloc::Global;
use tao_base::{Block, Image, Sink};
use tao_record::Record;
use tao_trace::{Printer, print_block, print_opening, print_scan};

/// Writes the transcript of a record and its final array, and the end line, and answers the exit status. Only some of the text waits in
/// memory at any time. Where memory runs out, whole lines of the transcript were written, and then the end line for that.
pub fn tell_session<K: Sink>(alloc: Global, history: &Record, blocks: &[Block], sink: &mut K) -> u8
    requires { FollowsLawfully history.now.history.opening (reverse history.now.history.events) }
    ensures { EndsAs K.put K.faults sink.old sink.new (SessionEnds history.now.history blocks.now) result }
{
    let mut waiting = Image::new(alloc);
    match tell_lines(alloc, history, blocks, sink, &mut waiting) {
        Ok(()) => finish_text(sink, waiting.as_slice(), End::Done),
        Err(StreamFault::NoMemory) => finish_text(sink, waiting.as_slice(), End::NoMemory),
        Err(StreamFault::Failed) => SINK_FAILED,
    }
}

fn tell_lines<K: Sink>(
    alloc: Global,
    history: &Record,
    blocks: &[Block],
    sink: &mut K,
    waiting: &mut Image,
) -> Result<(), StreamFault>
    requires { FollowsLawfully history.now.history.opening (reverse history.now.history.events) }
    ensures { TellsLines K.put K.faults sink.old sink.new waiting.old waiting.new (session_lines history.now.history blocks.now) result }
{
    print_opening(waiting, history)?;
    tell_events(alloc, history, sink, waiting)?;
    tell_close(blocks, sink, waiting)
}

fn tell_events<K: Sink>(
    alloc: Global,
    history: &Record,
    sink: &mut K,
    waiting: &mut Image,
) -> Result<(), StreamFault>
    requires { FollowsLawfully history.now.history.opening (reverse history.now.history.events) }
    ensures { TellsLines K.put K.faults sink.old sink.new waiting.old waiting.new (lines_before history.now.history 0 (length history.now.history.events)) result }
{
    let mut printer = Printer::new(alloc, history, 0)?;
    for _ in 0..printer.left() {
        tell_event(&mut printer, sink, waiting)?;
    }
    Ok(())
}

fn tell_event<K: Sink>(
    printer: &mut Printer,
    sink: &mut K,
    waiting: &mut Image,
) -> Result<(), StreamFault>
    requires { printer.old.place < length printer.old.history.events }
    ensures lines { TellsLines K.put K.faults sink.old sink.new waiting.old waiting.new (lines_at printer.old.history printer.old.again printer.old.place) result }
    ensures next { OnOk result (printer.new ≡ record printer.old { place = printer.old.place + 1 }) }
{
    printer.print_next(waiting)?;
    put_waiting(sink, waiting)?;
    Ok(())
}

fn tell_close<K: Sink>(
    blocks: &[Block],
    sink: &mut K,
    waiting: &mut Image,
) -> Result<(), StreamFault>
    ensures { TellsLines K.put K.faults sink.old sink.new waiting.old waiting.new (closing_lines (Some blocks.now)) result }
{
    print_scan(waiting)?;
    tell_blocks(blocks, sink, waiting)
}

fn tell_blocks<K: Sink>(
    blocks: &[Block],
    sink: &mut K,
    waiting: &mut Image,
) -> Result<(), StreamFault>
    ensures { TellsLines K.put K.faults sink.old sink.new waiting.old waiting.new (flat_map (block_line blocks.now) (range_with_len 0 (length blocks.now))) result }
{
    for id in 0..blocks.len() {
        tell_block(blocks, id, sink, waiting)?;
    }
    Ok(())
}

fn tell_block<K: Sink>(
    blocks: &[Block],
    id: usize,
    sink: &mut K,
    waiting: &mut Image,
) -> Result<(), StreamFault>
    requires { id < length blocks.now }
    ensures { TellsLines K.put K.faults sink.old sink.new waiting.old waiting.new (block_line blocks.now id) result }
{
    print_block(waiting, blocks, id)?;
    put_waiting(sink, waiting)?;
    Ok(())
}
