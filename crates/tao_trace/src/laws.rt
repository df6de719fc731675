//! Laws: the lines that are printed one after another are the transcript.
ghost use Rattle.tao_trace.specs.Printing.{LinesGoOn, TextIsPrinted};
ghost use Rattle.tao_trace.specs.WholeLines.{LinesAreWhole};

/// One event more has its lines behind those of the events before.
pub fn lines_go_on()
    ensures { LinesGoOn }
{}

/// The opening, the lines of all events and the close are the transcript, however many stores were sent again.
pub fn text_is_printed()
    ensures { TextIsPrinted }
{}

/// The opening, the lines of each event, and those of the close are whole lines.
pub fn lines_are_whole()
    ensures { LinesAreWhole }
{}
