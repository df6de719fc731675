//! Prints the lines of a record's events, one event after another.
ghost use Rattle.std.specs.Prelude.{◌≡◌, ◌+◌, ◌-◌, ◌<◌, [], ◌++◌, length, reverse, OnOk, OnErr, IfOk};
ghost use Rattle.tao_model.specs.Lawful.{FollowsLawfully};
ghost use Rattle.tao_trace.specs.Printing.{lines_at};

use crate::tables::Tables;
use std::alloc::Global;
use std::marker::Model;
use tao_base::{Image, NoMemory};
use tao_record::Record;

/// How far a record was printed. Printing a whole record takes time in its length and in that of its text: no earlier event is read
/// again.
#[derive(Debug, Drop)]
pub struct Printer<'a> {
    tables: Tables<'a>,
}

impl<'a> Model for Printer<'a> {
    ghost use Rattle.tao_trace.specs.Printing.{PrinterState};

    ghost Value = { PrinterState };

    ghost view = { λ p. p.tables };
}

impl<'a> Printer<'a> {
    ghost use Rattle.std.specs.Prelude.{◌≡◌, ◌+◌, ◌-◌, ◌<◌, [], ◌++◌, length, reverse, OnOk, OnErr, IfOk};
    ghost use Rattle.tao_model.specs.Lawful.{FollowsLawfully};
    ghost use Rattle.tao_trace.specs.Printing.{PrinterState, lines_at, at_start};

    /// A printer before the first event. The last `again` acknowledgements are of stores that were sent again at the close.
    pub fn new(alloc: Global, history: &'a Record, again: usize) -> Result<Printer<'a>, NoMemory>
        requires { FollowsLawfully history.now.history.opening (reverse history.now.history.events) }
        ensures { IfOk result (λ p. p ≡ at_start history.now.history again) }
    {
        let tables = Tables::new(alloc, history, again)?;
        Ok(Printer { tables })
    }

    /// How many events aren't printed yet.
    pub fn left(&self) -> usize
        ensures { result ≡ length self.now.history.events - self.now.place }
    {
        self.tables.left()
    }

    /// Appends the lines of the next event and goes on. Where memory runs out nothing has changed.
    pub fn print_next(&mut self, out: &mut Image) -> Result<(), NoMemory>
        requires { self.old.place < length self.old.history.events }
        ensures lines { OnOk result (out.new ≡ out.old ++ lines_at self.old.history self.old.again self.old.place) }
        ensures ok { OnOk result (self.new ≡ record self.old { place = self.old.place + 1 }) }
        ensures err { OnErr result (out.new ≡ out.old) }
        ensures stays { OnErr result (self.new ≡ self.old) }
    {
        let len = out.as_slice().len();
        match self.tables.print_next(out) {
            Ok(()) => Ok(()),
            Err(NoMemory) => {
                out.truncate(len);
                Err(NoMemory)
            }
        }
    }

    // Goes on without printing.
    fn pass_next(&mut self) -> Result<(), NoMemory>
        requires { self.old.place < length self.old.history.events }
        ensures { OnOk result (self.new ≡ record self.old { place = self.old.place + 1 }) }
    {
        self.tables.keep_next()
    }
}

/// Appends the lines of the event at a place, as if no store was sent again. The events before it are gone over first, which takes time and memory in their number.
pub fn print_event(
    alloc: Global,
    out: &mut Image,
    place: usize,
    history: &Record,
) -> Result<(), NoMemory>
    requires lawful { FollowsLawfully history.now.history.opening (reverse history.now.history.events) }
    requires place { place < length history.now.history.events }
    ensures ok { OnOk result (out.new ≡ out.old ++ lines_at history.now.history 0 place) }
    ensures err { OnErr result (out.new ≡ out.old) }
{
    let mut printer = Printer::new(alloc, history, 0)?;
    for _ in 0..place {
        printer.pass_next()?;
    }
    printer.print_next(out)
}
