//! The proxy's desk.
ghost use Rattle.std.specs.Prelude.{Some, codes};

use std::alloc::Global;
use std::fmt;
use std::marker::Model;
use tao_processor::Processor;
use tao_tape::Tape;

mod acked;
mod arrive;
mod done;
mod orders;
mod readers;
pub(crate) mod scan;
mod start;

/// A session of the proxy: its tables, and the tape of its words. Whatever the order of calls, after each of them the record is sound.
#[derive(Drop)]
pub struct Desk<T: Tape + Drop> {
    alloc: Global,
    processor: Processor,
    tape: T,
}

impl<T: Tape + Drop> Model for Desk<T> {
    ghost use Rattle.tao_desk.specs.State.{DeskState};
    ghost use Rattle.tao_desk.specs.Inside.{IsDesk};

    ghost Value = { DeskState };

    ghost view = { λ d. record { key = d.processor.key; source = T.source d.tape; history = d.processor.history; holdings = d.processor.holdings } };

    ghost invariant = { λ d. IsDesk T.word (T.source d.tape) (T.place d.tape) d.processor.history };
}

// The key is not shown.
impl<T: Tape + Drop> fmt::Debug for Desk<T> {
    ghost debug_output = { λ _. Some (codes "Desk { .. }") };

    fn fmt<W: fmt::Write>(&self, f: &mut fmt::Formatter<W>) -> fmt::Result {
        f.write_str("Desk { .. }")
    }
}
