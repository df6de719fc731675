//! The program: its commands, from the words and bytes that come in to the status and text that go out.
#![tactic(auto)]

mod arguments;
mod commands;
mod faults;
mod laws;
mod output;
mod play;
mod reading;
mod session;
mod standard;
#[cfg(test)]
mod tests;
mod transcript;
mod unbuilt;
mod writing;

pub use commands::{Kept, taostore};
pub use faults::StreamFault;
pub use laws::endings;
pub use output::End;
pub use play::play_top;
pub use session::{Played, session_of};
pub use standard::{StdSink, StdSource};
use std::env;
use std::process::ExitCode;
pub use transcript::tell_session;

fn main(rt: HostRuntime) -> ExitCode {
    let alloc = rt.alloc();
    let mut source = StdSource::new(rt.stdin());
    let mut sink = StdSink::new(rt.stdout());
    let status = match arguments::words(alloc, env::args(&rt)) {
        Ok(words) => {
            let mut kept = Kept { history: None };
            taostore(alloc, &words, &mut source, &mut sink, &mut kept)
        }
        Err(end) => output::finish(&mut sink, end),
    };
    ExitCode::from(status)
}
