//! The transcript of a record: the text that tells a whole session, line by line. The requests of a record, as the server sees them,
//! and what it came to in numbers.
#![tactic(auto)]

mod close;
mod counts;
mod events;
mod laws;
mod lines;
mod opening;
mod places;
mod printer;
mod requests;
mod tables;

pub use close::{print_block, print_scan};
pub use counts::Summary;
pub use laws::{lines_are_whole, lines_go_on, text_is_printed};
pub use opening::print_opening;
pub use printer::{Printer, print_event};
pub use requests::{Trace, print_request, trace_of};
pub use tao_model::Request;

#[cfg(test)]
mod tests;
