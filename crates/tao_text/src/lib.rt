//! Texts: reads scripts and their kin, and prints lines.
#![tactic(auto)]

mod draft;
mod faults;
mod forms;
mod laws;
mod limits;
mod printing;
mod reading;
mod said;
mod script;
mod text;
mod values;
mod words;

pub use faults::{TextFault, TextKind};
pub use forms::is_text;
pub use laws::{
    lines_are_spelled, lines_end_with_a_byte, numbers_are_decimal, ops_are_read,
    others_keep_limits, printed_lines_are_spelled, scripts_keep_limits, stores_are_read,
    texts_are_read, twins_are_read, values_are_hex, words_stand_between_spaces,
};
pub use printing::{
    begin_line, end_line, line_hex, line_words, push_hex, push_number, push_numbers, push_word,
};
pub use reading::{read_ops, read_script, read_store, read_twin};
pub use script::{Script, Step, Steps, Twins, What};
pub use values::{is_hex, number_of, wide_number};
pub use words::{next_line, next_word, no_more_words};

#[cfg(test)]
mod tests;
