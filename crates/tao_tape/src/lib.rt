//! Tapes of words, from a key or a list, and the keystreams of a key.
#![tactic(auto)]

mod key;
mod keystream;
mod list;
mod script;
mod tape;
#[cfg(test)]
mod tests;

pub use key::KeyTape;
pub use keystream::{xor_stream, xor_stream_undoes_itself};
pub use list::ListTape;
pub use script::ScriptTape;
pub use tape::Tape;
