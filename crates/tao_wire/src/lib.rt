//! Messages between client, proxy and node, their frames, and the decoder of a stream, however it is chunked.
#![tactic(auto)]

mod contents;
mod decoder;
mod encoder;
mod heads;
mod laws;
mod message;
#[cfg(test)]
mod tests;

pub use decoder::Decoder;
pub use encoder::encode;
pub use heads::{fetch_frame, length_bytes, path_head, store_head, stored_content};
pub use laws::{any_cutting, fault_for_ever, one_reading, splitting};
pub use message::{Message, WireFault};
