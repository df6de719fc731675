//! The codec of buckets: bytes and bucket are each other's encoding.
#![tactic(auto)]

mod decoding;
mod encoding;
mod formats;
mod header;
mod laws;
mod room;
mod slots;
mod stock;
mod tail;
#[cfg(test)]
mod tests;

pub use decoding::decode;
pub use encoding::encode_into;
pub use formats::format_of;
pub use header::{node_of, nonce_of, version_of};
pub use laws::{
    encoding_names_its_node, no_fault_where_encoded, one_bucket, one_encoding, tag_follows_slots,
};
pub use room::Room;
pub use stock::stocked;
pub use tail::tail_of;
