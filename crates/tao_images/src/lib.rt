//! The bytes of nodes, read against what is known of their latest writes, and orders, written and compared.
#![tactic(auto)]

mod answers;
mod comparing;
mod laws;
mod nodes;
mod orders;
mod paths;
#[cfg(test)]
mod tests;
mod worked;

pub use answers::{
    done_has_tags, fetch_is_read, fetch_is_taken, fetch_may_be_done, fetch_may_fail, leaf_is_read,
    leaf_is_taken, leaf_may_fail, read_is_latest, scan_reads_first_met, unaltered_is_honest,
    written_is_unforged,
};
pub use comparing::is_order;
pub use laws::{
    issued_stays, known_alike, nothing_refused, orders_fit, orders_have_tags, read_means,
    refusal_means, unforged_is_honest,
};
pub use nodes::{Refused, read_node};
pub use orders::{order_room, write_order};
pub use paths::{Known, read_path};
pub use worked::{first_refusals, met_nodes, skipped_nodes, worked_orders};
