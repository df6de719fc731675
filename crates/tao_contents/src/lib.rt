//! Laws of contents: through each step of the proxy every block has one fresh copy.
//! The only code is laws: functions with empty bodies, whose contract is the law.
#![tactic(auto)]

mod clean;
mod counting;
mod fetches;
mod final_look;
mod moves;
mod openings;
mod touched_nodes;
mod worked_trees;
mod write_backs;

pub use clean::{
    acknowledgement_keeps_clean, current_is_written, fake_fetch_keeps_clean, issue_cleans,
    real_fetch_keeps_clean,
};
pub use counting::fresh_copy_counts;
pub use fetches::{fake_fetch_keeps, fetch_finds, real_fetch_keeps, taking_in_keeps};
pub use final_look::{final_array, seen_is_final};
pub use moves::{
    eviction_keeps, fresh_alike, fresh_may_be_evicted, look_up_finds, put_is_found,
    put_may_be_evicted,
};
pub use openings::{load_writes_fresh, opening_is_fresh};
pub use touched_nodes::fetch_touches_path;
pub use worked_trees::trees_are_told;
pub use write_backs::{
    acknowledgement_keeps, fresh_writes_count, issue_keeps, write_back_is_fresh,
};
