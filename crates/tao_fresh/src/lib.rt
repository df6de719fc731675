//! Laws of a record whose write-backs are true: clean nodes and, if no fetched bucket was altered, fresh copies, right answers,
//! fresh writes. The only code is laws: functions with empty bodies, whose contract is the law.
#![tactic(auto)]

mod answers;
mod copies;
mod final_look;
mod values;
mod writes;

pub use answers::{answers_are_right, found_is_plain};
pub use copies::{copies_are_counted, copies_are_fresh, present_is_of_tree, residents_are_clean};
pub use final_look::array_is_seen;
pub use values::{plain_between, settled_moves, settled_stays};
pub use writes::writes_are_fresh;
