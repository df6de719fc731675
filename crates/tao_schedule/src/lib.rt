//! Laws of schedules: the allowed moves of requests and answers, what the server holds after them, and the steps of scripts.
//! The only code is laws: functions with empty bodies, whose contract is the law.
#![tactic(auto)]

mod drains;
mod schedules;
mod twins;
mod worked;

pub use drains::{drain_ends, drain_goes_on, drain_is_played, drains_alike, part_drain_goes_on};
pub use schedules::{
    alike_go_on, alike_steps, alike_tests, misplaced_stays, one_schedule, placed_may_go,
    played_front, played_is_allowed, served_is_newest, server_is_newest, stays_in_step,
    step_goes_on, tests_need_no_op,
};
pub use twins::{
    twin_is_alike, twin_leaves, twin_meets_no_fault, twin_script_is_allowed, twins_look_alike,
};
pub use worked::{worked_overlaps, worked_overlaps_are_allowed, worked_schedule, worked_steps};
