//! What the proxy holds, finds and answers after each event, as functions of the record.
//! The only code is laws: functions with empty bodies, whose contract is the law.
#![tactic(auto)]

mod alike;
mod answering;
mod holding;
mod honest;
mod worked;
mod worked_proxies;

pub use alike::{evicted_alike, fetched_alike, put_is, put_is_gathered};
pub use answering::{
    answers_have_length, answers_stay, between_is_fold, found_have_length, found_stays,
    held_have_length, since_is_fold,
};
pub use holding::{away_is_empty, held_stays};
pub use honest::{unaltered_both, unaltered_earlier};
pub use worked::{
    copies_that_count, one_read_holds, two_fetches_hold, worked_are_of_proxy, writes_are_answered,
};
pub use worked_proxies::{
    altered_is_answered, only_true_writes, overlapping_write_holds, versions_are_told,
};
