//! Laws of every lawful record, whatever its contents: residence, requests and their words, counts, and two plays of one schedule.
//! The only code is laws: functions with empty bodies, whose contract is the law.
#![tactic(auto)]

mod counted;
mod honest_fetches;
mod open_requests;
mod residents;
mod retold;
mod tape_words;
mod two_plays;
mod worked_counts;

pub use counted::{acks_are_counted, quiet_is_counted, work_is_counted};
pub use honest_fetches::{unaltered_by_test, unaltered_means};
pub use open_requests::{
    leaf_is_position, one_real, queue_of_block, quiet_is_settled, released_is_settled, right_value,
    words_are_handed_on,
};
pub use residents::{
    as_it_was_asked, away_is_acknowledged, away_is_written, exact_version, issued_is_resident,
    leaves_acknowledged, one_answer_is_newest, periods_are_counted, recent_is_resident,
    untouched_since, written_after_touch,
};
pub use retold::{places_move, retold_is_twin};
pub use tape_words::{distinct_words, lawful_is_in_range, words_are_known};
pub use two_plays::{
    equal_traces, kinds_need_no_word, leaves_tell_traces, permutation_is_one_to_one,
};
pub use worked_counts::{counts_are_told, retold_is_told};
