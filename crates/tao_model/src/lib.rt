//! What a reader has to believe: the definitions of records, requests and placements, and laws about them.
//! The only code is laws: functions with empty bodies, whose contract is the law.
#![tactic(auto)]

mod copies;
mod evictions;
mod faults;
mod look_backs;
mod one_more;
mod openings;
mod placement;
mod stability;
mod trace;
mod transcripts;
mod whole_records;
mod worked;
mod worked_answers;
mod worked_faults;
mod worked_plays;
mod worked_progress;
mod worked_refusals;
mod worked_resends;

pub use copies::{
    few_entries, first_copy_counts, gathers_first, gathers_more, gathers_new, gathers_old,
    gathers_stash, no_copy, same_entries, stash_goes_first,
};
pub use evictions::{
    entries_are_gathered, eviction_fills, eviction_gathers, eviction_is_placed, eviction_round,
    first_copy_stays, load_gathers, load_is_placed, load_spot, one_eviction, one_load, path_falls,
    spot_is_first,
};
pub use faults::{cause_is_fault, cause_is_last, faults_agree};
pub use look_backs::{
    array_is_fold, fake_fetches_own, issue_is_written, issued_is_written, last_touch_is_last,
    newest_is_greatest, ops_arrived, position_is_last, real_fetches_last, real_means,
    released_is_greatest, reply_is_plain, settler_is_last, touched_are_nodes, written_stays,
};
pub use one_more::{
    one_more_acked, one_more_arrive, one_more_done, one_more_fault, one_more_issue, pads_are_fake,
    pads_are_settled,
};
pub use openings::{one_opening, opens_so};
pub use placement::{
    fill_places, hands_more, hands_out, one_placement, pass_more, pass_places, placed_alike,
    spot_alike, takes_lowest,
};
pub use stability::{arrivals_stay, prefix_follows, released_grows, used_stays};
pub use trace::Request;
pub use transcripts::given_is_plain;
pub use whole_records::lawful_means;
pub use worked::{
    full_path, kept_under_a_fetch, no_write_back_before_the_period, one_read, overlapping_requests,
    read_write_read, worked_are_lawful, write_backs_out_of_order,
};
pub use worked_answers::answers_are_told;
pub use worked_faults::{
    causes_that_can_be, fetches_that_cannot_fail, scans_that_cannot_fail, stale_that_cannot_be,
};
pub use worked_plays::{touched_since_is_kept, trace_out_of_order, twin_of_reads};
pub use worked_progress::{ends_are_told, progress_is_told, writes_are_told};
pub use worked_refusals::{forms_are_told, refusals_are_told};
pub use worked_resends::{given_are_told, requests_are_told, resends_are_seen, resends_are_told};
