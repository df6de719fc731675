//! How one more event changes the tables that a proxy keeps, and how much memory it needs. Almost all of it is laws: functions with
//! empty bodies whose contract is the law.
#![tactic(auto)]

mod answers;
mod flags;
mod nodes;
mod pools;
mod positions;
mod proxies;
mod rows;
mod served;
mod tags;
mod touched;
mod write_backs;
mod writes;

pub use answers::{block_is_same, served_real};
pub use flags::{acked_by_flags, flags_are_told, flags_at_start, released_by_flags};
pub use nodes::{
    cover_is_bounded, tells_acked, tells_arrive, tells_done, tells_fault, tells_issue, tells_start,
};
pub use pools::{
    counts_are_known, room_acked, room_arrive, room_at_start, room_done, room_grows, room_issue,
    room_reserve,
};
pub use positions::{positions_are_told, positions_at_start};
pub use proxies::{follows_on, opens_by_load, owes_in_turn, proxy_goes_on};
pub use rows::{arrival_fetches, new_arrivals_leaf, rows_are_told, rows_at_start};
pub use served::{released_is_served, served_at_start, served_else};
pub use tags::{tags_are_told, tags_at_start};
pub use touched::touch_path;
pub use write_backs::{
    bucket_there, issue_may_follow, nonces_are_few, one_rising_list, recent_is_short,
    writes_are_told, writes_at_start,
};
pub use writes::{issued_is, newest_write_is};
