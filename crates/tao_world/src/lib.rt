//! The player of a schedule: a desk, the server's tree, and the requests under way. The laws tell what it shows after any list of allowed
//! moves: they are functions with empty bodies, whose contract is the law.
#![tactic(auto)]

mod loading;
mod moves;
mod opening;
mod placed;
mod requests;
mod shown;
mod worked;
mod world;

pub use moves::{
    acknowledges_shows, applies_shows, arrives_shows, completes_shows, opens_shows, parts_join,
    places_show, room_shows, serves_shows,
};
pub use opening::{first_blocks, scripts_can_start, tape_of};
pub use placed::{flags_tell_moves, store_has_nodes, tables_tell_misplaced};
pub use shown::{answer_is_newest, leaf_is_newest, shows_in_step, tree_is_newest, whole_is_honest};
pub use worked::worked_changes;
pub use world::World;
