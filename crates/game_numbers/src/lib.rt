//! Numbers that the game knows: specials of linedefs and of sectors, and kinds of things, by what it does with them.
#![tactic(auto)]

mod key;
mod kind;
pub mod laws;
mod marks;
mod sector_special;
mod special;

pub use key::Key;
pub use kind::{is_of_the_game, is_second_game};
pub use sector_special::{is_exit_floor, is_flashing, is_glowing, is_survived, is_timed_door};
pub use special::{
    is_ceiling, is_change, is_crossed, is_door, is_exit, is_known, is_missile, is_monster,
    is_nearest, is_perpetual, is_platform, is_scrolling, is_shot, is_tagged, is_teleport, is_used,
};
