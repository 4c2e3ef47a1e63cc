//! What the released game does with a level that its mapper may not know: specials that nothing starts, limits, ends of the game.
#![tactic(auto)]

mod answer;
mod around;
mod checks;
mod code;
mod count;
mod crossing;
mod deadly_floor;
mod destination;
mod donut;
mod effect;
mod effect_tag;
mod ending;
mod exit;
mod flats;
mod found;
mod graphics;
mod harm;
pub mod laws;
mod limit;
mod lock;
mod misplaced;
mod patches;
mod save;
mod search;
mod sides;
mod skill;
mod special;
mod tags;
mod thing;
mod told;
mod unknown_special;
mod warning;
mod winners;
mod zero_tag;

pub use checks::{told_among, told_of};
pub use code::GameCode;
pub use graphics::Graphics;
pub use skill::{Skill, Skills};
pub use told::Told;
pub use warning::{Barrier, GameWarning, Harm, Surface};
