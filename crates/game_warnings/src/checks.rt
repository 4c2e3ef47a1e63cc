//! All warnings, by their codes.

ghost use Rattle.std.specs.Prelude.{◌≡◌, ◌↔◌, Some, IfOk, IsTrue};
ghost use Rattle.map_tree.specs.Sound.{IsSound};
ghost use Rattle.game_warnings.specs.Warnings.{Tells};
ghost use Rattle.game_warnings.specs.Holds.{HoldsIn, HoldsOf};

use crate::code::GameCode;
use crate::crossing::crossings;
use crate::deadly_floor::deadly_floors;
use crate::effect::effects;
use crate::graphics::Graphics;
use crate::limit::{limits, limits_among};
use crate::lock::locked_level;
use crate::misplaced::misplaced_flats;
use crate::thing::things;
use crate::told::Told;
use crate::unknown_special::unknown_specials;
use crate::zero_tag::zero_tags;
use map_level::Level;
use std::alloc::{AllocError, Allocator};

/// The warnings of a code that a level has by itself, in their order: the first of them, so many at most, and how many there are. The
/// caller shows whether the level is sound; only W16 asks for that.
pub fn told_of<A: Allocator + Copy>(
    alloc: A,
    level: &Level<'_>,
    is_sound: bool,
    code: GameCode,
    most: usize,
) -> Result<Told<A>, AllocError>
    requires { IsTrue is_sound ↔ IsSound level.now }
    ensures told { IfOk result (λ told. Tells (HoldsOf level.now code) told) }
    ensures most { IfOk result (λ told. told.most ≡ most) }
{
    match code {
        GameCode::W14 => unknown_specials(alloc, level, most),
        GameCode::W15 => zero_tags(alloc, level, most),
        GameCode::W16 => crossings(alloc, level, is_sound, most),
        GameCode::W17 => effects(alloc, level, most),
        GameCode::W18 => deadly_floors(alloc, level, most),
        GameCode::W19 => locked_level(alloc, level, most),
        GameCode::W21 => things(alloc, level, most),
        GameCode::W22 => limits(alloc, level, most),
        GameCode::W25 => Ok(Told::new(alloc, most)),
    }
}

/// The same of a level whose flats and textures are those of some files: W22 and W25 ask for them.
pub fn told_among<A: Allocator + Copy>(
    alloc: A,
    level: &Level<'_>,
    is_sound: bool,
    graphics: &Graphics<'_, '_, A>,
    code: GameCode,
    most: usize,
) -> Result<Told<A>, AllocError>
    requires { IsTrue is_sound ↔ IsSound level.now }
    ensures told { IfOk result (λ told. Tells (HoldsIn (Some graphics.now) level.now code) told) }
    ensures most { IfOk result (λ told. told.most ≡ most) }
{
    match code {
        GameCode::W22 => limits_among(alloc, level, graphics, most),
        GameCode::W25 => misplaced_flats(alloc, level, graphics, most),
        _ => told_of(alloc, level, is_sound, code, most),
    }
}
