//! W14 to W25: what the released game does with a level.

ghost use Rattle.std.specs.Prelude.{◌≡◌, ◌↔◌, IfOk, IsTrue};
ghost use Rattle.game_warnings.specs.Holds as game;
ghost use Rattle.game_warnings.specs.Warnings as own;
ghost use Rattle.map_tree.specs.Sound.{IsSound};
ghost use Rattle.map_warnings.specs.Game.{report_code};
ghost use Rattle.map_warnings.specs.Holds.{HoldsIn};
ghost use Rattle.map_warnings.specs.Warnings.{Tells};

use crate::resources::Resources;
use crate::told::{Told, tell_game};
use game_warnings::{GameCode, told_among, told_of};
use map_level::Level;
use std::alloc::{AllocError, Allocator};

/// What the game does, by its code. The caller shows whether the level is sound. W22 and W25 ask for the level's files.
pub fn game_told<A: Allocator + Copy>(
    alloc: A,
    level: &Level<'_>,
    is_sound: bool,
    code: GameCode,
    resources: &Option<Resources<'_, '_, A>>,
    most: usize,
) -> Result<Told<A>, AllocError>
    requires { IsTrue is_sound ↔ IsSound level.now }
    ensures told { IfOk result (λ told. Tells (HoldsIn resources.now level.now (report_code code)) told) }
    ensures most { IfOk result (λ told. told.most ≡ most) }
{
    let told = told_in_game(alloc, level, is_sound, code, resources, most)?;
    tell_game(alloc, most, &told)
}

// The report of the game's own.
fn told_in_game<A: Allocator + Copy>(
    alloc: A,
    level: &Level<'_>,
    is_sound: bool,
    code: GameCode,
    resources: &Option<Resources<'_, '_, A>>,
    most: usize,
) -> Result<game_warnings::Told<A>, AllocError>
    requires { IsTrue is_sound ↔ IsSound level.now }
    ensures told { IfOk result (λ all. own.Tells (game.HoldsIn resources.now level.now code) all) }
    ensures most { IfOk result (λ all. all.most ≡ most) }
{
    match resources {
        Some(known) => told_among(alloc, level, is_sound, known.graphics(), code, most),
        None => told_of(alloc, level, is_sound, code, most),
    }
}
