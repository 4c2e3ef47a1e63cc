//! W18: sectors on whose floor the game ends.

ghost use Rattle.std.specs.Prelude.{◌≡◌, ◌↔◌, false, IfOk, IsTrue};
ghost use Rattle.game_numbers.specs.Number.{is_one_of};
ghost use Rattle.game_numbers.specs.SectorSpecials.{survived};
ghost use Rattle.game_warnings.specs.DeadlyFloor.{IsDeadly};
ghost use Rattle.game_warnings.specs.Warnings.{Tells};
ghost use Rattle.game_warnings.specs.Holds.{HoldsOf};

use crate::code::GameCode;
use crate::told::{Told, tell_where};
use crate::warning::GameWarning;
use game_numbers::is_survived;
use le_rec::Sector;
use map_level::Level;
use std::alloc::{AllocError, Allocator};

/// W18 of a level: its sectors whose special ends the game once a player stands on the floor.
pub fn deadly_floors<A: Allocator>(
    alloc: A,
    level: &Level<'_>,
    most: usize,
) -> Result<Told<A>, AllocError>
    ensures told { IfOk result (λ told. Tells (HoldsOf level.now GameCode.W18) told) }
    ensures most { IfOk result (λ told. told.most ≡ most) }
{
    let mut told = Told::new(alloc, most);
    for s in 0..level.sectors().len() {
        let sector = s as u32;
        tell_where(
            &mut told,
            level,
            GameCode::W18,
            GameWarning::DeadlyFloor { sector },
            is_deadly(level, sector),
        )?;
    }
    Ok(told)
}

// Whether the floor of the sector of a number ends the game.
fn is_deadly(level: &Level<'_>, s: u32) -> bool
    ensures { IsTrue result ↔ IsDeadly level.now s }
{
    match level.sectors().get(s as usize) {
        Some(sector) => ends_the_game(&sector),
        None => false,
    }
}

fn ends_the_game(sector: &Sector) -> bool
    ensures { IsTrue result ↔ (is_one_of survived sector.now.special ≡ false) }
{
    !is_survived(sector.special)
}
