//! W25: flats that don't stand between the ends of the flats.

ghost use Rattle.std.specs.Prelude.{◌≡◌, ◌↔◌, ◌+◌, ◌*◌, Some, IfOk, IsTrue, OnOk};
ghost use Rattle.le_rec.specs.Name.{query_of};
ghost use Rattle.game_warnings.specs.Misplaced.{flat_of, IsMisplaced, IsOutside};
ghost use Rattle.game_warnings.specs.Warnings.{surface_number, Tells, TellsBelow};
ghost use Rattle.game_warnings.specs.Holds.{HoldsIn};

use crate::code::GameCode;
use crate::graphics::Graphics;
use crate::told::{Told, tell_among};
use crate::warning::{GameWarning, Surface};
use le_rec::{Name8, Sector};
use map_level::Level;
use std::alloc::{AllocError, Allocator};

/// W25 of a level: the flats of its sectors that an entry has, and that don't stand between the ends of the flats.
pub fn misplaced_flats<A: Allocator>(
    alloc: A,
    level: &Level<'_>,
    graphics: &Graphics<'_, '_, A>,
    most: usize,
) -> Result<Told<A>, AllocError>
    ensures told { IfOk result (λ told. Tells (HoldsIn (Some graphics.now) level.now GameCode.W25) told) }
    ensures most { IfOk result (λ told. told.most ≡ most) }
{
    let mut told = Told::new(alloc, most);
    for s in 0..level.sectors().len() {
        tell_sector(&mut told, level, graphics, s as u32)?;
    }
    Ok(told)
}

// Adds the misplaced flats of a sector.
fn tell_sector<A: Allocator>(
    told: &mut Told<A>,
    level: &Level<'_>,
    graphics: &Graphics<'_, '_, A>,
    s: u32,
) -> Result<(), AllocError>
    requires { TellsBelow (HoldsIn (Some graphics.now) level.now GameCode.W25) (s * 2) told.old }
    ensures told { OnOk result (TellsBelow (HoldsIn (Some graphics.now) level.now GameCode.W25) (s * 2 + 2) told.new) }
    ensures most { OnOk result (told.new.most ≡ told.old.most) }
{
    tell_surface(told, level, graphics, s, Surface::Floor)?;
    tell_surface(told, level, graphics, s, Surface::Ceiling)
}

// Adds the flat of a sector's floor or ceiling, if it is misplaced.
fn tell_surface<A: Allocator>(
    told: &mut Told<A>,
    level: &Level<'_>,
    graphics: &Graphics<'_, '_, A>,
    sector: u32,
    surface: Surface,
) -> Result<(), AllocError>
    requires { TellsBelow (HoldsIn (Some graphics.now) level.now GameCode.W25)
        (sector * 2 + surface_number surface) told.old }
    ensures told { OnOk result (TellsBelow (HoldsIn (Some graphics.now) level.now GameCode.W25)
        (sector * 2 + surface_number surface + 1) told.new) }
    ensures most { OnOk result (told.new.most ≡ told.old.most) }
{
    let warning = GameWarning::MisplacedFlat { sector, surface };
    let holds = is_misplaced(level, graphics, sector, surface);
    tell_among(told, level, graphics, GameCode::W25, warning, holds)
}

// Whether the flat of a sector's floor or ceiling is misplaced.
fn is_misplaced<A: Allocator>(
    level: &Level<'_>,
    graphics: &Graphics<'_, '_, A>,
    s: u32,
    surface: Surface,
) -> bool
    ensures { IsTrue result ↔ IsMisplaced graphics.now level.now s surface }
{
    match level.sectors().get(s as usize) {
        Some(sector) => is_flat_outside(graphics, surface, &sector),
        None => false,
    }
}

fn is_flat_outside<A: Allocator>(
    graphics: &Graphics<'_, '_, A>,
    surface: Surface,
    sector: &Sector,
) -> bool
    ensures { IsTrue result ↔ IsOutside graphics.now (query_of (flat_of surface sector.now)) }
{
    graphics.is_outside(Name8::query(&flat_of(surface, sector)))
}

// The eight bytes of a surface's flat.
fn flat_of(surface: Surface, sector: &Sector) -> [u8; 8]
    ensures { result ≡ flat_of surface sector.now }
{
    match surface {
        Surface::Floor => sector.floor_name,
        Surface::Ceiling => sector.ceiling_name,
    }
}
