//! W3: things in the void.

ghost use Rattle.std.specs.Prelude.{◌≡◌, ◌↔◌, IfOk, IsTrue};
ghost use Rattle.map_tree.specs.Sound.{IsSound};
ghost use Rattle.map_warnings.specs.Void.{IsInVoid, ShowsNothing};
ghost use Rattle.map_warnings.specs.Warnings.{Tells};
ghost use Rattle.map_warnings.specs.Holds.{HoldsOf};

use crate::told::{Told, tell_where};
use crate::warning::Warning;
use le_rec::Thing;
use level_codes::WarningCode;
use map_cells::Shown;
use map_geo::Point;
use map_level::Level;
use std::alloc::{AllocError, Allocator};

/// W3 of a sound level: its things at places where no sector is shown. It takes two bytes an
/// ssector.
pub fn in_void<A: Allocator + Copy>(
    alloc: A,
    level: &Level<'_>,
    most: usize,
) -> Result<Told<A>, AllocError>
    requires { IsSound level.now }
    ensures told { IfOk result (λ told. Tells (HoldsOf level.now WarningCode.W3) told) }
    ensures most { IfOk result (λ told. told.most ≡ most) }
{
    let shown = Shown::of(alloc, level)?;
    tell_in_void(alloc, level, &shown, most)
}

// Adds the things in the void, by what is shown of the level.
fn tell_in_void<A: Allocator + Copy>(
    alloc: A,
    level: &Level<'_>,
    shown: &Shown<'_, '_, A>,
    most: usize,
) -> Result<Told<A>, AllocError>
    requires { shown.now ≡ level.now }
    ensures told { IfOk result (λ told. Tells (HoldsOf level.now WarningCode.W3) told) }
    ensures most { IfOk result (λ told. told.most ≡ most) }
{
    let mut told = Told::new(alloc, most);
    for k in 0..level.things().len() {
        let thing = k as u32;
        tell_where(
            &mut told,
            level,
            WarningCode::W3,
            Warning::InVoid { thing },
            is_in_void(level, shown, thing),
        )?;
    }
    Ok(told)
}

// Whether a thing is in the void.
fn is_in_void<A: Allocator>(level: &Level<'_>, shown: &Shown<'_, '_, A>, k: u32) -> bool
    requires { shown.now ≡ level.now }
    ensures { IsTrue result ↔ IsInVoid level.now k }
{
    match level.things().get(k as usize) {
        Some(thing) => stands_in_void(shown, &thing),
        None => false,
    }
}

fn stands_in_void<A: Allocator>(shown: &Shown<'_, '_, A>, thing: &Thing) -> bool
    ensures { IsTrue result ↔ ShowsNothing shown.now thing.now.x thing.now.y }
{
    shows_nothing(shown, i32::from(thing.x), i32::from(thing.y))
}

// Whether a point is in range and no sector is shown there.
fn shows_nothing<A: Allocator>(shown: &Shown<'_, '_, A>, x: i32, y: i32) -> bool
    ensures { IsTrue result ↔ ShowsNothing shown.now x y }
{
    if Point::new(x, y).is_none() {
        return false;
    }
    shown.at(x, y).is_none()
}
