//! W10: flats of sectors that no entry has.

ghost use Rattle.std.specs.Prelude.{◌≡◌, ◌↔◌, ◌+◌, ◌*◌, Some, IfOk, IsTrue, OnOk};
ghost use Rattle.map_warnings.specs.Holds.{HoldsIn};
ghost use Rattle.map_warnings.specs.Listed.{HasFlats};
ghost use Rattle.map_warnings.specs.UnknownFlat.{flat_of, IsUnknownFlat, NamesNoFlat};
ghost use Rattle.map_warnings.specs.Warnings.{plane_number, Tells, TellsBelow};

use crate::resources::Resources;
use crate::told::{Told, tell_among};
use crate::warning::{Plane, Warning};
use le_rec::{Name8, Sector};
use level_codes::WarningCode;
use map_level::Level;
use std::alloc::{AllocError, Allocator};

/// W10 of a level: the flats of its sectors that are none of the set's.
pub fn unknown_flats<A: Allocator>(
    alloc: A,
    level: &Level<'_>,
    resources: &Resources<'_, '_, A>,
    most: usize,
) -> Result<Told<A>, AllocError>
    requires { HasFlats resources.now }
    ensures told { IfOk result (λ told. Tells (HoldsIn (Some resources.now) level.now WarningCode.W10) told) }
    ensures most { IfOk result (λ told. told.most ≡ most) }
{
    let mut told = Told::new(alloc, most);
    for i in 0..level.sectors().len() {
        tell_sector(&mut told, level, resources, i as u32)?;
    }
    Ok(told)
}

// Adds the unknown flats of a sector.
fn tell_sector<A: Allocator>(
    told: &mut Told<A>,
    level: &Level<'_>,
    resources: &Resources<'_, '_, A>,
    i: u32,
) -> Result<(), AllocError>
    requires flats { HasFlats resources.now }
    requires below { TellsBelow (HoldsIn (Some resources.now) level.now WarningCode.W10) (i * 2) told.old }
    ensures told { OnOk result
        (TellsBelow (HoldsIn (Some resources.now) level.now WarningCode.W10) (i * 2 + 2) told.new) }
    ensures most { OnOk result (told.new.most ≡ told.old.most) }
{
    tell_plane(told, level, resources, i, Plane::Floor)?;
    tell_plane(told, level, resources, i, Plane::Ceiling)
}

// Adds the flat of a sector's floor or ceiling, if it is unknown.
fn tell_plane<A: Allocator>(
    told: &mut Told<A>,
    level: &Level<'_>,
    resources: &Resources<'_, '_, A>,
    i: u32,
    plane: Plane,
) -> Result<(), AllocError>
    requires flats { HasFlats resources.now }
    requires below { TellsBelow (HoldsIn (Some resources.now) level.now WarningCode.W10)
        (i * 2 + plane_number plane) told.old }
    ensures told { OnOk result (TellsBelow (HoldsIn (Some resources.now) level.now WarningCode.W10)
        (i * 2 + plane_number plane + 1) told.new) }
    ensures most { OnOk result (told.new.most ≡ told.old.most) }
{
    let is_unknown = is_unknown_flat(level, resources, i, plane);
    let warning = Warning::UnknownFlat { sector: i, plane };
    tell_among(
        told,
        level,
        resources,
        WarningCode::W10,
        warning,
        is_unknown,
    )
}

// Whether the flat of a sector's floor or ceiling is unknown.
fn is_unknown_flat<A: Allocator>(
    level: &Level<'_>,
    resources: &Resources<'_, '_, A>,
    i: u32,
    plane: Plane,
) -> bool
    requires { HasFlats resources.now }
    ensures { IsTrue result ↔ IsUnknownFlat resources.now level.now i plane }
{
    match level.sectors().get(i as usize) {
        Some(sector) => lacks_flat(resources, plane, &sector),
        None => false,
    }
}

fn lacks_flat<A: Allocator>(resources: &Resources<'_, '_, A>, plane: Plane, sector: &Sector) -> bool
    requires { HasFlats resources.now }
    ensures { IsTrue result ↔ NamesNoFlat resources.now (flat_of plane sector.now) }
{
    names_no_flat(resources, flat_of(plane, sector))
}

// The eight bytes of a plane's flat.
fn flat_of(plane: Plane, sector: &Sector) -> [u8; 8]
    ensures { result ≡ flat_of plane sector.now }
{
    match plane {
        Plane::Floor => sector.floor_name,
        Plane::Ceiling => sector.ceiling_name,
    }
}

// Whether eight bytes name no flat of the set.
fn names_no_flat<A: Allocator>(resources: &Resources<'_, '_, A>, bytes: [u8; 8]) -> bool
    requires { HasFlats resources.now }
    ensures { IsTrue result ↔ NamesNoFlat resources.now bytes }
{
    !resources.has_flat(Name8::query(&bytes))
}
