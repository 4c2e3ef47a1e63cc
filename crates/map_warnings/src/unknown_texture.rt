//! W9: textures of sidedefs that no lump lists.

ghost use Rattle.std.specs.Prelude.{◌≡◌, ◌↔◌, ◌+◌, ◌*◌, Some, IfOk, IsTrue, OnOk};
ghost use Rattle.le_rec.specs.Name.{query_of};
ghost use Rattle.map_level.specs.Reading.{sidedef_under};
ghost use Rattle.map_warnings.specs.Holds.{HoldsIn};
ghost use Rattle.map_warnings.specs.Listed.{HasTextures, IsTexture};
ghost use Rattle.map_warnings.specs.UnknownTexture.{texture_of, IsUnknownTexture, NamesNoTexture};
ghost use Rattle.map_warnings.specs.Warnings.{texture_number, Tells, TellsBelow};

use crate::resources::Resources;
use crate::told::{Told, tell_among};
use crate::warning::{SidePart, Warning};
use le_rec::{Name8, SideDef};
use level_codes::WarningCode;
use map_level::Level;
use map_level::links::sidedef_at;
use std::alloc::{AllocError, Allocator};

/// W9 of a level: the textures of its sidedefs that are none of the set's.
pub fn unknown_textures<A: Allocator>(
    alloc: A,
    level: &Level<'_>,
    resources: &Resources<'_, '_, A>,
    most: usize,
) -> Result<Told<A>, AllocError>
    requires { HasTextures resources.now }
    ensures told { IfOk result (λ told. Tells (HoldsIn (Some resources.now) level.now WarningCode.W9) told) }
    ensures most { IfOk result (λ told. told.most ≡ most) }
{
    let mut told = Told::new(alloc, most);
    for i in 0..level.sidedefs().len() {
        tell_sidedef(&mut told, level, resources, i as u32)?;
    }
    Ok(told)
}

// Adds the unknown textures of a sidedef.
fn tell_sidedef<A: Allocator>(
    told: &mut Told<A>,
    level: &Level<'_>,
    resources: &Resources<'_, '_, A>,
    i: u32,
) -> Result<(), AllocError>
    requires textures { HasTextures resources.now }
    requires below { TellsBelow (HoldsIn (Some resources.now) level.now WarningCode.W9) (i * 3) told.old }
    ensures told { OnOk result
        (TellsBelow (HoldsIn (Some resources.now) level.now WarningCode.W9) (i * 3 + 3) told.new) }
    ensures most { OnOk result (told.new.most ≡ told.old.most) }
{
    tell_part(told, level, resources, i, SidePart::Upper)?;
    tell_part(told, level, resources, i, SidePart::Lower)?;
    tell_part(told, level, resources, i, SidePart::Middle)
}

// Adds the texture at a part of a sidedef, if it is unknown.
fn tell_part<A: Allocator>(
    told: &mut Told<A>,
    level: &Level<'_>,
    resources: &Resources<'_, '_, A>,
    i: u32,
    part: SidePart,
) -> Result<(), AllocError>
    requires textures { HasTextures resources.now }
    requires below { TellsBelow (HoldsIn (Some resources.now) level.now WarningCode.W9)
        (i * 3 + texture_number part) told.old }
    ensures told { OnOk result (TellsBelow (HoldsIn (Some resources.now) level.now WarningCode.W9)
        (i * 3 + texture_number part + 1) told.new) }
    ensures most { OnOk result (told.new.most ≡ told.old.most) }
{
    let is_unknown = is_unknown_texture(level, resources, i, part);
    let warning = Warning::UnknownTexture { sidedef: i, part };
    tell_among(told, level, resources, WarningCode::W9, warning, is_unknown)
}

// Whether the texture at a part of a sidedef is unknown.
fn is_unknown_texture<A: Allocator>(
    level: &Level<'_>,
    resources: &Resources<'_, '_, A>,
    i: u32,
    part: SidePart,
) -> bool
    requires { HasTextures resources.now }
    ensures { IsTrue result ↔ IsUnknownTexture resources.now level.now i part }
{
    match sidedef_at(level, i as usize) {
        Some(sidedef) => names_no_texture(resources, texture_of(part, &sidedef)),
        None => false,
    }
}

// The eight bytes of a part's texture.
fn texture_of(part: SidePart, sidedef: &SideDef) -> [u8; 8]
    ensures { result ≡ texture_of part sidedef.now }
{
    match part {
        SidePart::Upper => sidedef.top,
        SidePart::Lower => sidedef.bottom,
        SidePart::Middle => sidedef.middle,
    }
}

// Whether eight bytes name a texture, and no texture of the set.
fn names_no_texture<A: Allocator>(resources: &Resources<'_, '_, A>, bytes: [u8; 8]) -> bool
    requires { HasTextures resources.now }
    ensures { IsTrue result ↔ NamesNoTexture resources.now bytes }
{
    bytes[0] != b'-' && is_missing(resources, bytes)
}

// Whether no texture of the set has the name of eight bytes.
fn is_missing<A: Allocator>(resources: &Resources<'_, '_, A>, bytes: [u8; 8]) -> bool
    requires { HasTextures resources.now }
    ensures { IsTrue result ↔ (¬ IsTexture resources.now (query_of bytes)) }
{
    !resources.has_texture(asked_name(bytes))
}

// The name under which the game looks for a texture.
fn asked_name(bytes: [u8; 8]) -> Name8
    ensures { result ≡ query_of bytes }
{
    Name8::query(&bytes)
}
