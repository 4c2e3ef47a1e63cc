//! W2: parts of walls that can be seen and have no texture.

ghost use Rattle.std.specs.Prelude.{◌≡◌, ◌<ℤ◌, ◌≤ℤ◌, ◌*◌, ◌+◌, ◌↔◌, IfOk, IfSome, IsSomeAnd, IsTrue, OnOk};
ghost use Rattle.std.specs.Option.{option_map};
ghost use Rattle.le_rec.specs.Name.{name_of};
ghost use Rattle.map_level.specs.Reading.{linedef_under, number_of, sidedef_under};
ghost use Rattle.map_level.specs.Links.{named, sectors_of};
ghost use Rattle.map_level.specs.SectorOf.{sidedef_named};
ghost use Rattle.map_warnings.specs.Bare.{BetweenSectors, HasSector, IsBare, IsBareOf, IsBarePart, IsNoTexture, IsSky, ShowsLower, ShowsUpper};
ghost use Rattle.map_warnings.specs.Warnings.{part_number, side_number, Tells, TellsBelow};
ghost use Rattle.map_warnings.specs.declared.warning.SidePart.TheVariants as part;
ghost use Rattle.map_warnings.specs.declared.warning.Side.TheVariants as side;
ghost use Rattle.map_warnings.specs.Holds.{HoldsOf};

use crate::records::sidedef;
use crate::told::{Told, tell_where};
use crate::warning::{Side, SidePart, Warning};
use le_rec::{LineDef, Name8, Sector, SideDef};
use level_codes::WarningCode;
use map_level::links::{linedef_at, named};
use map_level::{Level, number};
use std::alloc::{AllocError, Allocator};

/// W2 of a level.
pub fn bare_walls<A: Allocator>(
    alloc: A,
    level: &Level<'_>,
    most: usize,
) -> Result<Told<A>, AllocError>
    ensures told { IfOk result (λ told. Tells (HoldsOf level.now WarningCode.W2) told) }
    ensures most { IfOk result (λ told. told.most ≡ most) }
{
    let mut told = Told::new(alloc, most);
    for i in 0..level.linedefs().len() {
        tell_linedef(&mut told, level, i as u32)?;
    }
    Ok(told)
}

// Adds the bare parts of a linedef.
fn tell_linedef<A: Allocator>(
    told: &mut Told<A>,
    level: &Level<'_>,
    i: u32,
) -> Result<(), AllocError>
    requires { TellsBelow (HoldsOf level.now WarningCode.W2) (i * 6) told.old }
    ensures told { OnOk result
        (TellsBelow (HoldsOf level.now WarningCode.W2) (i * 6 + 6) told.new) }
    ensures most { OnOk result (told.new.most ≡ told.old.most) }
{
    let bare = bare_sides(level, i);
    tell_side(told, level, i, Side::Front, bare.front)?;
    tell_side(told, level, i, Side::Back, bare.back)
}

// Adds the bare parts of a linedef's side.
fn tell_side<A: Allocator>(
    told: &mut Told<A>,
    level: &Level<'_>,
    i: u32,
    side: Side,
    bare: BareParts,
) -> Result<(), AllocError>
    requires below { TellsBelow (HoldsOf level.now WarningCode.W2) (i * 6 + side_number side * 3) told.old }
    requires middle { IsTrue bare.middle ↔ IsBare level.now i side part.Middle }
    requires upper { IsTrue bare.upper ↔ IsBare level.now i side part.Upper }
    requires lower { IsTrue bare.lower ↔ IsBare level.now i side part.Lower }
    ensures told { OnOk result
        (TellsBelow (HoldsOf level.now WarningCode.W2) (i * 6 + side_number side * 3 + 3) told.new) }
    ensures most { OnOk result (told.new.most ≡ told.old.most) }
{
    tell_part(told, level, i, side, SidePart::Middle, bare.middle)?;
    tell_part(told, level, i, side, SidePart::Upper, bare.upper)?;
    tell_part(told, level, i, side, SidePart::Lower, bare.lower)
}

// Adds a part of a linedef's side, if it is bare.
fn tell_part<A: Allocator>(
    told: &mut Told<A>,
    level: &Level<'_>,
    i: u32,
    side: Side,
    part: SidePart,
    is_bare: bool,
) -> Result<(), AllocError>
    requires below { TellsBelow (HoldsOf level.now WarningCode.W2)
        (i * 6 + side_number side * 3 + part_number part) told.old }
    requires bare { IsTrue is_bare ↔ IsBare level.now i side part }
    ensures told { OnOk result (TellsBelow (HoldsOf level.now WarningCode.W2)
        (i * 6 + side_number side * 3 + part_number part + 1) told.new) }
    ensures most { OnOk result (told.new.most ≡ told.old.most) }
{
    let warning = Warning::Bare {
        linedef: i,
        side,
        part,
    };
    tell_where(told, level, WarningCode::W2, warning, is_bare)
}

// Which parts of a side are bare.
#[derive(Clone, Copy)]
struct BareParts {
    middle: bool,
    upper: bool,
    lower: bool,
}

/// Those of a side that isn't there.
const NO_PARTS: BareParts = BareParts {
    middle: false,
    upper: false,
    lower: false,
};

// Which parts of a linedef's two sides are bare.
#[derive(Clone, Copy)]
struct BareSides {
    front: BareParts,
    back: BareParts,
}

/// Those of a linedef that isn't there.
const NO_SIDES: BareSides = BareSides {
    front: NO_PARTS,
    back: NO_PARTS,
};

// Which parts of a linedef's sides are bare.
fn bare_sides(level: &Level<'_>, i: u32) -> BareSides
    ensures front_middle { IsTrue result.front.middle ↔ IsBare level.now i side.Front part.Middle }
    ensures front_upper { IsTrue result.front.upper ↔ IsBare level.now i side.Front part.Upper }
    ensures front_lower { IsTrue result.front.lower ↔ IsBare level.now i side.Front part.Lower }
    ensures back_middle { IsTrue result.back.middle ↔ IsBare level.now i side.Back part.Middle }
    ensures back_upper { IsTrue result.back.upper ↔ IsBare level.now i side.Back part.Upper }
    ensures back_lower { IsTrue result.back.lower ↔ IsBare level.now i side.Back part.Lower }
{
    match linedef_at(level, i as usize) {
        Some(linedef) => sides_of_linedef(level, &linedef),
        None => NO_SIDES,
    }
}

// The same for a linedef that is there. Each of its sidedefs and their sectors are read once, for both sides.
fn sides_of_linedef(level: &Level<'_>, linedef: &LineDef) -> BareSides
    ensures front_middle { IsTrue result.front.middle
        ↔ IsBareOf level.now (linedef_under level.now.reading linedef.now) side.Front part.Middle }
    ensures front_upper { IsTrue result.front.upper
        ↔ IsBareOf level.now (linedef_under level.now.reading linedef.now) side.Front part.Upper }
    ensures front_lower { IsTrue result.front.lower
        ↔ IsBareOf level.now (linedef_under level.now.reading linedef.now) side.Front part.Lower }
    ensures back_middle { IsTrue result.back.middle
        ↔ IsBareOf level.now (linedef_under level.now.reading linedef.now) side.Back part.Middle }
    ensures back_upper { IsTrue result.back.upper
        ↔ IsBareOf level.now (linedef_under level.now.reading linedef.now) side.Back part.Upper }
    ensures back_lower { IsTrue result.back.lower
        ↔ IsBareOf level.now (linedef_under level.now.reading linedef.now) side.Back part.Lower }
{
    let front = wall_of(level, linedef.side0);
    let back = wall_of(level, linedef.side1);
    BareSides {
        front: bare_parts(level, Side::Front, &front, &back),
        back: bare_parts(level, Side::Back, &back, &front),
    }
}

/// A side's sidedef, and the sector that it names.
#[derive(Clone, Copy)]
struct Wall {
    sidedef: SideDef,
    sector: Option<Sector>,
}

// The wall of the sidedef that a word names.
#[inline]
fn wall_of(level: &Level<'_>, word: i16) -> Option<Wall>
    ensures sidedef { option_map (λ wall. sidedef_under level.now.reading wall.sidedef) result
        ≡ sidedef_named level.now (number_of level.now.reading word) }
    ensures sector { IfSome result (HasSector level.now) }
{
    let sidedef = sidedef(level, word)?;
    let sector = sector(level, sidedef.sector);
    Some(Wall { sidedef, sector })
}

// Which parts of a side are bare, given its wall and the one behind.
#[inline]
fn bare_parts(level: &Level<'_>, side: Side, this: &Option<Wall>, other: &Option<Wall>) -> BareParts
    requires this { IfSome this.now (HasSector level.now) }
    requires other { IfSome other.now (HasSector level.now) }
    ensures middle { let under = option_map (λ wall. sidedef_under level.now.reading wall.sidedef) in IsTrue result.middle
        ↔ IsSomeAnd (under this.now) (λ this. IsBarePart level.now side this (under other.now) part.Middle) }
    ensures upper { let under = option_map (λ wall. sidedef_under level.now.reading wall.sidedef) in IsTrue result.upper
        ↔ IsSomeAnd (under this.now) (λ this. IsBarePart level.now side this (under other.now) part.Upper) }
    ensures lower { let under = option_map (λ wall. sidedef_under level.now.reading wall.sidedef) in IsTrue result.lower
        ↔ IsSomeAnd (under this.now) (λ this. IsBarePart level.now side this (under other.now) part.Lower) }
{
    let Some(this) = this else {
        return NO_PARTS;
    };
    BareParts {
        middle: is_bare_part(level, side, this, other, SidePart::Middle),
        upper: is_bare_part(level, side, this, other, SidePart::Upper),
        lower: is_bare_part(level, side, this, other, SidePart::Lower),
    }
}

// Whether a part of a wall can be seen and has no texture.
#[inline]
fn is_bare_part(
    level: &Level<'_>,
    side: Side,
    wall: &Wall,
    other: &Option<Wall>,
    part: SidePart,
) -> bool
    requires wall { HasSector level.now wall.now }
    requires other { IfSome other.now (HasSector level.now) }
    ensures { IsTrue result ↔ IsBarePart level.now side (sidedef_under level.now.reading wall.now.sidedef)
        (option_map (λ wall. sidedef_under level.now.reading wall.sidedef) other.now) part }
{
    let this = &wall.sidedef;
    match part {
        SidePart::Middle => side == Side::Front && other.is_none() && is_no_texture(this.middle),
        SidePart::Upper => is_no_texture(this.top) && is_upper_shown(level, wall, other),
        SidePart::Lower => is_no_texture(this.bottom) && is_lower_shown(level, wall, other),
    }
}

fn is_upper_shown(level: &Level<'_>, this: &Wall, other: &Option<Wall>) -> bool
    requires this { HasSector level.now this.now }
    requires other { IfSome other.now (HasSector level.now) }
    ensures { IsTrue result ↔ IsSomeAnd (option_map (λ wall. sidedef_under level.now.reading wall.sidedef) other.now)
        (λ back. BetweenSectors level.now ShowsUpper (sidedef_under level.now.reading this.now.sidedef) back) }
{
    // Only the clauses speak of the level.
    let _level = level;
    match other {
        Some(other) => is_upper_between(&this.sector, &other.sector),
        None => false,
    }
}

fn is_upper_between(here: &Option<Sector>, there: &Option<Sector>) -> bool
    ensures { IsTrue result
        ↔ IsSomeAnd here.now (λ here. IsSomeAnd there.now (λ there. ShowsUpper here there)) }
{
    match (here, there) {
        (Some(here), Some(there)) => shows_upper(here, there),
        _ => false,
    }
}

fn is_lower_shown(level: &Level<'_>, this: &Wall, other: &Option<Wall>) -> bool
    requires this { HasSector level.now this.now }
    requires other { IfSome other.now (HasSector level.now) }
    ensures { IsTrue result ↔ IsSomeAnd (option_map (λ wall. sidedef_under level.now.reading wall.sidedef) other.now)
        (λ back. BetweenSectors level.now ShowsLower (sidedef_under level.now.reading this.now.sidedef) back) }
{
    // Only the clauses speak of the level.
    let _level = level;
    match other {
        Some(other) => is_lower_between(&this.sector, &other.sector),
        None => false,
    }
}

fn is_lower_between(here: &Option<Sector>, there: &Option<Sector>) -> bool
    ensures { IsTrue result
        ↔ IsSomeAnd here.now (λ here. IsSomeAnd there.now (λ there. ShowsLower here there)) }
{
    match (here, there) {
        (Some(here), Some(there)) => shows_lower(here, there),
        _ => false,
    }
}

// The sector that a word names.
#[inline]
fn sector(level: &Level<'_>, word: i16) -> Option<Sector>
    ensures { result ≡ named (sectors_of level.now) (number_of level.now.reading word) }
{
    named(&level.sectors(), number(word, level.reading()))
}

// Whether a ceiling is higher than another, and they don't both show the sky.
fn shows_upper(here: &Sector, there: &Sector) -> bool
    ensures { IsTrue result ↔ ShowsUpper here.now there.now }
{
    here.ceiling > there.ceiling && !(is_sky(here.ceiling_name) && is_sky(there.ceiling_name))
}

fn shows_lower(here: &Sector, there: &Sector) -> bool
    ensures { IsTrue result ↔ ShowsLower here.now there.now }
{
    here.floor < there.floor
}

// For most sidedefs, the first byte shows that there is one.
#[inline]
fn is_no_texture(bytes: [u8; 8]) -> bool
    ensures { IsTrue result ↔ IsNoTexture bytes }
{
    let [first, second, ..] = bytes;
    first == b'-' && second == 0
}

fn is_sky(bytes: [u8; 8]) -> bool
    ensures { IsTrue result ↔ IsSky bytes }
{
    Name8::stored(bytes) == Name8::stored(*b"F_SKY1\0\0")
}
