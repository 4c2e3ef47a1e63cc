//! W15: linedefs that act on all sectors without a tag.

ghost use Rattle.std.specs.Prelude.{◌≡◌, ◌↔◌, pos, IfOk, IsTrue};
ghost use Rattle.std.specs.Ordering.{int_eq};
ghost use Rattle.game_warnings.specs.ZeroTag.{zero_tagged, GoesByZero, IsOfZeroTag};
ghost use Rattle.game_warnings.specs.Warnings.{Tells};
ghost use Rattle.game_warnings.specs.Holds.{HoldsOf};

use crate::code::GameCode;
use crate::told::{Told, tell_where};
use crate::warning::GameWarning;
use game_numbers::is_tagged;
use le_rec::{LineDef, Sector};
use map_level::Level;
use map_level::links::linedef_at;
use std::alloc::{AllocError, Allocator};

/// W15 of a level: its linedefs whose special goes by the tag, and whose tag is 0.
pub fn zero_tags<A: Allocator>(
    alloc: A,
    level: &Level<'_>,
    most: usize,
) -> Result<Told<A>, AllocError>
    ensures told { IfOk result (λ told. Tells (HoldsOf level.now GameCode.W15) told) }
    ensures most { IfOk result (λ told. told.most ≡ most) }
{
    tell_zero_tags(alloc, level, zero_tagged(level), most)
}

fn tell_zero_tags<A: Allocator>(
    alloc: A,
    level: &Level<'_>,
    sectors: u32,
    most: usize,
) -> Result<Told<A>, AllocError>
    requires { sectors ≡ zero_tagged level.now }
    ensures told { IfOk result (λ told. Tells (HoldsOf level.now GameCode.W15) told) }
    ensures most { IfOk result (λ told. told.most ≡ most) }
{
    let mut told = Told::new(alloc, most);
    for i in 0..level.linedefs().len() {
        let linedef = i as u32;
        tell_where(
            &mut told,
            level,
            GameCode::W15,
            GameWarning::ZeroTag { linedef, sectors },
            is_of_zero_tag(level, linedef),
        )?;
    }
    Ok(told)
}

// Whether the linedef of a number goes by its tag, which is 0.
fn is_of_zero_tag(level: &Level<'_>, i: u32) -> bool
    ensures { IsTrue result ↔ IsOfZeroTag level.now i }
{
    match linedef_at(level, i as usize) {
        Some(linedef) => goes_by_zero(&linedef),
        None => false,
    }
}

fn goes_by_zero(linedef: &LineDef) -> bool
    ensures { IsTrue result ↔ GoesByZero linedef.now }
{
    linedef.tag == 0 && is_tagged(linedef.special)
}

// How many sectors have the tag 0.
fn zero_tagged(level: &Level<'_>) -> u32
    ensures { result ≡ zero_tagged level.now }
{
    let sectors = level.sectors();
    let mut count = 0;
    for s in 0..sectors.len() {
        if has_zero(&sectors.at(s)) {
            count += 1;
        }
    }
    count
}

fn has_zero(sector: &Sector) -> bool
    ensures { result ≡ int_eq sector.now.tag (pos 0) }
{
    sector.tag == 0
}
