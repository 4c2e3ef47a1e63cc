//! W14: linedefs whose special is none of the game's.

ghost use Rattle.std.specs.Prelude.{◌≡◌, ◌≢◌, ◌↔◌, pos, false, IfOk, IsTrue};
ghost use Rattle.game_numbers.specs.Number.{is_one_of};
ghost use Rattle.game_numbers.specs.Specials.{game};
ghost use Rattle.game_warnings.specs.UnknownSpecial.{IsNone, IsUnknownSpecial};
ghost use Rattle.game_warnings.specs.Warnings.{Tells};
ghost use Rattle.game_warnings.specs.Holds.{HoldsOf};

use crate::code::GameCode;
use crate::told::{Told, tell_where};
use crate::warning::GameWarning;
use game_numbers::is_known;
use map_level::Level;
use map_level::links::linedef_at;
use std::alloc::{AllocError, Allocator};

/// W14 of a level: its linedefs whose special is neither 0 nor one of the game's.
pub fn unknown_specials<A: Allocator>(
    alloc: A,
    level: &Level<'_>,
    most: usize,
) -> Result<Told<A>, AllocError>
    ensures told { IfOk result (λ told. Tells (HoldsOf level.now GameCode.W14) told) }
    ensures most { IfOk result (λ told. told.most ≡ most) }
{
    let mut told = Told::new(alloc, most);
    for i in 0..level.linedefs().len() {
        let linedef = i as u32;
        tell_where(
            &mut told,
            level,
            GameCode::W14,
            GameWarning::UnknownSpecial { linedef },
            is_unknown_special(level, linedef),
        )?;
    }
    Ok(told)
}

// Whether the special of the linedef of a number is neither 0 nor one of the game's.
fn is_unknown_special(level: &Level<'_>, i: u32) -> bool
    ensures { IsTrue result ↔ IsUnknownSpecial level.now i }
{
    match linedef_at(level, i as usize) {
        Some(linedef) => is_none(linedef.special),
        None => false,
    }
}

fn is_none(special: i16) -> bool
    ensures { IsTrue result ↔ IsNone special }
{
    special != 0 && !is_known(special)
}
