//! W11: things of a kind that the game doesn't know.

ghost use Rattle.std.specs.Prelude.{◌≡◌, ◌≢◌, ◌↔◌, ◌<ℤ◌, pos, IfOk, IsTrue};
ghost use Rattle.std.specs.Int.{int_bit_and, w16};
ghost use Rattle.map_warnings.specs.UnknownThing.{is_of_the_game, IsUnknown, IsUnknownThing};
ghost use Rattle.map_warnings.specs.Warnings.{Tells};
ghost use Rattle.map_warnings.specs.Holds.{HoldsOf};

use crate::between::is_between;
use crate::told::{Told, tell_where};
use crate::warning::Warning;
use le_rec::Thing;
use level_codes::WarningCode;
use map_level::Level;
use std::alloc::{AllocError, Allocator};

// The last kind that is a start of a player.
const LAST_PLAYER: i16 = 4;

// The kind of a deathmatch start.
const DEATHMATCH: i16 = 11;

// The bits of a thing's options that say in which skills it is placed.
const SKILLS: i16 = 7;

/// W11 of a level: its things that some skill places, and whose kind the game doesn't have.
pub fn unknown_things<A: Allocator>(
    alloc: A,
    level: &Level<'_>,
    most: usize,
) -> Result<Told<A>, AllocError>
    ensures told { IfOk result (λ told. Tells (HoldsOf level.now WarningCode.W11) told) }
    ensures most { IfOk result (λ told. told.most ≡ most) }
{
    let mut told = Told::new(alloc, most);
    for k in 0..level.things().len() {
        let thing = k as u32;
        tell_where(
            &mut told,
            level,
            WarningCode::W11,
            Warning::UnknownThing { thing },
            is_unknown_at(level, thing),
        )?;
    }
    Ok(told)
}

// Whether the thing of a number is one that the game doesn't know.
fn is_unknown_at(level: &Level<'_>, k: u32) -> bool
    ensures { IsTrue result ↔ IsUnknownThing level.now k }
{
    match level.things().get(k as usize) {
        Some(thing) => is_unknown(&thing),
        None => false,
    }
}

fn is_unknown(thing: &Thing) -> bool
    ensures { IsTrue result ↔ IsUnknown thing.now }
{
    if thing.kind == DEATHMATCH {
        return false;
    }
    if is_of_the_game(thing.kind) {
        return false;
    }
    is_no_player(thing) && is_placed(thing)
}

// Whether a thing is no start of a player.
fn is_no_player(thing: &Thing) -> bool
    ensures { IsTrue result ↔ (pos 4 <ℤ thing.now.kind) }
{
    thing.kind > LAST_PLAYER
}

// Whether some skill places a thing.
fn is_placed(thing: &Thing) -> bool
    ensures { IsTrue result ↔ (int_bit_and w16 thing.now.options (pos 7) ≢ pos 0) }
{
    thing.options & SKILLS != 0
}

// Whether a kind is one of the game's.
fn is_of_the_game(kind: i16) -> bool
    ensures { result ≡ is_of_the_game kind }
{
    is_between(5, 10, kind)
        | is_between(12, 89, kind)
        | is_between(2001, 2008, kind)
        | is_between(2010, 2015, kind)
        | is_between(2018, 2019, kind)
        | is_between(2022, 2026, kind)
        | is_between(2028, 2028, kind)
        | is_between(2035, 2035, kind)
        | is_between(2045, 2049, kind)
        | is_between(3001, 3006, kind)
}
