//! W21: where the first game ends the reading of a level's things.

ghost use Rattle.std.specs.Prelude.{◌≡◌, ◌≤◌, ◌+◌, ◌*◌, ◌<◌, length, slice_index_or, OnOk};
ghost use Rattle.std.specs.List.{position_or_len};
ghost use Rattle.map_level.specs.Links.{things_of};
ghost use Rattle.game_numbers.specs.Kinds.{second_game};
ghost use Rattle.game_numbers.specs.Number.{is_one_of};
ghost use Rattle.game_warnings.specs.Ending.{is_digit, is_episodic, is_first_game, read_count};
ghost use Rattle.game_warnings.specs.Warnings.{TellsBelow};
ghost use Rattle.game_warnings.specs.Holds.{HoldsOf};

use crate::code::GameCode;
use crate::told::{Told, tell_where};
use crate::warning::GameWarning;
use game_numbers::is_second_game;
use le_rec::Thing;
use map_level::Level;
use std::alloc::{AllocError, Allocator};

/// Adds a thing at which the reading ends: the thing of the number of things that are read.
pub fn tell_ending<A: Allocator>(
    told: &mut Told<A>,
    level: &Level<'_>,
    read: usize,
    k: u32,
) -> Result<(), AllocError>
    requires read { read ≡ read_count level.now }
    requires there { k < length (things_of level.now) }
    requires below { TellsBelow (HoldsOf level.now GameCode.W21) (k * 4) told.old }
    ensures told { OnOk result (TellsBelow (HoldsOf level.now GameCode.W21) (k * 4 + 1) told.new) }
    ensures most { OnOk result (told.new.most ≡ told.old.most) }
{
    let follow = following(level, k);
    let warning = GameWarning::EndsThings { thing: k, follow };
    tell_where(told, level, GameCode::W21, warning, k as usize == read)
}

// How many things follow a thing.
fn following(level: &Level<'_>, k: u32) -> u32
    requires { k < length (things_of level.now) }
    ensures { length (things_of level.now) ≡ k + 1 + result }
{
    level.things().len() as u32 - k - 1
}

/// How many of a level's things the game reads.
pub fn read_count(level: &Level<'_>) -> usize
    ensures is { result ≡ read_count level.now }
    ensures few { result ≤ length (things_of level.now) }
{
    if is_first_game(level) {
        return first_game_count(level);
    }
    level.things().len()
}

// How many stand before the first that the first game doesn't have.
fn first_game_count(level: &Level<'_>) -> usize
    ensures is { result ≡ position_or_len (λ thing. is_one_of second_game thing.kind) (things_of level.now) }
    ensures few { result ≤ length (things_of level.now) }
{
    let things = level.things();
    let count = things.len();
    for k in 0..count {
        if is_of_second_game(&things.at(k)) {
            return k;
        }
    }
    count
}

fn is_of_second_game(thing: &Thing) -> bool
    ensures { result ≡ is_one_of second_game thing.now.kind }
{
    is_second_game(thing.kind)
}

// Whether a level is one of the first game's, by its name.
fn is_first_game(level: &Level<'_>) -> bool
    ensures { result ≡ is_first_game level.now }
{
    let bytes = level.name(0).bytes();
    is_episodic(&bytes)
}

fn is_episodic(bytes: &[u8; 8]) -> bool
    ensures { result ≡ is_episodic bytes.now }
{
    bytes[0] == b'E'
        && is_digit(bytes[1])
        && bytes[2] == b'M'
        && is_digit(bytes[3])
        && bytes[4] == 0
}

fn is_digit(byte: u8) -> bool
    ensures { result ≡ is_digit byte }
{
    byte >= 48 && byte <= 57
}
