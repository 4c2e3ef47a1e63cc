//! How long a savegame is at a level's start.

ghost use Rattle.std.specs.Prelude.{◌≡◌, ◌≤◌, ◌+◌, ◌*◌, ◌^◌, ◌<◌, ◌||◌, ◌&&◌, ◌==◌, length, max, not, pos, take, if◌then◌else◌};
ghost use Rattle.std.specs.Ordering.{int_eq};
ghost use Rattle.map_level.specs.Links.{linedefs_of, no_side, sectors_of, things_of};
ghost use Rattle.map_level.specs.Reading.{linedef_under, number_of};
ghost use Rattle.game_numbers.specs.Kinds.{game_kinds};
ghost use Rattle.game_numbers.specs.Number.{is_one_of};
ghost use Rattle.game_warnings.specs.Ending.{read_count};
ghost use Rattle.game_warnings.specs.Save.{behind, behind_thing, behind_special, is_saved, saved, saved_in, side_count, special_size, specials_end, things_end, world_end};
ghost use Rattle.game_warnings.specs.Skill.{is_there};

use crate::count::counted;
use crate::ending::read_count;
use crate::skill::{Skill, is_there};
use game_numbers::{is_flashing, is_glowing, is_of_the_game, is_timed_door};
use le_rec::{LineDef, Sector, Thing};
use map_level::Level;
use map_level::links::is_no_side;

// The kind of player 1's start.
const PLAYER: i16 = 1;

/// How long a savegame is at the level's start, in bytes, in the skill in which it is longest.
pub fn saved(level: &Level<'_>) -> u64
    ensures { result ≡ saved level.now }
{
    let easy = saved_in(level, Skill::Easy);
    let medium = saved_in(level, Skill::Medium);
    let hard = saved_in(level, Skill::Hard);
    easy.max(medium.max(hard))
}

fn saved_in(level: &Level<'_>, skill: Skill) -> u64
    ensures { result ≡ saved_in level.now skill }
{
    let world = world_end(level);
    let things = things_end(level, skill, world);
    specials_end(level, things + 1) + 2
}

fn world_end(level: &Level<'_>) -> u64
    ensures is { result ≡ world_end level.now }
    ensures few { result < 2 ^ 38 }
{
    let sectors = level.sectors().len() as u64;
    let linedefs = level.linedefs().len() as u64;
    332 + 14 * sectors + 6 * linedefs + 10 * side_count(level)
}

// How many sides the linedefs have.
fn side_count(level: &Level<'_>) -> u64
    ensures is { result ≡ side_count level.now }
    ensures few { result ≤ 2 ^ 32 }
{
    let linedefs = level.linedefs();
    let mut front = 0;
    let mut back = 0;
    for i in 0..linedefs.len() {
        let linedef = linedefs.at(i);
        front = counted(front, has_front(level, &linedef));
        back = counted(back, has_back(level, &linedef));
    }
    u64::from(front) + u64::from(back)
}

fn has_front(level: &Level<'_>, linedef: &LineDef) -> bool
    ensures { result ≡ not (int_eq (linedef_under level.now.reading linedef.now).side0 (no_side level.now.reading)) }
{
    !is_no_side(level, linedef.side0)
}

fn has_back(level: &Level<'_>, linedef: &LineDef) -> bool
    ensures { result ≡ not (int_eq (linedef_under level.now.reading linedef.now).side1 (no_side level.now.reading)) }
{
    !is_no_side(level, linedef.side1)
}

// Behind the things that are there in a skill.
fn things_end(level: &Level<'_>, skill: Skill, start: u64) -> u64
    requires { start < 2 ^ 38 }
    ensures is { result ≡ things_end skill start (take (read_count level.now) (things_of level.now)) }
    ensures few { result < 2 ^ 40 }
{
    let things = level.things();
    let mut at = start;
    for k in 0..read_count(level) {
        at = behind_thing(&things.at(k), skill, at);
    }
    at
}

fn behind_thing(thing: &Thing, skill: Skill, at: u64) -> u64
    requires { at < 2 ^ 40 }
    ensures is { result ≡ behind_thing skill at thing.now }
    ensures few { result ≤ at + 158 }
{
    if is_saved(thing, skill) {
        return behind(154, at);
    }
    at
}

fn is_saved(thing: &Thing, skill: Skill) -> bool
    ensures { result ≡ is_saved skill thing.now }
{
    thing.kind == PLAYER || is_of_the_game(thing.kind) && is_there(thing, skill)
}

// Behind what the sectors do.
fn specials_end(level: &Level<'_>, start: u64) -> u64
    requires { start ≤ 2 ^ 40 }
    ensures is { result ≡ specials_end start (sectors_of level.now) }
    ensures few { result < 2 ^ 41 }
{
    let sectors = level.sectors();
    let mut at = start;
    for s in 0..sectors.len() {
        at = behind_special(&sectors.at(s), at);
    }
    at
}

fn behind_special(sector: &Sector, at: u64) -> u64
    requires { at < 2 ^ 41 }
    ensures is { result ≡ behind_special at sector.now }
    ensures few { result ≤ at + 44 }
{
    let size = special_size(sector);
    if size == 0 {
        return at;
    }
    behind(size, at)
}

fn special_size(sector: &Sector) -> u64
    ensures is { result ≡ special_size sector.now }
    ensures few { result ≤ 40 }
{
    if is_flashing(sector.special) {
        return 36;
    }
    if is_glowing(sector.special) {
        return 28;
    }
    if is_timed_door(sector.special) {
        return 40;
    }
    0
}

// Behind a record of so many bytes, which begins behind the byte of its kind at a multiple of 4.
fn behind(size: u64, at: u64) -> u64
    requires at { at < 2 ^ 41 }
    requires size { size ≤ 154 }
    ensures is { result ≡ behind size at }
    ensures few { result ≤ at + 4 + size }
{
    (at + 1 + 3) / 4 * 4 + size
}
