//! W19: a level without an exit, and keys that aren't there.

ghost use Rattle.std.specs.Prelude.{◌≡◌, ◌↔◌, ◌+◌, ◌<◌, ◌&&◌, ◌^◌, not, IfOk, IsTrue, OnOk};
ghost use Rattle.std.specs.List.{list_any};
ghost use Rattle.game_numbers.specs.Kinds.{key_kinds};
ghost use Rattle.game_numbers.specs.Number.{is_one_of};
ghost use Rattle.game_numbers.specs.Specials.{locks};
ghost use Rattle.map_level.specs.Links.{things_of};
ghost use Rattle.game_warnings.specs.Lock.{is_key, lacking, lacks, locked, IsLocked};
ghost use Rattle.game_warnings.specs.Warnings.{key_number, Tells, TellsBelow};
ghost use Rattle.game_warnings.specs.Holds.{HoldsOf};

use crate::code::GameCode;
use crate::count::counted;
use crate::exit::has_exit;
use crate::skill::{Skill, Skills, is_there};
use crate::told::{Told, tell_where};
use crate::warning::GameWarning;
use game_numbers::Key;
use le_rec::{LineDef, Thing};
use map_level::Level;
use std::alloc::{AllocError, Allocator};

/// W19 of a level: that it has no exit, and the keys that its linedefs want and that aren't there in some skill.
pub fn locked_level<A: Allocator>(
    alloc: A,
    level: &Level<'_>,
    most: usize,
) -> Result<Told<A>, AllocError>
    ensures told { IfOk result (λ told. Tells (HoldsOf level.now GameCode.W19) told) }
    ensures most { IfOk result (λ told. told.most ≡ most) }
{
    let mut told = Told::new(alloc, most);
    tell_exit(&mut told, level)?;
    tell_keys(&mut told, level)?;
    Ok(told)
}

fn tell_exit<A: Allocator>(told: &mut Told<A>, level: &Level<'_>) -> Result<(), AllocError>
    requires { TellsBelow (HoldsOf level.now GameCode.W19) 0 told.old }
    ensures told { OnOk result (TellsBelow (HoldsOf level.now GameCode.W19) 1 told.new) }
    ensures most { OnOk result (told.new.most ≡ told.old.most) }
{
    let holds = !has_exit(level);
    tell_where(told, level, GameCode::W19, GameWarning::NoExit, holds)
}

fn tell_keys<A: Allocator>(told: &mut Told<A>, level: &Level<'_>) -> Result<(), AllocError>
    requires { TellsBelow (HoldsOf level.now GameCode.W19) 1 told.old }
    ensures told { OnOk result (TellsBelow (HoldsOf level.now GameCode.W19) 4 told.new) }
    ensures most { OnOk result (told.new.most ≡ told.old.most) }
{
    tell_key(told, level, Key::Blue)?;
    tell_key(told, level, Key::Yellow)?;
    tell_key(told, level, Key::Red)
}

// Adds a key that is wanted and lacks.
fn tell_key<A: Allocator>(told: &mut Told<A>, level: &Level<'_>, key: Key) -> Result<(), AllocError>
    requires { TellsBelow (HoldsOf level.now GameCode.W19) (1 + key_number key) told.old }
    ensures told { OnOk result (TellsBelow (HoldsOf level.now GameCode.W19) (1 + key_number key + 1) told.new) }
    ensures most { OnOk result (told.new.most ≡ told.old.most) }
{
    let linedefs = locked(level, key);
    let skills = lacking(level, key);
    let warning = GameWarning::Locked {
        key,
        linedefs,
        skills,
    };
    let holds = linedefs > 0 && skills.is_in_some();
    tell_where(told, level, GameCode::W19, warning, holds)
}

// How many linedefs want a key.
fn locked(level: &Level<'_>, key: Key) -> u32
    ensures { result ≡ locked level.now key }
{
    let linedefs = level.linedefs();
    let mut count = 0;
    for i in 0..linedefs.len() {
        count = counted(count, wants(&linedefs.at(i), key));
    }
    count
}

fn wants(linedef: &LineDef, key: Key) -> bool
    ensures { result ≡ is_one_of (locks key) linedef.now.special }
{
    key.locks(linedef.special)
}

// The skills in which a key isn't there.
fn lacking(level: &Level<'_>, key: Key) -> Skills
    ensures { result ≡ lacking level.now key }
{
    Skills {
        easy: !has_key(level, key, Skill::Easy),
        medium: !has_key(level, key, Skill::Medium),
        hard: !has_key(level, key, Skill::Hard),
    }
}

// Whether a key is there for one player in a skill.
fn has_key(level: &Level<'_>, key: Key, skill: Skill) -> bool
    ensures { result ≡ list_any (is_key key skill) (things_of level.now) }
{
    let things = level.things();
    for k in 0..things.len() {
        if is_key(&things.at(k), key, skill) {
            return true;
        }
    }
    false
}

fn is_key(thing: &Thing, key: Key, skill: Skill) -> bool
    ensures { result ≡ is_key key skill thing.now }
{
    key.is_of_kind(thing.kind) && is_there(thing, skill)
}
