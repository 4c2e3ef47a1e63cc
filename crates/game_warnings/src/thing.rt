//! W21: things that end the reading of things, that no skill places, or whose shots end the game.

ghost use Rattle.std.specs.Prelude.{◌≡◌, ◌↔◌, ◌+◌, ◌*◌, ◌<◌, ◌&&◌, ◌^◌, false, length, pos, IfOk, IsTrue, OnOk};
ghost use Rattle.std.specs.Ordering.{int_eq};
ghost use Rattle.map_level.specs.Links.{things_of};
ghost use Rattle.game_numbers.specs.Kinds.{game_kinds};
ghost use Rattle.game_numbers.specs.Number.{is_one_of};
ghost use Rattle.game_warnings.specs.Ending.{read_count};
ghost use Rattle.game_warnings.specs.Shooter.{crowded_in, skills_by, target_count, unaimed_in, AreTargets, IsInNoSkill};
ghost use Rattle.game_warnings.specs.Skill.{is_placed, is_there};
ghost use Rattle.game_warnings.specs.Warnings.{Tells, TellsBelow};
ghost use Rattle.game_warnings.specs.Holds.{HoldsOf};

use crate::code::GameCode;
use crate::count::counted;
use crate::ending::{read_count, tell_ending};
use crate::skill::{Skill, Skills, is_placed, is_there};
use crate::told::{Told, tell_where};
use crate::warning::GameWarning;
use game_numbers::is_of_the_game;
use le_rec::Thing;
use map_level::Level;
use std::alloc::{AllocError, Allocator};

// The kind of a shooter of cubes, and that of its targets.
const SHOOTER: i16 = 89;

const TARGET: i16 = 87;

// So many targets are the most.
const MOST_TARGETS: u32 = 32;

/// How many targets there are for one player in each skill.
#[derive(Clone, Copy)]
pub struct Targets {
    pub easy: u32,
    pub medium: u32,
    pub hard: u32,
}

/// W21 of a level.
pub fn things<A: Allocator>(alloc: A, level: &Level<'_>, most: usize) -> Result<Told<A>, AllocError>
    ensures told { IfOk result (λ told. Tells (HoldsOf level.now GameCode.W21) told) }
    ensures most { IfOk result (λ told. told.most ≡ most) }
{
    let read = read_count(level);
    tell_things(alloc, level, read, targets_of(level), most)
}

fn tell_things<A: Allocator>(
    alloc: A,
    level: &Level<'_>,
    read: usize,
    targets: Targets,
    most: usize,
) -> Result<Told<A>, AllocError>
    requires read { read ≡ read_count level.now }
    requires targets { AreTargets level.now targets }
    ensures told { IfOk result (λ told. Tells (HoldsOf level.now GameCode.W21) told) }
    ensures most { IfOk result (λ told. told.most ≡ most) }
{
    let mut told = Told::new(alloc, most);
    for k in 0..level.things().len() {
        tell_thing(&mut told, level, read, targets, k as u32)?;
    }
    Ok(told)
}

// Adds what holds of a thing.
fn tell_thing<A: Allocator>(
    told: &mut Told<A>,
    level: &Level<'_>,
    read: usize,
    targets: Targets,
    k: u32,
) -> Result<(), AllocError>
    requires read { read ≡ read_count level.now }
    requires targets { AreTargets level.now targets }
    requires there { k < length (things_of level.now) }
    requires below { TellsBelow (HoldsOf level.now GameCode.W21) (k * 4) told.old }
    ensures told { OnOk result (TellsBelow (HoldsOf level.now GameCode.W21) (k * 4 + 4) told.new) }
    ensures most { OnOk result (told.new.most ≡ told.old.most) }
{
    tell_ending(told, level, read, k)?;
    tell_unplaced(told, level, k)?;
    tell_shooter(told, level, targets, k)
}

// Adds a thing that no skill places.
fn tell_unplaced<A: Allocator>(
    told: &mut Told<A>,
    level: &Level<'_>,
    k: u32,
) -> Result<(), AllocError>
    requires { TellsBelow (HoldsOf level.now GameCode.W21) (k * 4 + 1) told.old }
    ensures told { OnOk result (TellsBelow (HoldsOf level.now GameCode.W21) (k * 4 + 1 + 1) told.new) }
    ensures most { OnOk result (told.new.most ≡ told.old.most) }
{
    let warning = GameWarning::InNoSkill { thing: k };
    let holds = is_in_no_skill(level, k);
    tell_where(told, level, GameCode::W21, warning, holds)
}

// Whether a thing is one of the game's, and no skill places it.
fn is_in_no_skill(level: &Level<'_>, k: u32) -> bool
    ensures { IsTrue result ↔ IsInNoSkill level.now k }
{
    match level.things().get(k as usize) {
        Some(thing) => is_unplaced(&thing),
        None => false,
    }
}

fn is_unplaced(thing: &Thing) -> bool
    ensures { IsTrue result ↔ (IsTrue (is_one_of game_kinds thing.now.kind) × (is_placed thing.now ≡ false)) }
{
    is_of_the_game(thing.kind) && !is_placed(thing)
}

// Adds a shooter without a target, or with too many.
fn tell_shooter<A: Allocator>(
    told: &mut Told<A>,
    level: &Level<'_>,
    targets: Targets,
    k: u32,
) -> Result<(), AllocError>
    requires targets { AreTargets level.now targets }
    requires there { k < length (things_of level.now) }
    requires below { TellsBelow (HoldsOf level.now GameCode.W21) (k * 4 + 1 + 1) told.old }
    ensures told { OnOk result (TellsBelow (HoldsOf level.now GameCode.W21) (k * 4 + 1 + 1 + 1 + 1) told.new) }
    ensures most { OnOk result (told.new.most ≡ told.old.most) }
{
    tell_unaimed(told, level, targets, k)?;
    tell_crowded(told, level, targets, k)
}

fn tell_unaimed<A: Allocator>(
    told: &mut Told<A>,
    level: &Level<'_>,
    targets: Targets,
    k: u32,
) -> Result<(), AllocError>
    requires targets { AreTargets level.now targets }
    requires there { k < length (things_of level.now) }
    requires below { TellsBelow (HoldsOf level.now GameCode.W21) (k * 4 + 2) told.old }
    ensures told { OnOk result (TellsBelow (HoldsOf level.now GameCode.W21) (k * 4 + 2 + 1) told.new) }
    ensures most { OnOk result (told.new.most ≡ told.old.most) }
{
    let thing = level.things().at(k as usize);
    let skills = unaimed(level, targets, &thing);
    let warning = GameWarning::NoTarget { thing: k, skills };
    let holds = is_shooter(&thing) && skills.is_in_some();
    tell_where(told, level, GameCode::W21, warning, holds)
}

fn tell_crowded<A: Allocator>(
    told: &mut Told<A>,
    level: &Level<'_>,
    targets: Targets,
    k: u32,
) -> Result<(), AllocError>
    requires targets { AreTargets level.now targets }
    requires there { k < length (things_of level.now) }
    requires below { TellsBelow (HoldsOf level.now GameCode.W21) (k * 4 + 3) told.old }
    ensures told { OnOk result (TellsBelow (HoldsOf level.now GameCode.W21) (k * 4 + 3 + 1) told.new) }
    ensures most { OnOk result (told.new.most ≡ told.old.most) }
{
    let thing = level.things().at(k as usize);
    let skills = crowded(level, targets, &thing);
    let warning = GameWarning::ManyTargets { thing: k, skills };
    let holds = is_shooter(&thing) && skills.is_in_some();
    tell_where(told, level, GameCode::W21, warning, holds)
}

fn is_shooter(thing: &Thing) -> bool
    ensures { IsTrue result ↔ (thing.now.kind ≡ pos 89) }
{
    thing.kind == SHOOTER
}

// The skills in which a shooter is there without a target.
fn unaimed(level: &Level<'_>, targets: Targets, thing: &Thing) -> Skills
    requires { AreTargets level.now targets }
    ensures { result ≡ skills_by (unaimed_in level.now thing.now) }
{
    // Only the clauses speak of the level.
    let _level = level;
    Skills {
        easy: is_there(thing, Skill::Easy) && targets.easy == 0,
        medium: is_there(thing, Skill::Medium) && targets.medium == 0,
        hard: is_there(thing, Skill::Hard) && targets.hard == 0,
    }
}

// Those in which it is there with too many.
fn crowded(level: &Level<'_>, targets: Targets, thing: &Thing) -> Skills
    requires { AreTargets level.now targets }
    ensures { result ≡ skills_by (crowded_in level.now thing.now) }
{
    // Only the clauses speak of the level.
    let _level = level;
    Skills {
        easy: is_there(thing, Skill::Easy) && targets.easy > MOST_TARGETS,
        medium: is_there(thing, Skill::Medium) && targets.medium > MOST_TARGETS,
        hard: is_there(thing, Skill::Hard) && targets.hard > MOST_TARGETS,
    }
}

fn targets_of(level: &Level<'_>) -> Targets
    ensures { AreTargets level.now result }
{
    Targets {
        easy: target_count(level, Skill::Easy),
        medium: target_count(level, Skill::Medium),
        hard: target_count(level, Skill::Hard),
    }
}

// How many targets there are for one player in a skill.
fn target_count(level: &Level<'_>, skill: Skill) -> u32
    ensures { result ≡ target_count level.now skill }
{
    let things = level.things();
    let mut count = 0;
    for k in 0..things.len() {
        count = counted(count, is_target(&things.at(k), skill));
    }
    count
}

fn is_target(thing: &Thing, skill: Skill) -> bool
    ensures { result ≡ (int_eq thing.now.kind (pos 87) && is_there skill thing.now) }
{
    thing.kind == TARGET && is_there(thing, skill)
}
