//! W17: specials whose use ends or spoils the game.

ghost use Rattle.std.specs.Prelude.{◌≡◌, ◌↔◌, ◌+◌, ◌*◌, ◌<◌, Some, length, IfOk, IsTrue, OnOk};
ghost use Rattle.std.specs.List.{slice_get};
ghost use Rattle.map_level.specs.Links.{linedefs_of};
ghost use Rattle.map_level.specs.Reading.{linedef_under};
ghost use Rattle.game_numbers.specs.Number.{is_one_of};
ghost use Rattle.game_numbers.specs.Specials.{ceiling, door, platform};
ghost use Rattle.game_warnings.specs.Crossing.{HasNoBack};
ghost use Rattle.game_warnings.specs.Effect.{answer_count, AreAnswers, IsOneSidedDoor};
ghost use Rattle.game_warnings.specs.Harm.{has_effect, AreHarmsWhere};
ghost use Rattle.game_warnings.specs.Warnings.{effect_number, Tells, TellsBelow};
ghost use Rattle.game_warnings.specs.Holds.{HoldsOf};

use crate::answer::{answers_at, answers_of};
use crate::code::GameCode;
use crate::effect_tag::has_effect;
use crate::harm::{harm_of, harms_where};
use crate::special::has_special;
use crate::told::{Told, tell_where};
use crate::warning::{Effect, GameWarning, Harm};
use game_numbers::{is_ceiling, is_door, is_platform};
use le_rec::LineDef;
use map_level::Level;
use map_level::links::{is_no_side, linedef_at};
use std::alloc::{AllocError, Allocator};

// So many platforms are the most, and so many ceilings.
const MOST: u32 = 30;

/// W17 of a level: its doors without a back sidedef, the linedefs that start more platforms or ceilings than the game has room for,
/// and those that harm a sector of their tag. It takes 256 KiB; where a linedef may harm by what lies around a sector, 64 KiB and up to
/// 52 bytes a sector besides, and 1 MiB for each way in which linedefs harm a sector of their tag.
pub fn effects<A: Allocator + Copy>(
    alloc: A,
    level: &Level<'_>,
    most: usize,
) -> Result<Told<A>, AllocError>
    ensures told { IfOk result (λ told. Tells (HoldsOf level.now GameCode.W17) told) }
    ensures most { IfOk result (λ told. told.most ≡ most) }
{
    let counts = answers_of(alloc, level)?;
    let donut = harms_where(alloc, level, Effect::Donut)?;
    let nearest = harms_where(alloc, level, Effect::Nearest)?;
    let change = harms_where(alloc, level, Effect::Change)?;
    tell_effects(alloc, level, &counts, &donut, &nearest, &change, most)
}

fn tell_effects<A: Allocator>(
    alloc: A,
    level: &Level<'_>,
    counts: &[u32],
    donut: &[Option<Harm>],
    nearest: &[Option<Harm>],
    change: &[Option<Harm>],
    most: usize,
) -> Result<Told<A>, AllocError>
    requires counts { AreAnswers level.now counts.now }
    requires donut { AreHarmsWhere level.now Effect.Donut donut.now }
    requires nearest { AreHarmsWhere level.now Effect.Nearest nearest.now }
    requires change { AreHarmsWhere level.now Effect.Change change.now }
    ensures told { IfOk result (λ told. Tells (HoldsOf level.now GameCode.W17) told) }
    ensures most { IfOk result (λ told. told.most ≡ most) }
{
    let mut told = Told::new(alloc, most);
    for i in 0..level.linedefs().len() {
        tell_linedef(&mut told, level, counts, donut, nearest, change, i as u32)?;
    }
    Ok(told)
}

// Adds what a linedef's use does.
fn tell_linedef<A: Allocator>(
    told: &mut Told<A>,
    level: &Level<'_>,
    counts: &[u32],
    donut: &[Option<Harm>],
    nearest: &[Option<Harm>],
    change: &[Option<Harm>],
    i: u32,
) -> Result<(), AllocError>
    requires counts { AreAnswers level.now counts.now }
    requires donut { AreHarmsWhere level.now Effect.Donut donut.now }
    requires nearest { AreHarmsWhere level.now Effect.Nearest nearest.now }
    requires change { AreHarmsWhere level.now Effect.Change change.now }
    requires there { i < length level.now.linedefs.records }
    requires below { TellsBelow (HoldsOf level.now GameCode.W17) (i * 6) told.old }
    ensures told { OnOk result (TellsBelow (HoldsOf level.now GameCode.W17) (i * 6 + 6) told.new) }
    ensures most { OnOk result (told.new.most ≡ told.old.most) }
{
    if !has_special(level, i) {
        return Ok(());
    }
    tell_by_hand(told, level, donut, i)?;
    tell_counted(told, level, counts, i)?;
    tell_around(told, level, nearest, change, i)
}

// Adds a door, or a donut that does harm.
fn tell_by_hand<A: Allocator>(
    told: &mut Told<A>,
    level: &Level<'_>,
    donut: &[Option<Harm>],
    i: u32,
) -> Result<(), AllocError>
    requires donut { AreHarmsWhere level.now Effect.Donut donut.now }
    requires there { i < length level.now.linedefs.records }
    requires below { TellsBelow (HoldsOf level.now GameCode.W17) (i * 6) told.old }
    ensures told { OnOk result (TellsBelow (HoldsOf level.now GameCode.W17) (i * 6 + 2) told.new) }
    ensures most { OnOk result (told.new.most ≡ told.old.most) }
{
    tell_door(told, level, i)?;
    let linedef = level.linedefs().at(i as usize);
    tell_harm(told, level, donut, Effect::Donut, i, &linedef)
}

// Adds too many platforms and ceilings.
fn tell_counted<A: Allocator>(
    told: &mut Told<A>,
    level: &Level<'_>,
    counts: &[u32],
    i: u32,
) -> Result<(), AllocError>
    requires counts { AreAnswers level.now counts.now }
    requires there { i < length level.now.linedefs.records }
    requires below { TellsBelow (HoldsOf level.now GameCode.W17) (i * 6 + 2) told.old }
    ensures told { OnOk result (TellsBelow (HoldsOf level.now GameCode.W17) (i * 6 + 4) told.new) }
    ensures most { OnOk result (told.new.most ≡ told.old.most) }
{
    let linedef = level.linedefs().at(i as usize);
    tell_platforms(told, level, counts, i, &linedef)?;
    tell_ceilings(told, level, counts, i, &linedef)
}

// Adds the harms by what lies around a sector.
fn tell_around<A: Allocator>(
    told: &mut Told<A>,
    level: &Level<'_>,
    nearest: &[Option<Harm>],
    change: &[Option<Harm>],
    i: u32,
) -> Result<(), AllocError>
    requires nearest { AreHarmsWhere level.now Effect.Nearest nearest.now }
    requires change { AreHarmsWhere level.now Effect.Change change.now }
    requires there { i < length level.now.linedefs.records }
    requires below { TellsBelow (HoldsOf level.now GameCode.W17) (i * 6 + 4) told.old }
    ensures told { OnOk result (TellsBelow (HoldsOf level.now GameCode.W17) (i * 6 + 6) told.new) }
    ensures most { OnOk result (told.new.most ≡ told.old.most) }
{
    let linedef = level.linedefs().at(i as usize);
    tell_harm(told, level, nearest, Effect::Nearest, i, &linedef)?;
    tell_harm(told, level, change, Effect::Change, i, &linedef)
}

// Adds how an effect harms the first sector of a linedef's tag that it harms, if the linedef's special has the effect.
fn tell_harm<A: Allocator>(
    told: &mut Told<A>,
    level: &Level<'_>,
    harms: &[Option<Harm>],
    effect: Effect,
    i: u32,
    linedef: &LineDef,
) -> Result<(), AllocError>
    requires harms { AreHarmsWhere level.now effect harms.now }
    requires there { slice_get (linedefs_of level.now) i ≡ Some (linedef_under level.now.reading linedef.now) }
    requires below { TellsBelow (HoldsOf level.now GameCode.W17) (i * 6 + effect_number effect) told.old }
    ensures told { OnOk result (TellsBelow (HoldsOf level.now GameCode.W17) (i * 6 + effect_number effect + 1) told.new) }
    ensures most { OnOk result (told.new.most ≡ told.old.most) }
{
    if !has_effect(linedef, effect) {
        return Ok(());
    }
    let Some(harm) = harm_of(level, harms, effect, linedef.tag) else {
        return Ok(());
    };
    let warning = GameWarning::Harmful { linedef: i, harm };
    tell_where(told, level, GameCode::W17, warning, true)
}

fn tell_door<A: Allocator>(
    told: &mut Told<A>,
    level: &Level<'_>,
    linedef: u32,
) -> Result<(), AllocError>
    requires { TellsBelow (HoldsOf level.now GameCode.W17) (linedef * 6) told.old }
    ensures told { OnOk result (TellsBelow (HoldsOf level.now GameCode.W17) (linedef * 6 + 1) told.new) }
    ensures most { OnOk result (told.new.most ≡ told.old.most) }
{
    let warning = GameWarning::OneSidedDoor { linedef };
    let holds = is_one_sided_door(level, linedef);
    tell_where(told, level, GameCode::W17, warning, holds)
}

// Whether the linedef of a number is a door that is opened by hand, without a back sidedef.
fn is_one_sided_door(level: &Level<'_>, i: u32) -> bool
    ensures { IsTrue result ↔ IsOneSidedDoor level.now i }
{
    match linedef_at(level, i as usize) {
        Some(linedef) => is_door_in_a_wall(level, &linedef),
        None => false,
    }
}

fn is_door_in_a_wall(level: &Level<'_>, linedef: &LineDef) -> bool
    ensures { IsTrue result ↔ (IsTrue (is_one_of door linedef.now.special)
        × HasNoBack level.now (linedef_under level.now.reading linedef.now)) }
{
    is_door(linedef.special) && is_no_side(level, linedef.side1)
}

fn tell_platforms<A: Allocator>(
    told: &mut Told<A>,
    level: &Level<'_>,
    counts: &[u32],
    i: u32,
    linedef: &LineDef,
) -> Result<(), AllocError>
    requires counts { AreAnswers level.now counts.now }
    requires there { slice_get (linedefs_of level.now) i ≡ Some (linedef_under level.now.reading linedef.now) }
    requires below { TellsBelow (HoldsOf level.now GameCode.W17) (i * 6 + 2) told.old }
    ensures told { OnOk result (TellsBelow (HoldsOf level.now GameCode.W17) (i * 6 + 2 + 1) told.new) }
    ensures most { OnOk result (told.new.most ≡ told.old.most) }
{
    let platforms = answering(level, counts, linedef);
    let warning = GameWarning::ManyPlatforms {
        linedef: i,
        platforms,
    };
    let holds = starts_platforms(linedef) && platforms > MOST;
    tell_where(told, level, GameCode::W17, warning, holds)
}

fn tell_ceilings<A: Allocator>(
    told: &mut Told<A>,
    level: &Level<'_>,
    counts: &[u32],
    i: u32,
    linedef: &LineDef,
) -> Result<(), AllocError>
    requires counts { AreAnswers level.now counts.now }
    requires there { slice_get (linedefs_of level.now) i ≡ Some (linedef_under level.now.reading linedef.now) }
    requires below { TellsBelow (HoldsOf level.now GameCode.W17) (i * 6 + 3) told.old }
    ensures told { OnOk result (TellsBelow (HoldsOf level.now GameCode.W17) (i * 6 + 3 + 1) told.new) }
    ensures most { OnOk result (told.new.most ≡ told.old.most) }
{
    let ceilings = answering(level, counts, linedef);
    let warning = GameWarning::ManyCeilings {
        linedef: i,
        ceilings,
    };
    let holds = moves_ceilings(linedef) && ceilings > MOST;
    tell_where(told, level, GameCode::W17, warning, holds)
}

// How many sectors answer a linedef's tag.
fn answering(level: &Level<'_>, counts: &[u32], linedef: &LineDef) -> u32
    requires { AreAnswers level.now counts.now }
    ensures { result ≡ answer_count level.now linedef.now.tag }
{
    answers_at(level, counts, linedef.tag)
}

fn starts_platforms(linedef: &LineDef) -> bool
    ensures { result ≡ is_one_of platform linedef.now.special }
{
    is_platform(linedef.special)
}

fn moves_ceilings(linedef: &LineDef) -> bool
    ensures { result ≡ is_one_of ceiling linedef.now.special }
{
    is_ceiling(linedef.special)
}
