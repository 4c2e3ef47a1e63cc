//! The warnings that a picture marks.

ghost use Rattle.std.specs.Prelude.{IfOk, None, OnOk};
ghost use Rattle.map_picture.specs.WarningMarks.{AddsAll, AddsGame, AreMarked, AreMarkedFor};
ghost use Rattle.map_warnings.specs.Holds.{IsWarning};
ghost use Rattle.map_warnings.specs.Warnings.{AreWarnings};

use level_codes::WarningCode;
use map_level::Level;
use map_warnings::{Checks, Resources, Told, Warning};
use std::alloc::{AllocError, Allocator};

/// Which warnings are marked where they hold.
#[derive(Clone, Copy, Debug, PartialEq, Eq)]
pub struct MarkedWarnings {
    /// W1: a ring at each open corner of a sector.
    pub unclosed: bool,
    /// W2: the linedef of each bare side.
    pub bare: bool,
    /// W3: a ring at each thing in the void.
    pub in_void: bool,
    /// W6: each linedef that lies on an earlier one.
    pub twins: bool,
    /// W11: a ring at each thing of no known kind.
    pub unknown_things: bool,
    /// W14: each linedef with a special that the game doesn't know.
    pub unknown_specials: bool,
    /// W15: each linedef whose special goes by tag 0.
    pub zero_tags: bool,
    /// W16: each linedef whose special can't be crossed, or takes nowhere.
    pub crossings: bool,
    /// W17: each linedef whose use ends or spoils the game.
    pub effects: bool,
    /// W21: a ring at each thing that ends the reading, is in no skill, or ends the game.
    pub odd_things: bool,
}

/// The warnings of a level that are marked: all of each code that is asked for, one code after another. They are kept, and those of
/// a code twice, as long as it is looked for. Besides, that takes what `map_warnings` says.
pub fn marked_warnings<A: Allocator + Copy>(
    alloc: A,
    level: &Level<'_>,
    asked: Option<MarkedWarnings>,
) -> Result<Vec<Warning, A>, AllocError>
    ensures { IfOk result (λ marked. AreMarkedFor asked level.now marked.items) }
{
    match asked {
        Some(asked) => marked_of(alloc, level, asked),
        None => Ok(Vec::new(alloc)),
    }
}

// The warnings of the codes that are asked for.
fn marked_of<A: Allocator + Copy>(
    alloc: A,
    level: &Level<'_>,
    asked: MarkedWarnings,
) -> Result<Vec<Warning, A>, AllocError>
    ensures { IfOk result (λ marked. AreMarked asked level.now marked.items) }
{
    let checks = Checks::of(alloc, level)?;
    let mut marked = Vec::new(alloc);
    add_all(alloc, &checks, asked.unclosed, WarningCode::W1, &mut marked)?;
    add_all(alloc, &checks, asked.bare, WarningCode::W2, &mut marked)?;
    add_all(alloc, &checks, asked.in_void, WarningCode::W3, &mut marked)?;
    add_all(alloc, &checks, asked.twins, WarningCode::W6, &mut marked)?;
    add_all(
        alloc,
        &checks,
        asked.unknown_things,
        WarningCode::W11,
        &mut marked,
    )?;
    add_game(alloc, &checks, asked, &mut marked)?;
    Ok(marked)
}

// Adds what the released game does at linedefs and things, of the codes that are asked for.
fn add_game<A: Allocator + Copy>(
    alloc: A,
    checks: &Checks<'_, '_>,
    asked: MarkedWarnings,
    marked: &mut Vec<Warning, A>,
) -> Result<(), AllocError>
    ensures { OnOk result (AddsGame asked checks.now marked.old.items marked.new.items) }
{
    add_all(
        alloc,
        checks,
        asked.unknown_specials,
        WarningCode::W14,
        marked,
    )?;
    add_all(alloc, checks, asked.zero_tags, WarningCode::W15, marked)?;
    add_all(alloc, checks, asked.crossings, WarningCode::W16, marked)?;
    add_all(alloc, checks, asked.effects, WarningCode::W17, marked)?;
    add_all(alloc, checks, asked.odd_things, WarningCode::W21, marked)
}

// Adds the warnings of a code, if it is asked for.
fn add_all<A: Allocator + Copy>(
    alloc: A,
    checks: &Checks<'_, '_>,
    asked: bool,
    code: WarningCode,
    marked: &mut Vec<Warning, A>,
) -> Result<(), AllocError>
    ensures { OnOk result (AddsAll asked checks.now code marked.old.items marked.new.items) }
{
    if asked {
        let told = all_told(alloc, checks, code)?;
        marked.extend_from_slice(told.first())?;
    }
    Ok(())
}

// The report on the warnings of a code: all of them.
fn all_told<A: Allocator + Copy>(
    alloc: A,
    checks: &Checks<'_, '_>,
    code: WarningCode,
) -> Result<Told<A>, AllocError>
    ensures { IfOk result (λ told. AreWarnings (IsWarning None checks.now code) told.first) }
{
    // Only W9, W10, W22 and W25, which aren't marked, ask for textures and flats.
    let resources: Option<Resources<'_, '_, A>> = None;
    let most = usize::MAX;
    let told = checks.told(alloc, code, &resources, most)?;
    if told.count() == most {
        // There may be more of them than can be counted.
        return Err(AllocError);
    }
    Ok(told)
}
