//! The report on warnings: the first of them, and how many there are.

ghost use Rattle.std.specs.Prelude.{◌≡◌, ◌+◌, ◌↔◌, ◌<◌, [], Some, map, IfNone, IfOk, IfSome, IsTrue, OnOk};
ghost use Rattle.map_warnings.specs.Warnings.{Cut, cut_with, rank, Tells, TellsBelow, warnings_of};
ghost use Rattle.map_warnings.specs.Holds.{HoldsIn, HoldsOf};
ghost use Rattle.map_warnings.specs.declared.warning.Warning.TheVariants.{Game};

use crate::resources::Resources;
use crate::warning::Warning;
use game_warnings::GameWarning;
use level_codes::WarningCode;
use map_level::Level;
use std::alloc::{AllocError, Allocator, Global};
use std::marker::Model;

/// Warnings of a level in their order: at most as many of the first as were asked for, and how many there are.
#[derive(Debug, Drop)]
pub struct Told<A: Allocator = Global> {
    most: usize,
    first: Vec<Warning, A>,
    count: usize,
}

impl<A: Allocator> Model for Told<A> {
    ghost use Rattle.map_warnings.specs.Warnings.{Cut};

    ghost Value = { Cut };

    ghost view = { λ told. record { most = told.most; first = told.first.items; count = told.count } };
}

impl<A: Allocator> Told<A> {
    /// No warnings so far, of which at most so many will be kept.
    pub fn new(alloc: A, most: usize) -> Told<A>
        ensures { result ≡ record { most = most; first = []; count = 0 } }
    {
        Told {
            most,
            first: Vec::new(alloc),
            count: 0,
        }
    }

    /// The first of them.
    pub fn first(&self) -> &[Warning]
        ensures { result.now ≡ self.now.first }
    {
        &self.first
    }

    /// How many there are.
    pub fn count(&self) -> usize
        ensures { result ≡ self.now.count }
    {
        self.count
    }

    // One more.
    fn add(&mut self, warning: Warning) -> Result<(), AllocError>
        ensures { OnOk result (self.new ≡ cut_with self.old warning) }
    {
        if self.first.len() < self.most {
            self.first.push(warning)?;
        }
        self.count = self.count.saturating_add(1);
        Ok(())
    }
}

/// Adds a warning if it holds. Then all up to it are reported.
pub fn tell_where<A: Allocator>(
    told: &mut Told<A>,
    level: &Level<'_>,
    code: WarningCode,
    warning: Warning,
    holds: bool,
) -> Result<(), AllocError>
    requires below { TellsBelow (HoldsOf level.now code) (rank warning) told.old }
    requires tells { IsTrue holds ↔ HoldsOf level.now code warning }
    requires alone { (w : Warning) → HoldsOf level.now code w → rank w ≡ rank warning → w ≡ warning }
    ensures told { OnOk result (TellsBelow (HoldsOf level.now code) (rank warning + 1) told.new) }
    ensures most { OnOk result (told.new.most ≡ told.old.most) }
{
    // Only the clauses speak of the level and the code.
    let (_level, _code) = (level, code);
    if holds {
        told.add(warning)?;
    }
    Ok(())
}

/// The same for a warning that needs textures or flats.
pub fn tell_among<A: Allocator>(
    told: &mut Told<A>,
    level: &Level<'_>,
    resources: &Resources<'_, '_, A>,
    code: WarningCode,
    warning: Warning,
    holds: bool,
) -> Result<(), AllocError>
    requires below { TellsBelow (HoldsIn (Some resources.now) level.now code) (rank warning) told.old }
    requires tells { IsTrue holds ↔ HoldsIn (Some resources.now) level.now code warning }
    requires alone { (w : Warning) → HoldsIn (Some resources.now) level.now code w → rank w ≡ rank warning → w ≡ warning }
    ensures told { OnOk result (TellsBelow (HoldsIn (Some resources.now) level.now code) (rank warning + 1) told.new) }
    ensures most { OnOk result (told.new.most ≡ told.old.most) }
{
    // Only the clauses speak of the level, its resources and the code.
    let (_level, _resources, _code) = (level, resources, code);
    if holds {
        told.add(warning)?;
    }
    Ok(())
}

/// The report on a code that holds at most once.
pub fn tell_one<A: Allocator>(
    alloc: A,
    level: &Level<'_>,
    code: WarningCode,
    most: usize,
    warning: Option<Warning>,
) -> Result<Told<A>, AllocError>
    requires some { IfSome warning (HoldsOf level.now code) }
    requires alone { IfSome warning (λ told. (w : Warning) → HoldsOf level.now code w → w ≡ told) }
    requires none { IfNone warning ((w : Warning) → ¬ HoldsOf level.now code w) }
    ensures told { IfOk result (λ told. Tells (HoldsOf level.now code) told) }
    ensures most { IfOk result (λ told. told.most ≡ most) }
{
    // Only the clauses speak of the level and the code.
    let (_level, _code) = (level, code);
    let mut told = Told::new(alloc, most);
    let Some(warning) = warning else {
        return Ok(told);
    };
    told.add(warning)?;
    Ok(told)
}

/// The report on what the game does, of which at most so many are kept, as one of warnings.
pub fn tell_game<A: Allocator + Copy>(
    alloc: A,
    most: usize,
    told: &game_warnings::Told<A>,
) -> Result<Told<A>, AllocError>
    requires { told.now.most ≡ most }
    ensures { IfOk result (λ all. all ≡ warnings_of told.now) }
{
    let first = as_warnings(alloc, told.first())?;
    Ok(Told {
        most,
        first,
        count: told.count(),
    })
}

// Each warning of the game as one of the report.
fn as_warnings<A: Allocator>(alloc: A, game: &[GameWarning]) -> Result<Vec<Warning, A>, AllocError>
    ensures { IfOk result (λ all. all.items ≡ map (λ w. Game w) game.now) }
{
    let mut all = Vec::with_capacity(alloc, game.len())?;
    for i in 0..game.len() {
        all.push(Warning::Game(game[i]))?;
    }
    Ok(all)
}
