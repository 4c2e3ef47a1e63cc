//! The report on warnings: the first of them, and how many there are.

ghost use Rattle.std.specs.Prelude.{◌≡◌, ◌+◌, ◌↔◌, ◌<◌, [], Some, IfNone, IfOk, IfSome, IsTrue, OnOk};
ghost use Rattle.game_warnings.specs.Warnings.{Cut, cut_with, rank, Tells, TellsBelow};
ghost use Rattle.game_warnings.specs.Holds.{HoldsIn, HoldsOf};

use crate::code::GameCode;
use crate::graphics::Graphics;
use crate::warning::GameWarning;
use map_level::Level;
use std::alloc::{AllocError, Allocator, Global};
use std::marker::Model;

/// Warnings of a level in their order: at most as many of the first as were asked for, and how many there are.
#[derive(Debug, Drop)]
pub struct Told<A: Allocator = Global> {
    most: usize,
    first: Vec<GameWarning, A>,
    count: usize,
}

impl<A: Allocator> Model for Told<A> {
    ghost use Rattle.game_warnings.specs.Warnings.{Cut};

    ghost Value = { Cut };

    ghost view = { λ told. record { most = told.most; first = told.first.items; count = told.count } };
}

impl<A: Allocator> Told<A> {
    /// No warnings so far, of which at most so many will be kept.
    pub fn new(alloc: A, most: usize) -> Told<A>
        ensures { result ≡ record { most = most; first = []; count = 0 } }
    {
        Told {
            most,
            first: Vec::new(alloc),
            count: 0,
        }
    }

    /// The first of them.
    pub fn first(&self) -> &[GameWarning]
        ensures { result.now ≡ self.now.first }
    {
        &self.first
    }

    /// How many there are.
    pub fn count(&self) -> usize
        ensures { result ≡ self.now.count }
    {
        self.count
    }

    // One more.
    fn add(&mut self, warning: GameWarning) -> Result<(), AllocError>
        ensures { OnOk result (self.new ≡ cut_with self.old warning) }
    {
        if self.first.len() < self.most {
            self.first.push(warning)?;
        }
        self.count = self.count.saturating_add(1);
        Ok(())
    }
}

/// Adds a warning if it holds. Then all up to it are reported.
pub fn tell_where<A: Allocator>(
    told: &mut Told<A>,
    level: &Level<'_>,
    code: GameCode,
    warning: GameWarning,
    holds: bool,
) -> Result<(), AllocError>
    requires below { TellsBelow (HoldsOf level.now code) (rank warning) told.old }
    requires tells { IsTrue holds ↔ HoldsOf level.now code warning }
    requires alone { (w : GameWarning) → HoldsOf level.now code w → rank w ≡ rank warning → w ≡ warning }
    ensures told { OnOk result (TellsBelow (HoldsOf level.now code) (rank warning + 1) told.new) }
    ensures most { OnOk result (told.new.most ≡ told.old.most) }
{
    // Only the clauses speak of the level and the code.
    let (_level, _code) = (level, code);
    if holds {
        told.add(warning)?;
    }
    Ok(())
}

/// The same for a warning that needs flats or textures.
pub fn tell_among<A: Allocator>(
    told: &mut Told<A>,
    level: &Level<'_>,
    graphics: &Graphics<'_, '_, A>,
    code: GameCode,
    warning: GameWarning,
    holds: bool,
) -> Result<(), AllocError>
    requires below { TellsBelow (HoldsIn (Some graphics.now) level.now code) (rank warning) told.old }
    requires tells { IsTrue holds ↔ HoldsIn (Some graphics.now) level.now code warning }
    requires alone { (w : GameWarning) → HoldsIn (Some graphics.now) level.now code w → rank w ≡ rank warning → w ≡ warning }
    ensures told { OnOk result (TellsBelow (HoldsIn (Some graphics.now) level.now code) (rank warning + 1) told.new) }
    ensures most { OnOk result (told.new.most ≡ told.old.most) }
{
    // Only the clauses speak of the level, its files and the code.
    let (_level, _graphics, _code) = (level, graphics, code);
    if holds {
        told.add(warning)?;
    }
    Ok(())
}

/// The report on a code that holds at most once.
pub fn tell_one<A: Allocator>(
    alloc: A,
    level: &Level<'_>,
    code: GameCode,
    most: usize,
    warning: Option<GameWarning>,
) -> Result<Told<A>, AllocError>
    requires some { IfSome warning (HoldsOf level.now code) }
    requires alone { IfSome warning (λ told. (w : GameWarning) → HoldsOf level.now code w → w ≡ told) }
    requires none { IfNone warning ((w : GameWarning) → ¬ HoldsOf level.now code w) }
    ensures told { IfOk result (λ told. Tells (HoldsOf level.now code) told) }
    ensures most { IfOk result (λ told. told.most ≡ most) }
{
    // Only the clauses speak of the level and the code.
    let (_level, _code) = (level, code);
    let mut told = Told::new(alloc, most);
    let Some(warning) = warning else {
        return Ok(told);
    };
    told.add(warning)?;
    Ok(told)
}
