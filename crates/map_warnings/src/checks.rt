//! All warnings, by their codes.

ghost use Rattle.std.specs.Prelude.{◌≡◌, ◌↔◌, Contains, IfOk, IsSomeAnd, IsTrue, true};
ghost use Rattle.map_tree.specs.Sound.{IsSound};
ghost use Rattle.map_warnings.specs.Warnings.{Tells, ends_game};
ghost use Rattle.game_warnings.specs.Misplaced.{HasFlatEnds};
ghost use Rattle.map_warnings.specs.Holds.{HoldsIn, IsLookedFor};
ghost use Rattle.map_warnings.specs.Listed.{HasFlats, HasTextures};
ghost use Rattle.map_warnings.specs.References.{HasReferences};

use crate::bare::bare_walls;
use crate::closing::unclosed;
use crate::facing::mismatched;
use crate::game::game_told;
use crate::references::has_references;
use crate::resources::Resources;
use crate::starts::{few_starts, missing_start};
use crate::tags::untagged;
use crate::told::Told;
use crate::twins::twins;
use crate::unknown_flat::unknown_flats;
use crate::unknown_texture::unknown_textures;
use crate::unknown_thing::unknown_things;
use crate::void::in_void;
use crate::warning::Warning;
use game_warnings::GameCode;
use level_codes::{ReportCode, Wants, WarningCode};
use map_level::Level;
use map_tree::is_sound;
use std::alloc::{AllocError, Allocator};
use std::marker::Model;

/// A level whose warnings are asked for. It borrows the level, and knows whether the level's references hold and whether it is
/// sound.
#[derive(Drop)]
pub struct Checks<'l, 'a> {
    level: &'l Level<'a>,
    has_references: bool,
    is_sound: bool,
}

impl<'l, 'a> Model for Checks<'l, 'a> {
    ghost use Rattle.std.specs.Prelude.{◌↔◌, IsTrue};
    ghost use Rattle.map_level.specs.Level.{Level};
    ghost use Rattle.map_tree.specs.Sound.{IsSound};
    ghost use Rattle.map_warnings.specs.References.{HasReferences};

    ghost Value = { Level };

    ghost view = { λ c. c.level.now };

    ghost invariant = { λ c. (IsTrue c.has_references ↔ HasReferences c.level.now) × (IsTrue c.is_sound ↔ IsSound c.level.now) };
}

impl<'l, 'a> Checks<'l, 'a> {
    ghost use Rattle.std.specs.Prelude.{◌↔◌, IsTrue};
    ghost use Rattle.map_tree.specs.Sound.{IsSound};
    ghost use Rattle.map_warnings.specs.Holds.{EndsAt, IsWarning};
    ghost use Rattle.map_warnings.specs.References.{HasReferences};

    /// The checks of a level. Its references and its nodes are looked over.
    pub fn of<A: Allocator + Copy>(
        alloc: A,
        level: &'l Level<'a>,
    ) -> Result<Checks<'l, 'a>, AllocError>
        ensures { IfOk result (λ checks. checks ≡ level.now) }
    {
        let is_sound = is_sound(alloc, level)?;
        let has_references = references_hold(level, is_sound);
        Ok(Checks::known(level, has_references, is_sound))
    }

    /// The checks of a level of which it is known whether its references hold and whether it is sound. It isn't looked over.
    pub fn known(level: &'l Level<'a>, has_references: bool, is_sound: bool) -> Checks<'l, 'a>
        requires references { IsTrue has_references ↔ HasReferences level.now }
        requires sound { IsTrue is_sound ↔ IsSound level.now }
        ensures { result ≡ level.now }
    {
        Checks {
            level,
            has_references,
            is_sound,
        }
    }

    // The level.
    fn level(&self) -> &Level<'a>
        ensures { result.now ≡ self.now }
    {
        self.level
    }

    // Whether it is sound.
    fn is_sound(&self) -> bool
        ensures { IsTrue result ↔ IsSound self.now }
    {
        self.is_sound
    }

    /// Whether warnings of a code are looked for: whether the level, and its files where they are known, have what the code wants.
    pub fn looks_for<A: Allocator>(
        &self,
        code: WarningCode,
        resources: &Option<Resources<'_, '_, A>>,
    ) -> bool
        ensures { IsTrue result ↔ IsLookedFor resources.now self.now code }
    {
        match ReportCode::Warning(code).wants() {
            Wants::Lumps => true,
            Wants::References => self.has_references,
            Wants::Soundness => self.is_sound,
            Wants::Textures => self.has_references && knows_textures(resources),
            Wants::Flats => self.has_references && knows_flats(resources),
            Wants::FlatEnds => self.has_references && knows_flat_ends(resources),
        }
    }

    /// The warnings of a code, in their order: the first of them, so many at most, and how many there are. None where the
    /// code isn't looked for. The resources are those of the files in which the game finds the level's textures and flats; only W9,
    /// W10, W22 and W25 ask for them.
    pub fn told<A: Allocator + Copy>(
        &self,
        alloc: A,
        code: WarningCode,
        resources: &Option<Resources<'_, '_, A>>,
        most: usize,
    ) -> Result<Told<A>, AllocError>
        ensures told { IfOk result (λ told. Tells (IsWarning resources.now self.now code) told) }
        ensures most { IfOk result (λ told. told.most ≡ most) }
    {
        if !self.looks_for(code, resources) {
            return Ok(Told::new(alloc, most));
        }
        let told = warnings(alloc, self.level(), self.is_sound(), code, resources, most)?;
        Ok(told)
    }

    /// Whether the released game ends at a warning of a code that is told, or writes where nothing of its own is. All warnings of the
    /// code are kept, as long as it is looked for.
    pub fn ends_game<A: Allocator + Copy>(
        &self,
        alloc: A,
        code: WarningCode,
        resources: &Option<Resources<'_, '_, A>>,
    ) -> Result<bool, AllocError>
        ensures { IfOk result (λ ends. IsTrue ends ↔ ((w : Warning) × EndsAt resources.now self.now code w)) }
    {
        let most = usize::MAX;
        let told = self.told(alloc, code, resources, most)?;
        if told.count() == most {
            // There may be more of them than can be counted.
            return Err(AllocError);
        }
        Ok(has_ending(told.first()))
    }
}

// Whether the game ends at one of some warnings.
fn has_ending(first: &[Warning]) -> bool
    ensures { IsTrue result ↔ ((w : Warning) × Contains first.now w × (ends_game w ≡ true)) }
{
    for i in 0..first.len() {
        if first[i].ends_game() {
            return true;
        }
    }
    false
}

// Whether the references of a level hold. A sound level has no fault, so it isn't looked over.
fn references_hold(level: &Level<'_>, is_sound: bool) -> bool
    requires { IsTrue is_sound → IsSound level.now }
    ensures { IsTrue result ↔ HasReferences level.now }
{
    if is_sound {
        return true;
    }
    has_references(level)
}

// The warnings of a code that is looked for. Of a reserved code there are none.
fn warnings<A: Allocator + Copy>(
    alloc: A,
    level: &Level<'_>,
    is_sound: bool,
    code: WarningCode,
    resources: &Option<Resources<'_, '_, A>>,
    most: usize,
) -> Result<Told<A>, AllocError>
    requires looked { IsLookedFor resources.now level.now code }
    requires sound { IsTrue is_sound ↔ IsSound level.now }
    ensures told { IfOk result (λ told. Tells (HoldsIn resources.now level.now code) told) }
    ensures most { IfOk result (λ told. told.most ≡ most) }
{
    match code {
        WarningCode::W1 => unclosed(alloc, level, most),
        WarningCode::W2 => bare_walls(alloc, level, most),
        WarningCode::W3 => in_void(alloc, level, most),
        WarningCode::W4 => untagged(alloc, level, most),
        WarningCode::W5 => mismatched(alloc, level, most),
        WarningCode::W6 => twins(alloc, level, most),
        WarningCode::W7 => missing_start(alloc, level, most),
        WarningCode::W8 => few_starts(alloc, level, most),
        WarningCode::W9 => textures_in(alloc, level, resources, most),
        WarningCode::W10 => flats_in(alloc, level, resources, most),
        WarningCode::W11 => unknown_things(alloc, level, most),
        WarningCode::W12 => Ok(Told::new(alloc, most)),
        WarningCode::W13 => Ok(Told::new(alloc, most)),
        WarningCode::W14 => game_told(alloc, level, is_sound, GameCode::W14, resources, most),
        WarningCode::W15 => game_told(alloc, level, is_sound, GameCode::W15, resources, most),
        WarningCode::W16 => game_told(alloc, level, is_sound, GameCode::W16, resources, most),
        WarningCode::W17 => game_told(alloc, level, is_sound, GameCode::W17, resources, most),
        WarningCode::W18 => game_told(alloc, level, is_sound, GameCode::W18, resources, most),
        WarningCode::W19 => game_told(alloc, level, is_sound, GameCode::W19, resources, most),
        WarningCode::W20 => Ok(Told::new(alloc, most)),
        WarningCode::W21 => game_told(alloc, level, is_sound, GameCode::W21, resources, most),
        WarningCode::W22 => game_told(alloc, level, is_sound, GameCode::W22, resources, most),
        WarningCode::W23 => Ok(Told::new(alloc, most)),
        WarningCode::W24 => Ok(Told::new(alloc, most)),
        WarningCode::W25 => game_told(alloc, level, is_sound, GameCode::W25, resources, most),
    }
}

// Whether the textures of some files are known.
fn knows_textures<A: Allocator>(resources: &Option<Resources<'_, '_, A>>) -> bool
    ensures { IsTrue result ↔ IsSomeAnd resources.now HasTextures }
{
    match resources {
        Some(resources) => resources.has_textures(),
        None => false,
    }
}

// Whether the flats of some files are known.
fn knows_flats<A: Allocator>(resources: &Option<Resources<'_, '_, A>>) -> bool
    ensures { IsTrue result ↔ IsSomeAnd resources.now HasFlats }
{
    match resources {
        Some(resources) => resources.has_flats(),
        None => false,
    }
}

// Whether both ends of the flats of some files are known.
fn knows_flat_ends<A: Allocator>(resources: &Option<Resources<'_, '_, A>>) -> bool
    ensures { IsTrue result ↔ IsSomeAnd resources.now HasFlatEnds }
{
    match resources {
        Some(resources) => resources.has_flat_ends(),
        None => false,
    }
}

// W9 where the textures are known.
fn textures_in<A: Allocator + Copy>(
    alloc: A,
    level: &Level<'_>,
    resources: &Option<Resources<'_, '_, A>>,
    most: usize,
) -> Result<Told<A>, AllocError>
    requires { IsSomeAnd resources.now HasTextures }
    ensures told { IfOk result (λ told. Tells (HoldsIn resources.now level.now WarningCode.W9) told) }
    ensures most { IfOk result (λ told. told.most ≡ most) }
{
    match resources {
        Some(resources) => unknown_textures(alloc, level, resources, most),
        None => unreachable!(),
    }
}

// W10 where the flats are known.
fn flats_in<A: Allocator + Copy>(
    alloc: A,
    level: &Level<'_>,
    resources: &Option<Resources<'_, '_, A>>,
    most: usize,
) -> Result<Told<A>, AllocError>
    requires { IsSomeAnd resources.now HasFlats }
    ensures told { IfOk result (λ told. Tells (HoldsIn resources.now level.now WarningCode.W10) told) }
    ensures most { IfOk result (λ told. told.most ≡ most) }
{
    match resources {
        Some(resources) => unknown_flats(alloc, level, resources, most),
        None => unreachable!(),
    }
}
