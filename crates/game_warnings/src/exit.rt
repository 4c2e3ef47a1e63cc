//! What ends a level.

ghost use Rattle.std.specs.Prelude.{◌≡◌, ◌↔◌, ◌<◌, ℕ, ℤ, codes, pos, IsSomeAnd, IsTrue};
ghost use Rattle.std.specs.List.{slice_get};
ghost use Rattle.le_rec.specs.Name.{query_of};
ghost use Rattle.map_level.specs.Links.{linedefs_of, sectors_of, things_of};
ghost use Rattle.map_level.specs.Reading.{linedef_under};
ghost use Rattle.game_numbers.specs.Number.{is_one_of};
ghost use Rattle.game_numbers.specs.SectorSpecials.{exit_floor};
ghost use Rattle.game_warnings.specs.Crossing.{IsBarred};
ghost use Rattle.game_warnings.specs.Exit.{EndsLevel, HasBoss, HasExit, HasExitFloor, HasExitLine, IsBoss, IsNamed};
ghost use Rattle.game_warnings.specs.Skill.{is_placed};
ghost use Rattle.game_warnings.specs.declared.warning.Barrier.{Barrier};

use crate::crossing::is_barred;
use crate::skill::is_placed;
use crate::warning::Barrier;
use game_numbers::{is_exit, is_exit_floor};
use le_rec::{LineDef, Name8, Sector, Thing};
use map_level::Level;
use map_level::links::linedef_at;

/// Whether a level can be ended: by a linedef, by a floor, or by the death of a boss.
pub fn has_exit(level: &Level<'_>) -> bool
    ensures { IsTrue result ↔ HasExit level.now }
{
    if has_exit_line(level) {
        return true;
    }
    if has_exit_floor(level) {
        return true;
    }
    has_boss(level)
}

fn has_exit_line(level: &Level<'_>) -> bool
    ensures { IsTrue result ↔ HasExitLine level.now }
{
    for i in 0..level.linedefs().len() {
        if is_exit_line(level, i) {
            return true;
        }
    }
    false
}

fn is_exit_line(level: &Level<'_>, i: usize) -> bool
    ensures { IsTrue result ↔ IsSomeAnd (slice_get (linedefs_of level.now) i) (EndsLevel level.now) }
{
    match linedef_at(level, i) {
        Some(linedef) => ends_level(level, &linedef),
        None => false,
    }
}

fn ends_level(level: &Level<'_>, linedef: &LineDef) -> bool
    ensures { IsTrue result ↔ EndsLevel level.now (linedef_under level.now.reading linedef.now) }
{
    is_exit(linedef.special) && !is_barred_somehow(level, linedef)
}

fn is_barred_somehow(level: &Level<'_>, linedef: &LineDef) -> bool
    ensures { IsTrue result ↔ ((barrier : Barrier) × IsBarred level.now (linedef_under level.now.reading linedef.now) barrier) }
{
    is_barred(level, linedef, Barrier::NoBack) || is_barred(level, linedef, Barrier::LetsNone)
}

fn has_exit_floor(level: &Level<'_>) -> bool
    ensures { IsTrue result ↔ HasExitFloor level.now }
{
    for s in 0..level.sectors().len() {
        if is_exit_sector(level, s) {
            return true;
        }
    }
    false
}

fn is_exit_sector(level: &Level<'_>, s: usize) -> bool
    ensures { IsTrue result ↔ IsSomeAnd (slice_get (sectors_of level.now) s) (λ sector. IsTrue (is_one_of exit_floor sector.special)) }
{
    match level.sectors().get(s) {
        Some(sector) => has_exit_special(&sector),
        None => false,
    }
}

fn has_exit_special(sector: &Sector) -> bool
    ensures { IsTrue result ↔ IsTrue (is_one_of exit_floor sector.now.special) }
{
    is_exit_floor(sector.special)
}

fn has_boss(level: &Level<'_>) -> bool
    ensures { IsTrue result ↔ HasBoss level.now }
{
    for k in 0..level.things().len() {
        if is_boss_at(level, k) {
            return true;
        }
    }
    false
}

fn is_boss_at(level: &Level<'_>, k: usize) -> bool
    ensures { IsTrue result ↔ IsSomeAnd (slice_get (things_of level.now) k) (λ thing. IsBoss level.now thing.kind × IsTrue (is_placed thing)) }
{
    match level.things().get(k) {
        Some(thing) => is_placed_boss(level, &thing),
        None => false,
    }
}

fn is_placed_boss(level: &Level<'_>, thing: &Thing) -> bool
    ensures { IsTrue result ↔ (IsBoss level.now thing.now.kind × IsTrue (is_placed thing.now)) }
{
    is_boss(level, thing) && is_placed(thing)
}

// Whether the death of things of a thing's kind ends the level.
fn is_boss(level: &Level<'_>, thing: &Thing) -> bool
    ensures { IsTrue result ↔ IsBoss level.now thing.now.kind }
{
    match thing.kind {
        88 => true,
        16 => is_named(level, b"E2M8"),
        7 => is_named(level, b"E3M8"),
        _ => false,
    }
}

fn is_named(level: &Level<'_>, name: &[u8]) -> bool
    ensures { IsTrue result ↔ IsNamed level.now (query_of name.now) }
{
    level.name(0) == Name8::query(name)
}
