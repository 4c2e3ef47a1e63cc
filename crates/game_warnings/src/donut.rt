//! Donuts that read what isn't there.

ghost use Rattle.std.specs.Prelude.{◌≡◌, ◌<◌, Some, is_some, length, IfNone, IfSome, IsSomeAnd};
ghost use Rattle.std.specs.List.{slice_get};
ghost use Rattle.map_level.specs.Links.{sectors_of};
ghost use Rattle.game_warnings.specs.Around.{AreAround, AreFirstLines};
ghost use Rattle.game_warnings.specs.Donut.{ring_across, LeadsOffAt};
ghost use Rattle.game_warnings.specs.First.{IsFirst, IsFirstBelow};
ghost use Rattle.game_warnings.specs.Harm.{HasNoDoor, IsHarmedBy};
ghost use Rattle.game_warnings.specs.Sides.{sides_in, IsLineAt};
ghost use Rattle.game_warnings.specs.declared.warning.Harm.{Harm};

use crate::around::{Around, FirstLines, around_at};
use crate::sides::{is_sector, sides_at};
use crate::warning::{Effect, Harm};
use map_level::Level;

/// How a donut around a pillar harms, if it does: it reads what isn't there.
pub fn donut_harm(level: &Level<'_>, around: &[Around], pillar: u32) -> Option<Harm>
    requires around { AreAround level.now (length (sides_in level.now)) around.now }
    requires door { HasNoDoor level.now pillar }
    requires within { pillar < length (sectors_of level.now) }
    ensures some { IfSome result (IsHarmedBy level.now Effect.Donut pillar) }
    ensures none { IfNone result ((harm : Harm) → ¬ IsHarmedBy level.now Effect.Donut pillar harm) }
{
    let Some(linedef) = first_line(level, around, pillar) else {
        return Some(Harm::NoLine { sector: pillar });
    };
    let Some(ring) = ring_across(level, linedef, pillar) else {
        return Some(Harm::NoRing {
            linedef,
            sector: pillar,
        });
    };
    ring_harm(level, around, linedef, pillar, ring)
}

// The first linedef of a pillar.
fn first_line(level: &Level<'_>, around: &[Around], pillar: u32) -> Option<u32>
    requires around { AreAround level.now (length (sides_in level.now)) around.now }
    requires within { pillar < length (sectors_of level.now) }
    ensures { IsFirstBelow (IsLineAt level.now pillar) (length (sides_in level.now)) result }
{
    around_at(level, around, pillar).lines.first
}

// The ring across a linedef from its pillar.
fn ring_across(level: &Level<'_>, linedef: u32, pillar: u32) -> Option<u32>
    requires { linedef < length level.now.linedefs.records }
    ensures is { IsSomeAnd (slice_get (sides_in level.now) linedef) (λ sides. ring_across pillar sides ≡ result) }
    ensures within { IfSome result (λ ring. ring < length (sectors_of level.now)) }
{
    let sides = sides_at(level, linedef);
    if !sides.is_two_sided {
        return None;
    }
    sides.across(pillar)
}

// How a ring harms, given the pillar's first linedef: a linedef of the ring without a back comes before one that ends it.
fn ring_harm(
    level: &Level<'_>,
    around: &[Around],
    first: u32,
    pillar: u32,
    ring: u32,
) -> Option<Harm>
    requires around { AreAround level.now (length (sides_in level.now)) around.now }
    requires door { HasNoDoor level.now pillar }
    requires first { IsFirst (IsLineAt level.now pillar) first }
    requires ring { ring < length (sectors_of level.now) }
    requires across { IsSomeAnd (slice_get (sides_in level.now) first) (λ sides. ring_across pillar sides ≡ Some ring) }
    ensures some { IfSome result (IsHarmedBy level.now Effect.Donut pillar) }
    ensures none { IfNone result ((harm : Harm) → ¬ IsHarmedBy level.now Effect.Donut pillar harm) }
{
    // Only the clauses speak of the first linedef.
    let _first = first;
    let linedef = leading_off(level, around_at(level, around, ring).lines, pillar, ring)?;
    if has_back(level, linedef) {
        return None;
    }
    Some(Harm::OpenRing { linedef, ring })
}

// The first linedef of a ring that hasn't the pillar behind it.
fn leading_off(level: &Level<'_>, lines: FirstLines, pillar: u32, ring: u32) -> Option<u32>
    requires { AreFirstLines level.now ring (length (sides_in level.now)) lines }
    ensures { IsFirstBelow (LeadsOffAt level.now pillar ring) (length (sides_in level.now)) result }
{
    // Only the clauses speak of the level and the ring.
    let (_level, _ring) = (level, ring);
    if is_sector(lines.behind, pillar) {
        return lines.other;
    }
    lines.first
}

// Whether a linedef has a sector at its back.
fn has_back(level: &Level<'_>, linedef: u32) -> bool
    requires { linedef < length level.now.linedefs.records }
    ensures { IsSomeAnd (slice_get (sides_in level.now) linedef) (λ sides. result ≡ is_some sides.back) }
{
    sides_at(level, linedef).back.is_some()
}
