//! How specials harm the sectors of their tag, by what lies around these.

ghost use Rattle.std.specs.Prelude.{◌≡◌, ◌↔◌, ◌+◌, ◌<◌, ℕ, None, false, is_some, length, slice_index_or, slice_set, IfNone, IfOk, IfSome, IsTrue, OnOk};
ghost use Rattle.map_level.specs.Links.{sectors_of};
ghost use Rattle.game_numbers.specs.Number.{is_one_of};
ghost use Rattle.game_numbers.specs.SectorSpecials.{timed_door};
ghost use Rattle.game_warnings.specs.Around.{AreAround, AreSearches};
ghost use Rattle.game_warnings.specs.Change.{ended};
ghost use Rattle.game_warnings.specs.Harm.{AreHarms, AreHarmsBelow, AreHarmsKept, AreHarmsWhere, ArePlain, AreSearchesFor, IsEffectTag, IsTagPlace, HasNoDoor, IsHarmedBy, IsHarmedSector, IsHarmOf};
ghost use Rattle.game_warnings.specs.Sides.{sides_in};
ghost use Rattle.game_warnings.specs.Tags.{AreTags};
ghost use Rattle.game_warnings.specs.declared.warning.Harm.{Harm};

use crate::around::{Around, around_of, higher_count, lowest_floor};
use crate::donut::donut_harm;
use crate::effect_tag::{effect_tags, has_effect_tag, has_line};
use crate::search::{Search, searches_of};
use crate::tags::TAG_COUNT;
use crate::warning::{Effect, Harm};
use game_numbers::is_timed_door;
use le_rec::Sector;
use map_level::Level;
use std::alloc::{AllocError, Allocator};

// So many higher neighbours are the most.
const MOST_NEIGHBOURS: u32 = 20;

/// The harms of an effect, for each tag that of the first sector that is harmed. They are empty where no linedef has the effect, or no
/// sector with such a linedef's tag is harmed.
pub fn harms_where<A: Allocator + Copy>(
    alloc: A,
    level: &Level<'_>,
    effect: Effect,
) -> Result<Vec<Option<Harm>, A>, AllocError>
    ensures { IfOk result (λ harms. AreHarmsWhere level.now effect harms.items) }
{
    if !has_line(level, effect) {
        return Ok(Vec::new(alloc));
    }
    let around = around_of(alloc, level)?;
    let searches = searches_for(alloc, level, &around, effect)?;
    let harms = harms_kept(alloc, level, &around, &searches, effect)?;
    Ok(harms)
}

// The searches for a neighbour, which one effect alone goes by.
fn searches_for<A: Allocator>(
    alloc: A,
    level: &Level<'_>,
    around: &[Around],
    effect: Effect,
) -> Result<Vec<Search, A>, AllocError>
    requires { AreAround level.now (length (sides_in level.now)) around.now }
    ensures { IfOk result (λ searches. AreSearchesFor level.now effect searches.items) }
{
    match effect {
        Effect::Change => searches_of(alloc, level, around),
        _ => Ok(Vec::new(alloc)),
    }
}

// The harms; none is kept where no sector with the tag of a linedef with the effect is harmed.
fn harms_kept<A: Allocator + Copy>(
    alloc: A,
    level: &Level<'_>,
    around: &[Around],
    searches: &[Search],
    effect: Effect,
) -> Result<Vec<Option<Harm>, A>, AllocError>
    requires around { AreAround level.now (length (sides_in level.now)) around.now }
    requires searches { AreSearchesFor level.now effect searches.now }
    ensures { IfOk result (λ harms. AreHarmsKept level.now effect harms.items) }
{
    let tags = effect_tags(alloc, level, effect)?;
    if !harms_some(level, around, searches, effect, &tags) {
        return Ok(Vec::new(alloc));
    }
    let harms = harms_of(alloc, level, around, searches, effect)?;
    Ok(harms)
}

// Whether an effect harms some sector with the tag of a linedef that has it.
fn harms_some(
    level: &Level<'_>,
    around: &[Around],
    searches: &[Search],
    effect: Effect,
    tags: &[bool],
) -> bool
    requires around { AreAround level.now (length (sides_in level.now)) around.now }
    requires searches { AreSearchesFor level.now effect searches.now }
    requires tags { AreTags (IsEffectTag level.now effect) tags.now }
    ensures { IsTrue result ↔ ((s : ℕ) × IsHarmedSector level.now effect s) }
{
    for s in 0..level.sectors().len() {
        if is_harmed(level, around, searches, effect, tags, s as u32) {
            return true;
        }
    }
    false
}

fn is_harmed(
    level: &Level<'_>,
    around: &[Around],
    searches: &[Search],
    effect: Effect,
    tags: &[bool],
    s: u32,
) -> bool
    requires around { AreAround level.now (length (sides_in level.now)) around.now }
    requires searches { AreSearchesFor level.now effect searches.now }
    requires tags { AreTags (IsEffectTag level.now effect) tags.now }
    requires within { s < length (sectors_of level.now) }
    ensures { IsTrue result ↔ IsHarmedSector level.now effect s }
{
    has_effect_tag(level, effect, tags, s) && harm_at(level, around, searches, effect, s).is_some()
}

// The same by what lies around each sector. It takes 1 MiB.
fn harms_of<A: Allocator>(
    alloc: A,
    level: &Level<'_>,
    around: &[Around],
    searches: &[Search],
    effect: Effect,
) -> Result<Vec<Option<Harm>, A>, AllocError>
    requires around { AreAround level.now (length (sides_in level.now)) around.now }
    requires searches { AreSearchesFor level.now effect searches.now }
    ensures { IfOk result (λ harms. AreHarms level.now effect harms.items) }
{
    let mut harms = harmless(alloc)?;
    add_sectors(level, around, searches, effect, &mut harms);
    Ok(harms)
}

// No harm of any tag.
fn harmless<A: Allocator>(alloc: A) -> Result<Vec<Option<Harm>, A>, AllocError>
    ensures { IfOk result (λ harms. ArePlain 65536 harms.items) }
{
    let mut harms = Vec::with_capacity(alloc, TAG_COUNT)?;
    for n in 0..TAG_COUNT {
        push_none(&mut harms, n)?;
    }
    Ok(harms)
}

// Adds no harm behind so many.
fn push_none<A: Allocator>(harms: &mut Vec<Option<Harm>, A>, n: usize) -> Result<(), AllocError>
    requires { ArePlain n harms.old.items }
    ensures { OnOk result (ArePlain (n + 1) harms.new.items) }
{
    // Only the clauses speak of how many there are.
    let _n = n;
    harms.push(None)?;
    Ok(())
}

fn add_sectors(
    level: &Level<'_>,
    around: &[Around],
    searches: &[Search],
    effect: Effect,
    harms: &mut [Option<Harm>],
)
    requires around { AreAround level.now (length (sides_in level.now)) around.now }
    requires searches { AreSearchesFor level.now effect searches.now }
    requires plain { ArePlain 65536 harms.old }
    ensures { AreHarms level.now effect harms.new }
{
    for s in 0..level.sectors().len() {
        add_sector(level, around, searches, effect, harms, s as u32);
    }
}

// Adds the harm of a sector, where none of its tag was before.
fn add_sector(
    level: &Level<'_>,
    around: &[Around],
    searches: &[Search],
    effect: Effect,
    harms: &mut [Option<Harm>],
    s: u32,
)
    requires around { AreAround level.now (length (sides_in level.now)) around.now }
    requires searches { AreSearchesFor level.now effect searches.now }
    requires within { s < length (sectors_of level.now) }
    requires before { AreHarmsBelow level.now effect s harms.old }
    ensures { AreHarmsBelow level.now effect (s + 1) harms.new }
{
    let at = tag_place(level, s);
    if is_known(harms, at) {
        return;
    }
    put(harms, at, harm_at(level, around, searches, effect, s));
}

// The place of a sector's tag among all tags.
fn tag_place(level: &Level<'_>, s: u32) -> usize
    requires { s < length (sectors_of level.now) }
    ensures place { IsTagPlace level.now s result }
    ensures below { result < 65536 }
{
    level.sectors().at(s as usize).tag.cast_unsigned() as usize
}

// Whether a harm is known at a place.
fn is_known(harms: &[Option<Harm>], at: usize) -> bool
    requires { at < length harms.now }
    ensures { result ≡ is_some (slice_index_or harms.now at None) }
{
    harms[at].is_some()
}

fn put(harms: &mut [Option<Harm>], at: usize, harm: Option<Harm>)
    requires { at < length harms.old }
    ensures { harms.new ≡ slice_set harms.old at harm }
{
    harms[at] = harm;
}

// How an effect harms a sector, if it does.
fn harm_at(
    level: &Level<'_>,
    around: &[Around],
    searches: &[Search],
    effect: Effect,
    s: u32,
) -> Option<Harm>
    requires around { AreAround level.now (length (sides_in level.now)) around.now }
    requires searches { AreSearchesFor level.now effect searches.now }
    requires within { s < length (sectors_of level.now) }
    ensures some { IfSome result (IsHarmedBy level.now effect s) }
    ensures none { IfNone result ((harm : Harm) → ¬ IsHarmedBy level.now effect s harm) }
{
    match effect {
        Effect::Donut => pillar_harm(level, around, s),
        Effect::Nearest => crowd_harm(level, around, s),
        Effect::Change => change_harm(level, around, searches, s),
    }
}

fn pillar_harm(level: &Level<'_>, around: &[Around], s: u32) -> Option<Harm>
    requires around { AreAround level.now (length (sides_in level.now)) around.now }
    requires within { s < length (sectors_of level.now) }
    ensures some { IfSome result (IsHarmedBy level.now Effect.Donut s) }
    ensures none { IfNone result ((harm : Harm) → ¬ IsHarmedBy level.now Effect.Donut s harm) }
{
    if !has_no_door(level, s) {
        return None;
    }
    donut_harm(level, around, s)
}

// More of a sector's neighbours are higher than the game looks at.
fn crowd_harm(level: &Level<'_>, around: &[Around], s: u32) -> Option<Harm>
    requires around { AreAround level.now (length (sides_in level.now)) around.now }
    requires within { s < length (sectors_of level.now) }
    ensures some { IfSome result (IsHarmedBy level.now Effect.Nearest s) }
    ensures none { IfNone result ((harm : Harm) → ¬ IsHarmedBy level.now Effect.Nearest s harm) }
{
    let neighbours = higher_count(level, around, s);
    if neighbours > MOST_NEIGHBOURS {
        return Some(Harm::ManyNeighbours {
            sector: s,
            neighbours,
        });
    }
    None
}

// A sector finds no neighbour to change after.
fn change_harm(level: &Level<'_>, around: &[Around], searches: &[Search], s: u32) -> Option<Harm>
    requires around { AreAround level.now (length (sides_in level.now)) around.now }
    requires searches { AreSearches level.now (length (sides_in level.now)) searches.now }
    requires within { s < length (sectors_of level.now) }
    ensures some { IfSome result (IsHarmedBy level.now Effect.Change s) }
    ensures none { IfNone result ((harm : Harm) → ¬ IsHarmedBy level.now Effect.Change s harm) }
{
    if !has_no_door(level, s) {
        return None;
    }
    if finds_one(level, searches, s) {
        return None;
    }
    Some(Harm::NoNeighbour {
        sector: s,
        height: lowest_floor(level, around, s),
    })
}

// Whether a sector's search finds a neighbour.
fn finds_one(level: &Level<'_>, searches: &[Search], s: u32) -> bool
    requires searches { AreSearches level.now (length (sides_in level.now)) searches.now }
    requires within { s < length (sectors_of level.now) }
    ensures { IsTrue result ↔ (ended level.now s ≡ Search.Found) }
{
    // Only the clauses speak of the level.
    let _level = level;
    is_found(searches[s as usize])
}

fn is_found(search: Search) -> bool
    ensures { IsTrue result ↔ (search ≡ Search.Found) }
{
    matches!(search, Search::Found)
}

// Whether a sector has no door from the start.
fn has_no_door(level: &Level<'_>, s: u32) -> bool
    ensures { IsTrue result ↔ HasNoDoor level.now s }
{
    match level.sectors().get(s as usize) {
        Some(sector) => is_no_door(&sector),
        None => false,
    }
}

fn is_no_door(sector: &Sector) -> bool
    ensures { IsTrue result ↔ (is_one_of timed_door sector.now.special ≡ false) }
{
    !is_timed_door(sector.special)
}

/// The harm of a tag that a linedef with the effect has, if there is one.
#[inline]
pub fn harm_of(level: &Level<'_>, harms: &[Option<Harm>], effect: Effect, tag: i16) -> Option<Harm>
    requires harms { AreHarmsKept level.now effect harms.now }
    requires tag { IsEffectTag level.now effect tag }
    ensures { IsHarmOf level.now effect tag result }
{
    // Only the clauses speak of the level and the effect.
    let (_level, _effect) = (level, effect);
    if harms.is_empty() {
        return None;
    }
    harms[tag.cast_unsigned() as usize]
}
