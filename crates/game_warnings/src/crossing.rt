//! W16: specials that nothing can trigger by crossing their linedef.

ghost use Rattle.std.specs.Prelude.{◌≡◌, ◌↔◌, ◌+◌, ◌*◌, ℤ, pos, false, IfOk, IsTrue, OnOk};
ghost use Rattle.map_level.specs.Reading.{linedef_under, number_of};
ghost use Rattle.map_level.specs.Links.{no_side};
ghost use Rattle.game_numbers.specs.Number.{is_one_of};
ghost use Rattle.game_numbers.specs.Specials.{missile, monster};
ghost use Rattle.map_tree.specs.Sound.{IsSound};
ghost use Rattle.game_warnings.specs.Destination.{HasDestination, HasNoDestination};
ghost use Rattle.game_warnings.specs.Tags.{AreTags, IsSectorTag};
ghost use Rattle.game_warnings.specs.Crossing.{Bars, HasFlag, IsBarred, IsNeverCrossed, StopsAll};
ghost use Rattle.game_warnings.specs.Warnings.{barrier_number, Tells, TellsBelow};
ghost use Rattle.game_warnings.specs.Holds.{HoldsOf};

use crate::code::GameCode;
use crate::destination::{destination_tags, has_no_destination};
use crate::special::has_special;
use crate::tags::sector_tags;
use crate::told::{Told, tell_where};
use crate::warning::{Barrier, GameWarning};
use game_numbers::{is_crossed, is_missile, is_monster};
use le_rec::LineDef;
use map_level::Level;
use map_level::links::{is_no_side, linedef_at};
use std::alloc::{AllocError, Allocator};

// The flag of a linedef that stops all but missiles.
const BLOCKS: i16 = 1;

// The flag that stops monsters.
const BLOCKS_MONSTERS: i16 = 2;

/// W16 of a level: its linedefs whose special acts when something crosses them, and which nothing can cross, and its
/// teleporters without a destination. It takes 128 KiB.
pub fn crossings<A: Allocator + Copy>(
    alloc: A,
    level: &Level<'_>,
    is_sound: bool,
    most: usize,
) -> Result<Told<A>, AllocError>
    requires { IsTrue is_sound ↔ IsSound level.now }
    ensures told { IfOk result (λ told. Tells (HoldsOf level.now GameCode.W16) told) }
    ensures most { IfOk result (λ told. told.most ≡ most) }
{
    let sectors = sector_tags(alloc, level)?;
    let stands = destination_tags(alloc, level, is_sound)?;
    tell_crossings(alloc, level, is_sound, &sectors, &stands, most)
}

fn tell_crossings<A: Allocator>(
    alloc: A,
    level: &Level<'_>,
    is_sound: bool,
    sectors: &[bool],
    stands: &[bool],
    most: usize,
) -> Result<Told<A>, AllocError>
    requires sound { IsTrue is_sound ↔ IsSound level.now }
    requires sectors { AreTags (IsSectorTag level.now) sectors.now }
    requires stands { IsSound level.now → AreTags (HasDestination level.now) stands.now }
    ensures told { IfOk result (λ told. Tells (HoldsOf level.now GameCode.W16) told) }
    ensures most { IfOk result (λ told. told.most ≡ most) }
{
    let mut told = Told::new(alloc, most);
    for i in 0..level.linedefs().len() {
        let linedef = i as u32;
        tell_linedef(&mut told, level, is_sound, sectors, stands, linedef)?;
    }
    Ok(told)
}

// Adds what is amiss with a linedef.
fn tell_linedef<A: Allocator>(
    told: &mut Told<A>,
    level: &Level<'_>,
    is_sound: bool,
    sectors: &[bool],
    stands: &[bool],
    i: u32,
) -> Result<(), AllocError>
    requires sound { IsTrue is_sound ↔ IsSound level.now }
    requires sectors { AreTags (IsSectorTag level.now) sectors.now }
    requires stands { IsSound level.now → AreTags (HasDestination level.now) stands.now }
    requires below { TellsBelow (HoldsOf level.now GameCode.W16) (i * 3) told.old }
    ensures told { OnOk result (TellsBelow (HoldsOf level.now GameCode.W16) (i * 3 + 3) told.new) }
    ensures most { OnOk result (told.new.most ≡ told.old.most) }
{
    if !has_special(level, i) {
        return Ok(());
    }
    tell_barriers(told, level, i)?;
    let is_lost = has_no_destination(level, is_sound, sectors, stands, i);
    tell_lost(told, level, i, is_lost)
}

// Adds what keeps all from crossing a linedef.
fn tell_barriers<A: Allocator>(
    told: &mut Told<A>,
    level: &Level<'_>,
    i: u32,
) -> Result<(), AllocError>
    requires { TellsBelow (HoldsOf level.now GameCode.W16) (i * 3) told.old }
    ensures told { OnOk result (TellsBelow (HoldsOf level.now GameCode.W16) (i * 3 + 2) told.new) }
    ensures most { OnOk result (told.new.most ≡ told.old.most) }
{
    tell_barrier(told, level, i, Barrier::NoBack)?;
    tell_barrier(told, level, i, Barrier::LetsNone)
}

// Adds a teleporter without a destination.
fn tell_lost<A: Allocator>(
    told: &mut Told<A>,
    level: &Level<'_>,
    linedef: u32,
    holds: bool,
) -> Result<(), AllocError>
    requires holds { IsTrue holds ↔ HasNoDestination level.now linedef }
    requires below { TellsBelow (HoldsOf level.now GameCode.W16) (linedef * 3 + 2) told.old }
    ensures told { OnOk result (TellsBelow (HoldsOf level.now GameCode.W16) (linedef * 3 + 3) told.new) }
    ensures most { OnOk result (told.new.most ≡ told.old.most) }
{
    let warning = GameWarning::NoDestination { linedef };
    tell_where(told, level, GameCode::W16, warning, holds)
}

fn tell_barrier<A: Allocator>(
    told: &mut Told<A>,
    level: &Level<'_>,
    linedef: u32,
    barrier: Barrier,
) -> Result<(), AllocError>
    requires { TellsBelow (HoldsOf level.now GameCode.W16) (linedef * 3 + barrier_number barrier) told.old }
    ensures told { OnOk result
        (TellsBelow (HoldsOf level.now GameCode.W16) (linedef * 3 + barrier_number barrier + 1) told.new) }
    ensures most { OnOk result (told.new.most ≡ told.old.most) }
{
    let warning = GameWarning::NeverCrossed { linedef, barrier };
    let holds = is_never_crossed(level, linedef, barrier);
    tell_where(told, level, GameCode::W16, warning, holds)
}

// Whether a barrier keeps all from crossing the linedef of a number, whose special acts by that.
fn is_never_crossed(level: &Level<'_>, i: u32, barrier: Barrier) -> bool
    ensures { IsTrue result ↔ IsNeverCrossed level.now i barrier }
{
    match linedef_at(level, i as usize) {
        Some(linedef) => is_barred(level, &linedef, barrier),
        None => false,
    }
}

/// Whether a linedef's special acts when something crosses the linedef, and a barrier keeps all that could trigger it from that.
pub fn is_barred(level: &Level<'_>, linedef: &LineDef, barrier: Barrier) -> bool
    ensures { IsTrue result ↔ IsBarred level.now (linedef_under level.now.reading linedef.now) barrier }
{
    is_crossed(linedef.special) && bars(level, linedef, barrier)
}

/// Whether a barrier keeps all that could trigger a linedef's special from crossing the linedef.
pub fn bars(level: &Level<'_>, linedef: &LineDef, barrier: Barrier) -> bool
    ensures { IsTrue result ↔ Bars level.now (linedef_under level.now.reading linedef.now) barrier }
{
    let has_no_back = is_no_side(level, linedef.side1);
    match barrier {
        Barrier::NoBack => has_no_back,
        Barrier::LetsNone => !has_no_back && stops_all(linedef),
    }
}

// Whether a linedef's flags stop all that could trigger its special.
fn stops_all(linedef: &LineDef) -> bool
    ensures { IsTrue result ↔ StopsAll linedef.now }
{
    blocks(linedef) || blocks_monsters(linedef)
}

fn blocks(linedef: &LineDef) -> bool
    ensures { IsTrue result ↔ (HasFlag (pos 1) linedef.now × (is_one_of missile linedef.now.special ≡ false)) }
{
    linedef.flags & BLOCKS != 0 && !is_missile(linedef.special)
}

fn blocks_monsters(linedef: &LineDef) -> bool
    ensures { IsTrue result ↔ (HasFlag (pos 2) linedef.now × IsTrue (is_one_of monster linedef.now.special)) }
{
    linedef.flags & BLOCKS_MONSTERS != 0 && is_monster(linedef.special)
}
