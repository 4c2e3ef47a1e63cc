//! W5: ssectors whose segs face several sectors.

ghost use Rattle.std.specs.Prelude.{◌≡◌, ◌+◌, ◌<◌, ◌^◌, ◌↔◌, ℕ, pos, length, slice_index_or};
ghost use Rattle.std.specs.Prelude.{IfNone, IfOk, IfSome, IsTrue, OnOk};
ghost use Rattle.std.specs.Option.{option_map};
ghost use Rattle.map_level.specs.Reading.{ssector_under};
ghost use Rattle.map_warnings.specs.Facing.{AreRunEnds, IsMismatched, IsRunEnd, Mismatch, sector_faced};
ghost use Rattle.map_warnings.specs.Warnings.{Tells, TellsBelow};
ghost use Rattle.map_warnings.specs.Holds.{HoldsOf};

use crate::records::number_named;
use crate::told::{Told, tell_where};
use crate::warning::Warning;
use le_rec::SSector;
use level_codes::WarningCode;
use map_level::links::{seg_at, sidedef_of, ssector_at};
use map_level::{Level, number};
use std::alloc::{AllocError, Allocator};

/// W5 of a level: its ssectors whose segs don't all face the sector of the first. It takes four bytes a seg.
pub fn mismatched<A: Allocator + Copy>(
    alloc: A,
    level: &Level<'_>,
    most: usize,
) -> Result<Told<A>, AllocError>
    ensures told { IfOk result (λ told. Tells (HoldsOf level.now WarningCode.W5) told) }
    ensures most { IfOk result (λ told. told.most ≡ most) }
{
    let mut ends = Vec::from_elem(alloc, 0, level.segs().len())?;
    put_run_ends(level, &mut ends);
    tell_mismatched(alloc, level, &ends, most)
}

// Adds the mismatched ssectors. The runs of segs that face one sector, by their ends, are known.
fn tell_mismatched<A: Allocator>(
    alloc: A,
    level: &Level<'_>,
    ends: &[u32],
    most: usize,
) -> Result<Told<A>, AllocError>
    requires { AreRunEnds level.now ends.now }
    ensures told { IfOk result (λ told. Tells (HoldsOf level.now WarningCode.W5) told) }
    ensures most { IfOk result (λ told. told.most ≡ most) }
{
    let mut told = Told::new(alloc, most);
    for t in 0..level.ssectors().len() {
        tell_ssector(&mut told, level, ends, t as u32)?;
    }
    Ok(told)
}

// Adds an ssector whose segs face several sectors.
fn tell_ssector<A: Allocator>(
    told: &mut Told<A>,
    level: &Level<'_>,
    ends: &[u32],
    t: u32,
) -> Result<(), AllocError>
    requires ends { AreRunEnds level.now ends.now }
    requires below { TellsBelow (HoldsOf level.now WarningCode.W5) t told.old }
    ensures told { OnOk result (TellsBelow (HoldsOf level.now WarningCode.W5) (t + 1) told.new) }
    ensures most { OnOk result (told.new.most ≡ told.old.most) }
{
    let Some(faced) = mismatch_of(level, ends, t) else {
        return Ok(());
    };
    let warning = Warning::Mismatched {
        ssector: t,
        first: faced.one,
        other: faced.other,
    };
    tell_where(told, level, WarningCode::W5, warning, true)
}

// Two sectors that the segs of an ssector face.
#[derive(Clone, Copy)]
struct Faced {
    one: u32,
    other: u32,
}

// The sector of an ssector's first seg, and the first other one that its segs face.
fn mismatch_of(level: &Level<'_>, ends: &[u32], t: u32) -> Option<Faced>
    requires { AreRunEnds level.now ends.now }
    ensures some { IfSome result (λ faced. IsMismatched level.now t faced.one faced.other) }
    ensures none { IfNone result ((one other : ℕ) → ¬ IsMismatched level.now t one other) }
{
    match ssector_at(level, t as usize) {
        Some(ssector) => mismatch_in(level, ends, &ssector),
        None => None,
    }
}

fn mismatch_in(level: &Level<'_>, ends: &[u32], ssector: &SSector) -> Option<Faced>
    requires { AreRunEnds level.now ends.now }
    ensures some { IfSome result (λ faced.
        let under = ssector_under level.now.reading ssector.now in
        Mismatch level.now under.first under.count faced.one faced.other) }
    ensures none { IfNone result ((one other : ℕ) →
        let under = ssector_under level.now.reading ssector.now in
        ¬ Mismatch level.now under.first under.count one other) }
{
    let reading = level.reading();
    mismatch_at(
        level,
        ends,
        number(ssector.first, reading),
        number(ssector.count, reading),
    )
}

fn mismatch_at(level: &Level<'_>, ends: &[u32], first: i32, count: i32) -> Option<Faced>
    requires { AreRunEnds level.now ends.now }
    ensures some { IfSome result (λ faced. Mismatch level.now first count faced.one faced.other) }
    ensures none { IfNone result ((one other : ℕ) → ¬ Mismatch level.now first count one other) }
{
    if first < 0 {
        return None;
    }
    if count < 0 {
        return None;
    }
    mismatch_from(level, ends, first as usize, count as usize)
}

// The sector that the first of so many segs faces, and the first other one.
fn mismatch_from(level: &Level<'_>, ends: &[u32], first: usize, count: usize) -> Option<Faced>
    requires { AreRunEnds level.now ends.now }
    ensures some { IfSome result (λ faced. Mismatch level.now (pos first) (pos count) faced.one faced.other) }
    ensures none { IfNone result ((one other : ℕ) → ¬ Mismatch level.now (pos first) (pos count) one other) }
{
    if first >= ends.len() {
        return None;
    }
    let end = ends[first] as usize;
    if end >= ends.len() {
        return None;
    }
    if end - first >= count {
        return None;
    }
    let Some(one) = sector_faced(level, first) else {
        return None;
    };
    let Some(other) = sector_faced(level, end) else {
        return None;
    };
    Some(Faced { one, other })
}

// Puts where each run of segs that face one sector ends, from the last seg to the first.
fn put_run_ends(level: &Level<'_>, ends: &mut [u32])
    requires long { length ends.old ≡ length level.now.segs.records }
    requires few { length ends.old < 2 ^ 31 }
    ensures { AreRunEnds level.now ends.new }
{
    let mut after = None;
    'segs: for j in (0..ends.len()).rev() {
        let here = sector_faced(level, j);
        ends[j] = run_end(level, ends, j, is_same(here, after));
        after = here;
    }
}

// Where the run of a seg ends, by the end of the next seg's run, and by whether both face the same sector.
fn run_end(level: &Level<'_>, ends: &[u32], j: usize, face_same: bool) -> u32
    requires long { length ends.now ≡ length level.now.segs.records }
    requires here { j < length ends.now }
    requires next { j + 1 < length ends.now → IsRunEnd level.now (j + 1) (slice_index_or ends.now (j + 1) 0) }
    requires same { j + 1 < length ends.now
        → (IsTrue face_same ↔ (sector_faced level.now (pos j) ≡ sector_faced level.now (pos (j + 1)))) }
    requires few { length ends.now < 2 ^ 31 }
    ensures { IsRunEnd level.now j result }
{
    // Only the clauses speak of the level.
    let _level = level;
    let next = j + 1;
    if next < ends.len() && face_same {
        return ends[next];
    }
    next as u32
}

// Whether two sectors are the same, or both none.
fn is_same(a: Option<u32>, b: Option<u32>) -> bool
    ensures { IsTrue result ↔ (a ≡ b) }
{
    match (a, b) {
        (Some(a), Some(b)) => a == b,
        (None, None) => true,
        _ => false,
    }
}

// The sector that a seg faces.
#[inline]
fn sector_faced(level: &Level<'_>, j: usize) -> Option<u32>
    ensures { result ≡ sector_faced level.now (pos j) }
{
    let seg = seg_at(level, j)?;
    let sidedef = sidedef_of(level, &seg)?;
    number_named(
        number(sidedef.sector, level.reading()),
        level.sectors().len(),
    )
}
