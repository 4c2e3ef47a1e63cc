//! Which warnings weren't looked for at a level.

ghost use Rattle.std.specs.Prelude.{◌≡◌, ◌↔◌, ◌≤◌, ◌++◌, IsSomeAnd, IsTrue, false, length};
ghost use Rattle.line_io.specs.Writes.{Writes};
ghost use Rattle.game_warnings.specs.Misplaced.{HasFlatEnds};
ghost use Rattle.map_audit.specs.Findings.{AuditHolds};
ghost use Rattle.map_warnings.specs.Listed.{HasFlats, HasTextures};
ghost use Rattle.level_codes.specs.Codes.{code_name};
ghost use Rattle.lens_engines.specs.Counts.{AreCounts};
ghost use Rattle.lens_engines.specs.Unlooked.{AreUnlooked, AreUnlookedFor, has_any, names_text, unlooked_member, unlooked_names};

use crate::counts::CodeCounts;
use crate::judging::{Judging, Warnings};
use crate::warned::{have_references, is_faultless};
use le_rec::Sink;
use level_codes::{CodeSet, Offer, REPORT_COUNT, ReportCode};
use line_io::{IoFault, TextLine, emit};
use map_level::Level;
use map_warnings::Resources;
use std::alloc::Allocator;

/// The warnings that were asked for at a level and weren't looked for, by how often each code of findings holds of the level. None
/// if warnings aren't asked for. An ignored one isn't asked for.
pub(crate) fn known_unlooked<A: Allocator>(
    level: &Level<'_>,
    resources: &Option<Resources<'_, '_, A>>,
    counts: &CodeCounts,
    judging: Judging<'_>,
) -> CodeSet
    requires { AreCounts (AuditHolds level.now) counts.now }
    ensures { AreUnlookedFor judging.entry resources.now level.now result }
{
    match judging.warnings {
        Warnings::Unasked => CodeSet::none(),
        Warnings::Told => asked_unlooked(level, resources, counts, judging.ignored),
    }
}

// The codes of warnings whose wants aren't met, without the ignored ones.
fn asked_unlooked<A: Allocator>(
    level: &Level<'_>,
    resources: &Option<Resources<'_, '_, A>>,
    counts: &CodeCounts,
    ignored: CodeSet,
) -> CodeSet
    requires { AreCounts (AuditHolds level.now) counts.now }
    ensures { AreUnlooked ignored resources.now level.now result }
{
    let offer = Offer {
        references: have_references(level, counts),
        soundness: is_faultless(level, counts),
        textures: list_textures(resources),
        flats: list_flats(resources),
        flat_ends: list_flat_ends(resources),
    };
    CodeSet::unmet(offer).without(ignored)
}

// Whether some files are known, and list textures.
fn list_textures<A: Allocator>(resources: &Option<Resources<'_, '_, A>>) -> bool
    ensures { IsTrue result ↔ IsSomeAnd resources.now HasTextures }
{
    match resources {
        Some(known) => known.has_textures(),
        None => false,
    }
}

// Whether some files are known, and list flats.
fn list_flats<A: Allocator>(resources: &Option<Resources<'_, '_, A>>) -> bool
    ensures { IsTrue result ↔ IsSomeAnd resources.now HasFlats }
{
    match resources {
        Some(known) => known.has_flats(),
        None => false,
    }
}

// Whether some files are known, and have both ends of the flats.
fn list_flat_ends<A: Allocator>(resources: &Option<Resources<'_, '_, A>>) -> bool
    ensures { IsTrue result ↔ IsSomeAnd resources.now HasFlatEnds }
{
    match resources {
        Some(known) => known.has_flat_ends(),
        None => false,
    }
}

/// Whether a code is in a set.
pub(crate) fn has_any(set: &CodeSet) -> bool
    ensures { result ≡ has_any set.now }
{
    !set.is_empty()
}

/// Writes `,"unlooked":[<codes>]`, where there are some.
pub(crate) fn write_unlooked<W: Sink>(set: &CodeSet, out: &mut W) -> Result<(), IoFault>
    requires { (W.state out.old).failed ≡ false }
    ensures { Writes (W.state out.old) (W.state out.new) (unlooked_member set.now) result }
{
    if has_any(set) {
        write_unlooked_names(set, out)
    } else {
        emit(out, b"")
    }
}

// `,"unlooked":[<codes>]`
fn write_unlooked_names<W: Sink>(set: &CodeSet, out: &mut W) -> Result<(), IoFault>
    requires { (W.state out.old).failed ≡ false }
    ensures { Writes (W.state out.old) (W.state out.new) (unlooked_names set.now) result }
{
    emit(out, b",\"unlooked\":[")?;
    write_names(set, b"\"", b"\"", out)?;
    emit(out, b"]")
}

/// Writes the names of the codes of a set, each between two texts, and commas between them.
pub(crate) fn write_names<W: Sink>(
    set: &CodeSet,
    front: &[u8],
    back: &[u8],
    out: &mut W,
) -> Result<(), IoFault>
    requires front { length front.now ≤ 1 }
    requires back { length back.now ≤ 1 }
    requires sound { (W.state out.old).failed ≡ false }
    ensures { Writes (W.state out.old) (W.state out.new) (names_text front.now back.now set.now) result }
{
    let mut separator: &[u8] = b"";
    'codes: for rank in 0..REPORT_COUNT {
        let code = ReportCode::at(rank);
        if set.has(code) {
            write_name(separator, front, code, back, out)?;
            separator = b",";
        }
    }
    Ok(())
}

// `<separator><front><code><back>`
fn write_name<W: Sink>(
    separator: &[u8],
    front: &[u8],
    code: ReportCode,
    back: &[u8],
    out: &mut W,
) -> Result<(), IoFault>
    requires separator { length separator.now ≤ 1 }
    requires front { length front.now ≤ 1 }
    requires back { length back.now ≤ 1 }
    requires sound { (W.state out.old).failed ≡ false }
    ensures { Writes (W.state out.old) (W.state out.new) (separator.now ++ (front.now ++ (code_name code ++ back.now))) result }
{
    let mut line = TextLine::new();
    line.prepend_bytes(back);
    line.prepend_bytes(code.name());
    line.prepend_bytes(front);
    line.prepend_bytes(separator);
    emit(out, line.as_bytes())
}
