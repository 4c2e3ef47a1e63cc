//! The command `levels`: the labels of levels.

ghost use Rattle.std.specs.Prelude.{◌≡◌, ◌≤◌, ◌<◌, ◌^◌, ◌+◌, ◌-◌, ◌↔◌, ℕ, List, [], false, length, map};
ghost use Rattle.std.specs.Prelude.{IfOk, IsSome, IsTrue, None, Some};
ghost use Rattle.std.specs.List.{slice_get};
ghost use Rattle.level_starts.specs.Holders.{AreLabelHolders};
ghost use Rattle.line_io.specs.Writes.{Writes};
ghost use Rattle.map_level.specs.LinkFaults.{usual_names};
ghost use Rattle.wad_dir.specs.Entries.{joined, names};
ghost use Rattle.wad_dir.specs.declared.set.TheConstants.{MAX_FILES};
ghost use Rattle.look_engines.specs.Engines.Levels.{AreLabels, AreListed, IsLabel};
ghost use Rattle.look_engines.specs.Engines.Levels.{RunsLevels, level_line, levels_text};

use crate::fault::{RunFault, ended};
use crate::names::prepend_name;
use crate::opening::open_set;
use le_rec::{Name8, Sink};
use level_starts::Holders;
use line_io::{IoFault, TextLine, emit};
use map_level::usual_name;
use std::alloc::{AllocError, Allocator};
use wad_dir::{AsBytes, Set};

/// A level as it is listed.
#[derive(Clone, Copy, Debug, PartialEq, Eq)]
pub struct Listed {
    /// The number of the label's entry.
    pub label: usize,
    pub name: Name8,
    /// Whether a look-up of the name gives another entry or none.
    pub hidden: bool,
}

/// Writes a line for each label that ten entries of the usual names follow: its number, its name, and `hidden` where
/// looking the name up gives another entry or none. `Set` and `Memory` come before anything is written.
pub fn levels<A: Allocator + Copy, F: AsBytes, W: Sink>(
    alloc: A,
    files: &[F],
    out: &mut W,
) -> Result<(), RunFault>
    requires few { length files.now ≤ MAX_FILES }
    requires sound { (W.state out.old).failed ≡ false }
    ensures { RunsLevels W.state (map F.bytes files.now) out.old out.new result }
{
    let set = open_set(alloc, files)?;
    let found = match listed_levels(alloc, &set) {
        Ok(found) => found,
        Err(_) => return Err(RunFault::Memory),
    };
    ended(write_levels(&found, out))
}

// The levels of the files.
fn listed_levels<A: Allocator + Copy>(
    alloc: A,
    set: &Set<'_, A>,
) -> Result<Vec<Listed, A>, AllocError>
    ensures { IfOk result (λ found. AreListed (names set.now) found.items) }
{
    let labels = find_labels(alloc, set)?;
    let holders = Holders::of(alloc, set)?;
    list_labels(alloc, set, &labels, &holders)
}

// The numbers of all labels.
fn find_labels<A: Allocator + Copy>(alloc: A, set: &Set<'_, A>) -> Result<Vec<usize, A>, AllocError>
    ensures { IfOk result (λ labels. AreLabels (names set.now) labels.items) }
{
    let mut labels = Vec::new(alloc);
    'entries: for g in 0..set.total().saturating_sub(10) {
        if is_label(set, g) {
            labels.push(g)?;
        }
    }
    Ok(labels)
}

// The levels of the labels, by the last holders of their names.
fn list_labels<A: Allocator + Copy>(
    alloc: A,
    set: &Set<'_, A>,
    labels: &[usize],
    holders: &Holders<A>,
) -> Result<Vec<Listed, A>, AllocError>
    requires labels { AreLabels (names set.now) labels.now }
    requires holders { AreLabelHolders (names set.now) holders.now.holders }
    ensures { IfOk result (λ found. AreListed (names set.now) found.items) }
{
    let mut found = Vec::new(alloc);
    'labels: for g in labels {
        if let Some(name) = entry_name(set, *g) {
            let hidden = holders.is_hidden(&name, *g);
            found.push(Listed {
                label: *g,
                name,
                hidden,
            })?;
        }
    }
    Ok(found)
}

// Whether the ten entries after a number have the usual names.
fn is_label<A: Allocator>(set: &Set<'_, A>, g: usize) -> bool
    requires { g + 10 < 2 ^ 64 }
    ensures { IsTrue result ↔ IsLabel (names set.now) g }
{
    for k in 1..11 {
        if !is_usual(set, g, k) {
            return false;
        }
    }
    true
}

// Whether the entry k behind a number has the usual name of lump k.
fn is_usual<A: Allocator>(set: &Set<'_, A>, g: usize, k: usize) -> bool
    requires lump { (1 ≤ k) × (k ≤ 10) }
    requires fits { g + 10 < 2 ^ 64 }
    ensures { IsTrue result ↔ (slice_get (names set.now) (g + k) ≡ slice_get usual_names (k - 1)) }
{
    entry_name(set, g + k) == Some(usual_name(k))
}

// The name of an entry.
fn entry_name<A: Allocator>(set: &Set<'_, A>, g: usize) -> Option<Name8>
    ensures { result ≡ slice_get (names set.now) g }
{
    set.name(g)
}

// Writes the lines of levels.
fn write_levels<W: Sink>(found: &[Listed], out: &mut W) -> Result<(), IoFault>
    requires { (W.state out.old).failed ≡ false }
    ensures { Writes (W.state out.old) (W.state out.new) (levels_text found.now) result }
{
    'levels: for level in found {
        write_line(level, out)?;
    }
    Ok(())
}

// Writes the line of a level.
fn write_line<W: Sink>(level: &Listed, out: &mut W) -> Result<(), IoFault>
    requires { (W.state out.old).failed ≡ false }
    ensures { Writes (W.state out.old) (W.state out.new) (level_line level.now) result }
{
    let mut line = TextLine::new();
    prepend_level(&mut line, level);
    emit(out, line.as_bytes())
}

// `<g> <name>`, and ` hidden` where it is
#[tactic(auto, unfolding(crate::specs::Engines::Levels::level_line))]
fn prepend_level(line: &mut TextLine, level: &Listed)
    requires { line.old ≡ [] }
    ensures { line.new ≡ level_line level.now }
{
    line.prepend_bytes(b"\n");
    if level.hidden {
        line.prepend_bytes(b" hidden");
    }
    prepend_name(line, &level.name);
    line.prepend_bytes(b" ");
    line.prepend_natural(level.label as u64);
}
