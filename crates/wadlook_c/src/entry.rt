//! Levels by the entries of their labels.

ghost use Rattle.std.specs.Prelude.{◌≡◌, ◌∷◌, [], IfErr, IfOk, IfSome, IfNone, IsTrue, ◌↔◌};
ghost use Rattle.level_starts.specs.Starts.{LevelStartsAt};
ghost use Rattle.wad_dir.specs.Entries.{names};
ghost use Rattle.wadlook_c.specs.Entries.{IsAcceptedAt, IsEntry, RefusesAcceptedAt, RefusesEntry, entry_number_of, format_number_of};
ghost use Rattle.wadlook_c.specs.declared.entry.EntryFault.TheVariants.{Run};

use crate::opening::{accepted, open_file};
use crate::status::{LUMP_MISSING, LUMP_OUTSIDE, NO_LEVEL, OTHER_FORMAT, number_of};
use le_rec::Name8;
use lens_texts::level_at;
use level_starts::{Format, format_of, is_named};
use look_engines::RunFault;
use map_level::{Level, Reading};
use std::alloc::Allocator;
use wad_dir::Set;

/// Why an entry's level isn't judged.
#[derive(Clone, Copy, Debug, PartialEq, Eq)]
pub enum EntryFault {
    /// The file has no directory, or the level isn't sound, or a growth was refused.
    Run(RunFault),
    /// No level starts at the entry.
    NoLevel,
    /// The level that starts there is in this format, and not in Doom's.
    Format(Format),
}

impl From<RunFault> for EntryFault {
    ghost use Rattle.std.specs.Prelude.{◌≡◌};
    ghost use Rattle.wadlook_c.specs.declared.entry.EntryFault.TheVariants.{Run};

    ghost from_gives = { λ fault given. given ≡ Run fault };

    fn from(fault: RunFault) -> EntryFault {
        EntryFault::Run(fault)
    }
}

/// The level in Doom's format whose label is an entry of a file.
pub fn open_entry<'a, A: Allocator>(
    alloc: A,
    wad: &'a [u8],
    entry: usize,
    reading: Reading,
) -> Result<Level<'a>, EntryFault>
    ensures ok { IfOk result (IsEntry wad.now entry reading) }
    ensures err { IfErr result (RefusesEntry wad.now entry) }
{
    let set = open_file(alloc, wad)?;
    if !starts_at(&set, entry) {
        return Err(EntryFault::NoLevel);
    }
    match format_of(&set, entry) {
        Format::Doom => Ok(level_at(&set, entry, reading)),
        format => Err(EntryFault::Format(format)),
    }
}

/// The same, if it is sound.
pub fn open_accepted<'a, A: Allocator + Copy>(
    alloc: A,
    wad: &'a [u8],
    entry: usize,
    reading: Reading,
) -> Result<Level<'a>, EntryFault>
    ensures ok { IfOk result (IsAcceptedAt wad.now entry reading) }
    ensures err { IfErr result (RefusesAcceptedAt wad.now entry reading) }
{
    let level = open_entry(alloc, wad, entry, reading)?;
    accepted(alloc, &level)?;
    Ok(level)
}

/// Whether a level starts at an entry.
pub fn starts_at<A: Allocator>(set: &Set<'_, A>, g: usize) -> bool
    ensures { IsTrue result ↔ LevelStartsAt (names set.now) g }
{
    g < set.total()
        && (is_named(set, g + 1, Name8::query(b"THINGS"))
            || is_named(set, g + 1, Name8::query(b"TEXTMAP")))
}

/// The status for why an entry's level isn't judged.
pub fn entry_number_of(fault: EntryFault) -> u32
    ensures { result ≡ entry_number_of fault }
{
    match fault {
        EntryFault::Run(fault) => number_of(fault),
        EntryFault::NoLevel => NO_LEVEL,
        EntryFault::Format(format) => format_number_of(format),
    }
}

// The status of a level in a format that isn't judged.
fn format_number_of(format: Format) -> u32
    ensures { result ≡ format_number_of format }
{
    match format {
        Format::Incomplete(_) => LUMP_MISSING,
        Format::Outside(_) => LUMP_OUTSIDE,
        Format::Udmf | Format::Hexen | Format::Extended(_) | Format::Doom => OTHER_FORMAT,
    }
}
