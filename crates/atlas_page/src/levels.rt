//! The levels of a file as rows.

ghost use Rattle.std.specs.Prelude.{◌≡◌, IfOk, OnErr, OnOk, length};
ghost use Rattle.level_starts.specs.Format.{IsFormat};
ghost use Rattle.level_starts.specs.Starts.{LevelStartsAt};
ghost use Rattle.level_starts.specs.declared.format.Format.TheVariants as format;
ghost use Rattle.atlas_page.specs.Levels.{AddsRow, AddsRows, AddsSome, IsRow};
ghost use Rattle.lens_engines.specs.Warned.{known_files};
ghost use Rattle.wad_dir.specs.Entries.{names};

use crate::messages::{MessageItems, Messages};
use crate::row::Row;
use lens_engines::{Judged, Judging, LevelCounts, Surveyed, Unjudged, unread_at};
use lens_texts::{label_of, level_at};
use level_starts::LevelStarts;
use map_warnings::Resources;
use std::alloc::{AllocError, Allocator, Global};
use wad_dir::Set;

/// Where levels come from, and how they are judged.
#[derive(Clone, Copy)]
pub struct Origin<'p, 'b> {
    /// The number of the file, from 1.
    pub file: u64,
    /// Its path.
    pub path: &'p [u8],
    pub judging: Judging<'b>,
    /// How many messages of one code each level's row has at most.
    pub most: u64,
}

/// Adds a row for each level of a set, in the order of their labels, as one of the origin's file. The set's textures and flats
/// are known if warnings are looked for. A level is looked over once, and its memory is freed before the next one; its messages
/// are kept in memory of the program's. On Err the rows of the first levels were added, but not all rows.
pub fn push_rows<'p, A: Allocator + Copy, B: Allocator>(
    alloc: A,
    global: Global,
    origin: &Origin<'p, '_>,
    set: &Set<'_, A>,
    resources: &Option<Resources<'_, '_, A>>,
    rows: &mut Vec<Row<'p>, B>,
) -> Result<(), AllocError>
    requires { resources.now ≡ known_files origin.now.judging set.now }
    ensures all { OnOk result (AddsRows origin.now set.now (length (names set.now)) rows.old.items rows.new.items) }
    ensures some { OnErr result (AddsSome origin.now set.now rows.old.items rows.new.items) }
{
    'levels: for g in LevelStarts::of(set) {
        push_row(alloc, global, origin, set, resources, g, rows)?;
    }
    Ok(())
}

// Adds the row of the level that starts at an entry.
fn push_row<'p, A: Allocator + Copy, B: Allocator>(
    alloc: A,
    global: Global,
    origin: &Origin<'p, '_>,
    set: &Set<'_, A>,
    resources: &Option<Resources<'_, '_, A>>,
    g: usize,
    rows: &mut Vec<Row<'p>, B>,
) -> Result<(), AllocError>
    requires known { resources.now ≡ known_files origin.now.judging set.now }
    requires starts { LevelStartsAt (names set.now) g }
    ensures added { OnOk result (AddsRow origin.now set.now g rows.old.items rows.new.items) }
    ensures kept { OnErr result (rows.new.items ≡ rows.old.items) }
{
    let row = row_at(alloc, global, origin, set, resources, g)?;
    rows.push(row)?;
    Ok(())
}

// The row of the level that starts at an entry.
fn row_at<'p, A: Allocator + Copy>(
    alloc: A,
    global: Global,
    origin: &Origin<'p, '_>,
    set: &Set<'_, A>,
    resources: &Option<Resources<'_, '_, A>>,
    g: usize,
) -> Result<Row<'p>, AllocError>
    requires known { resources.now ≡ known_files origin.now.judging set.now }
    requires starts { LevelStartsAt (names set.now) g }
    ensures { IfOk result (IsRow origin.now set.now g) }
{
    match unread_at(set, g) {
        None => judged_row(alloc, global, origin, set, resources, g),
        Some(unread) => Ok(Row {
            file: origin.file,
            path: origin.path,
            entry: g as u64,
            name: label_of(set, g),
            found: Surveyed::Unjudged(Unjudged::new(unread)),
            messages: Messages::none(global),
        }),
    }
}

// The row of a level of Doom's format.
fn judged_row<'p, A: Allocator + Copy>(
    alloc: A,
    global: Global,
    origin: &Origin<'p, '_>,
    set: &Set<'_, A>,
    resources: &Option<Resources<'_, '_, A>>,
    g: usize,
) -> Result<Row<'p>, AllocError>
    requires known { resources.now ≡ known_files origin.now.judging set.now }
    requires starts { LevelStartsAt (names set.now) g }
    requires is { IsFormat set.now g format.Doom }
    ensures { IfOk result (IsRow origin.now set.now g) }
{
    let judging = origin.judging;
    let level = level_at(set, g, judging.reading);
    let judged = Judged::of(alloc, &level, resources, origin.most as usize, judging)?;
    let counted = LevelCounts::of(&judged, resources, judging);
    let form = MessageItems {
        file: origin.file,
        entry: g as u64,
        drawn: counted.drawn,
    };
    let messages = Messages::of(alloc, global, &judged, &form, origin.most)?;
    Ok(Row {
        file: origin.file,
        path: origin.path,
        entry: g as u64,
        name: label_of(set, g),
        found: Surveyed::Judged(counted),
        messages,
    })
}
