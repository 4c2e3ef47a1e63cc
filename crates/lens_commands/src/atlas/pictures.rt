//! The pictures of a file's levels, each a file of the folder.

ghost use Rattle.std.specs.Prelude.{◌≡◌, ◌≤◌, true, All, OnOk, OnErr};
ghost use Rattle.lens_commands.specs.AtlasPictures.{DrawsFile, DrawsRow, DrawsRows, DrawsSome, fault_of};
ghost use Rattle.atlas_page.specs.Levels.{IsRow};
ghost use Rattle.lens_engines.specs.LevelCounts.{HasLines};

use crate::atlas::fault::KeepFault;
use crate::atlas::folder::Folder;
use atlas_page::{Origin, Row, prepend_picture_name};
use lens_texts::level_at;
use line_io::TextLine;
use map_level::Level;
use map_picture::{DrawFault, View, draw_level};
use std::alloc::Global;
use wad_dir::Set;

/// Draws the levels of a file's rows, each into a file of the folder, where the page shows a picture.
pub fn draw_rows<F: Folder>(
    alloc: Global,
    drawn: &View,
    origin: &Origin<'_, '_>,
    set: &Set<'_>,
    rows: &[Row<'_>],
    folder: &mut F,
) -> Result<(), KeepFault>
    requires taken { F.taken folder.old ≡ true }
    requires rows { All (λ row. IsRow origin.now set.now row.entry row) rows.now }
    ensures taken { F.taken folder.new ≡ true }
    ensures all { OnOk result (DrawsRows drawn.now origin.now.judging.reading set.now rows.now (F.kept folder.old) (F.kept folder.new)) }
    ensures some { OnErr result (DrawsSome drawn.now origin.now.judging.reading set.now rows.now (F.kept folder.old) (F.kept folder.new)) }
{
    for row in rows {
        draw_row(alloc, drawn, origin, set, row, folder)?;
    }
    Ok(())
}

// Draws the level of a row, where the page shows a picture.
fn draw_row<F: Folder>(
    alloc: Global,
    drawn: &View,
    origin: &Origin<'_, '_>,
    set: &Set<'_>,
    row: &Row<'_>,
    folder: &mut F,
) -> Result<(), KeepFault>
    requires taken { F.taken folder.old ≡ true }
    requires row { IsRow origin.now set.now row.now.entry row.now }
    ensures taken { F.taken folder.new ≡ true }
    ensures drawn { OnOk result (DrawsRow drawn.now origin.now.judging.reading set.now row.now (F.kept folder.old) (F.kept folder.new)) }
    ensures kept { OnErr result (F.kept folder.new ≡ F.kept folder.old) }
{
    if !row.found.is_drawn() {
        return Ok(());
    }
    let level = level_at(set, row.entry as usize, origin.judging.reading);
    let mut name = TextLine::new();
    prepend_picture_name(&mut name, row.file, row.entry);
    draw_file(alloc, *drawn, &level, name.as_bytes(), folder)
}

// Draws a level into a file of the folder.
fn draw_file<F: Folder>(
    alloc: Global,
    drawn: View,
    level: &Level<'_>,
    name: &[u8],
    folder: &mut F,
) -> Result<(), KeepFault>
    requires taken { F.taken folder.old ≡ true }
    requires lines { HasLines level.now }
    ensures taken { F.taken folder.new ≡ true }
    ensures drawn { OnOk result (DrawsFile drawn level.now name.now (F.kept folder.old) (F.kept folder.new)) }
    ensures kept { OnErr result (F.kept folder.new ≡ F.kept folder.old) }
{
    let mut file = folder.begin(name)?;
    match draw_level(alloc, level, drawn, &mut file) {
        Ok(_) => folder.keep(file, name),
        Err(DrawFault::NothingToDraw) => unreachable!(),
        Err(fault) => {
            folder.discard(file, name);
            Err(fault_of(fault))
        }
    }
}

// The fault of a file, by that of its drawing.
fn fault_of(fault: DrawFault) -> KeepFault
    ensures { result ≡ fault_of fault }
{
    match fault {
        DrawFault::Memory => KeepFault::Memory,
        DrawFault::Write(_) | DrawFault::NothingToDraw => KeepFault::Write,
    }
}
