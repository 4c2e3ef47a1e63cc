//! Where the linedefs of the first level of a file lie and which sectors they face, as numbers for the host.

ghost use Rattle.std.specs.Prelude.{◌≡◌, ◌<ℤ◌, pos, IfErr, IfOk, IfSome};
ghost use Rattle.std.specs.List.{flat_map};
ghost use Rattle.std.specs.Option.{option_map};
ghost use Rattle.le_rec.specs.Number.{signed_bytes32};
ghost use Rattle.map_level.specs.Reading.{sidedef_under};
ghost use Rattle.map_level.specs.SectorOf.{number_named};
ghost use Rattle.wad_page.specs.Linedefs.{ListsFirst, ListsLevel, RefusesList, RefusesListing, faced_sector, faced_sidedef, linedef_numbers, linedefs_bytes, sector_number, side_index};
ghost use Rattle.wad_page.specs.LinedefsEnded.{AnswersLinedefs};

use crate::Ended;
use crate::draw::REFUSED;
use crate::lens::reading_of;
use block_alloc::{HostBlock, arena};
use byteorder::{ByteOrder, LittleEndian};
use le_rec::SideDef;
use map_cells::linedef_ends;
use map_level::links::{linedef_at, names_none, side_at, sidedef_named};
use map_level::{Level, LevelFault, Reading, number};
use memory_streams::hand_out;
use std::alloc::{AllocError, Allocator};
use wad_dir::{Set, SetFault, WadFault};

/// How linedefs are read, in the host's layout.
#[repr(C)]
#[derive(Clone, Copy)]
pub struct LinedefsQuestion {
    /// 0 to read indexes as signed numbers, else they are read as numbers from 0 to 65535.
    pub wide: u8,
}

// Stands for a number that isn't there.
const NOT_THERE: i32 = i32::MIN;

// How many bytes the numbers of a linedef have.
const ROW: usize = 24;

/// Why the linedefs of a file's first level aren't listed.
#[derive(Clone, Copy, Debug, PartialEq, Eq)]
pub enum ListFault {
    /// The bytes have no directory.
    NoWad(WadFault),
    /// The directory has no entry.
    NoEntry,
    /// A lump behind the first entry isn't there, or lies outside the file.
    NoLevel(LevelFault),
    /// A growth was refused.
    Memory,
}

impl From<AllocError> for ListFault {
    ghost use Rattle.wad_page.specs.declared.linedefs.ListFault.TheVariants.{Memory};

    ghost from_gives = { λ _ fault. fault ≡ Memory };

    fn from(_error: AllocError) -> ListFault {
        ListFault::Memory
    }
}

/// Lists the linedefs of a file's first level into `out`; None where there is no room.
pub fn list_out(
    heap: HostBlock,
    file: &[u8],
    question: &LinedefsQuestion,
    out: &mut [u8],
) -> Option<Ended>
    ensures { IfSome result (AnswersLinedefs file.now question.now.wide out.old out.new) }
{
    let arena = arena(heap)?;
    match list_first(&arena, file, reading_of(question.wide)) {
        Ok(list) => {
            let answered = hand_out(&list, out)?;
            Some(Ended {
                status: 0,
                answered,
                told: 0,
            })
        }
        Err(ListFault::Memory) => None,
        Err(_) => Some(REFUSED),
    }
}

// The numbers of the linedefs of the level whose label is the first entry of a file's bytes, as `cut` packs one. The level's
// format isn't checked: the caller knows that it is Doom's.
fn list_first<A: Allocator + Copy>(
    alloc: A,
    bytes: &[u8],
    reading: Reading,
) -> Result<Vec<u8, A>, ListFault>
    ensures listed { IfOk result (λ list. ListsFirst bytes.now reading list.items) }
    ensures refused { IfErr result (RefusesList bytes.now) }
{
    match Set::one(alloc, bytes) {
        Ok(set) => list_entry(alloc, &set, reading),
        Err(SetFault::File(_, fault)) => Err(ListFault::NoWad(fault)),
        Err(SetFault::Memory) => Err(ListFault::Memory),
    }
}

// The numbers of the linedefs of the level whose label is the first entry of a set.
fn list_entry<A: Allocator + Copy>(
    alloc: A,
    set: &Set<'_, A>,
    reading: Reading,
) -> Result<Vec<u8, A>, ListFault>
    ensures listed { IfOk result (λ list. ListsLevel set.now reading list.items) }
    ensures refused { IfErr result (RefusesListing set.now) }
{
    if set.total() == 0 {
        return Err(ListFault::NoEntry);
    }
    match Level::at(set, 0, reading) {
        Ok(level) => {
            let list = list_level(alloc, &level)?;
            Ok(list)
        }
        Err(fault) => Err(ListFault::NoLevel(fault)),
    }
}

// The numbers of all linedefs of a level, as bytes.
fn list_level<A: Allocator + Copy>(alloc: A, level: &Level<'_>) -> Result<Vec<u8, A>, AllocError>
    ensures { IfOk result (λ list. list.items ≡ linedefs_bytes level.now) }
{
    let count = level.linedefs().len();
    let mut list = Vec::with_capacity(alloc, ROW * count)?;
    for i in 0..count {
        let row = bytes_of(&numbers_of(level, i));
        let Ok(()) = list.extend_from_slice(&row) else {
            return Err(AllocError);
        };
    }
    Ok(list)
}

// Numbers as bytes, of each the lowest first.
fn bytes_of(numbers: &[i32; 6]) -> [u8; ROW]
    ensures { result ≡ flat_map signed_bytes32 numbers.now }
{
    let mut bytes = [0; ROW];
    LittleEndian::write_i32_into(numbers, &mut bytes);
    bytes
}

// The numbers of a linedef: x y x y of its vertexes, where both are there, and the sectors in front and at the back.
fn numbers_of(level: &Level<'_>, i: usize) -> [i32; 6]
    ensures { result ≡ linedef_numbers level.now i }
{
    let front = faced_number(level, i, 0);
    let back = faced_number(level, i, 1);
    match linedef_ends(level, i) {
        Some(ends) => [
            i32::from(ends.from.x),
            i32::from(ends.from.y),
            i32::from(ends.to.x),
            i32::from(ends.to.y),
            front,
            back,
        ],
        None => [NOT_THERE, NOT_THERE, NOT_THERE, NOT_THERE, front, back],
    }
}

// The number of the sector that a linedef faces at a side.
fn faced_number(level: &Level<'_>, i: usize, side: i16) -> i32
    ensures { result ≡ sector_number (faced_sector level.now i side) }
{
    match faced_sector(level, i, side) {
        Some(sector) => i32::from(sector),
        None => NOT_THERE,
    }
}

// The sector that a linedef faces at a side, or None where a link on the way names nothing.
fn faced_sector(level: &Level<'_>, i: usize, side: i16) -> Option<u16>
    ensures { result ≡ faced_sector level.now i side }
{
    let sidedef = faced_sidedef(level, i, side)?;
    number_named(
        number(sidedef.sector, level.reading()),
        level.sectors().len(),
    )
}

// The sidedef of a linedef at a side.
fn faced_sidedef(level: &Level<'_>, i: usize, side: i16) -> Option<SideDef>
    ensures { option_map (sidedef_under level.now.reading) result ≡ faced_sidedef level.now i side }
{
    let index = side_index(level, i, side)?;
    sidedef_named(level, index)
}

// The index that a linedef has at a side.
fn side_index(level: &Level<'_>, i: usize, side: i16) -> Option<i32>
    ensures { result ≡ side_index level.now i side }
{
    let linedef = linedef_at(level, i)?;
    side_at(&linedef, level.reading(), side)
}

// The number of the record that an index names, of `count` records.
fn number_named(index: i32, count: usize) -> Option<u16>
    requires { index <ℤ pos 65536 }
    ensures { result ≡ number_named count index }
{
    if names_none(index, count) {
        return None;
    }
    Some(index as u16)
}
