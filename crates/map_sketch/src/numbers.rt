//! What can be read of a level, as numbers for a host.

ghost use Rattle.std.specs.Prelude.{◌≡◌, ◌<◌, ◌++◌, ◌<ℤ◌, pos, length, IfOk, OnOk};
ghost use Rattle.wad_dir.specs.Entries.{joined};
ghost use Rattle.map_level.specs.SectorOf.{number_named};
ghost use Rattle.map_sketch.specs.Numbers.{Sketches, ends_of, form_number, head_numbers, linedefs_numbers, links_numbers, lump_numbers};
ghost use Rattle.map_sketch.specs.Numbers.{sector_named, side_number, sidedef_named, spot_numbers, things_numbers, turn_of, vertex_named};
ghost use Rattle.map_sketch.specs.Sketch.{AreShort, IsShort};

use crate::records::{Form, Links, Spot, linedef_size, links_at, spot_at, thing_size};
use crate::sketch::{Lump, Sketch, sketch_of};
use le_rec::{Sector, SideDef, Table, Vertex};
use map_level::links::{named, names_none};
use map_level::{Reading, number};
use std::alloc::{AllocError, Allocator};
use wad_dir::Set;

// Stands for a number that isn't there.
const NOT_THERE: i32 = i32::MIN;

// The word that says that there is no side.
const NO_SIDE: i16 = -1;

// Stands for the sector of a side whose sidedef or sector isn't there.
const LOST: i32 = -1;

// An eighth of a turn, in degrees.
const EIGHTH: i16 = 45;

/// The two vertexes of a linedef.
#[derive(Clone, Copy, Debug, PartialEq, Eq)]
pub struct Ends {
    pub from: Vertex,
    pub to: Vertex,
}

/// What can be read of the level whose label is an entry, as numbers. The first is 0 for Doom's records and 1 for Hexen's. Three
/// follow of each of THINGS, LINEDEFS, SIDEDEFS, VERTEXES and SECTORS: the lump's place behind the label, how many records are whole
/// and how many bytes are left over. Of each linedef there are six: x y x y of its vertexes, and the sectors in front and at the
/// back. Of each thing there are four: x and y, by how many degrees it is turned, and its type. `i32::MIN` stands for what isn't
/// there: for all three numbers of a lump that the level hasn't, for the last two of one that isn't inside its file, for all of
/// x y x y where a vertex isn't there, and for the sector where there is no side. -1 stands for the sector of a side whose sidedef or
/// sector isn't there. Indexes are read as numbers from 0 to 65535.
pub fn sketch_numbers<A: Allocator>(
    alloc: A,
    set: &Set<'_, A>,
    g: usize,
) -> Result<Vec<i32, A>, AllocError>
    requires { g < length (joined set.now) }
    ensures { IfOk result (λ list. Sketches set.now g list.items) }
{
    let sketch = sketch_of(set, g);
    let mut list = head_numbers(alloc, &sketch)?;
    push_linedefs(&mut list, &sketch)?;
    push_things(&mut list, &sketch)?;
    Ok(list)
}

// The numbers of the form and of the lumps.
fn head_numbers<A: Allocator>(alloc: A, sketch: &Sketch<'_>) -> Result<Vec<i32, A>, AllocError>
    requires { AreShort sketch.now }
    ensures { IfOk result (λ list. list.items ≡ head_numbers sketch.now) }
{
    let mut list = Vec::from_slice(alloc, &[form_number(sketch.form)])?;
    list.extend_from_slice(&lump_numbers(&sketch.things, thing_size(sketch.form)))?;
    list.extend_from_slice(&lump_numbers(&sketch.linedefs, linedef_size(sketch.form)))?;
    list.extend_from_slice(&lump_numbers(&sketch.sidedefs, 30))?;
    list.extend_from_slice(&lump_numbers(&sketch.vertexes, 4))?;
    list.extend_from_slice(&lump_numbers(&sketch.sectors, 26))?;
    Ok(list)
}

fn form_number(form: Form) -> i32
    ensures { result ≡ form_number form }
{
    match form {
        Form::Doom => 0,
        Form::Hexen => 1,
    }
}

// The numbers of a lump with records of a size.
fn lump_numbers(lump: &Lump<'_>, size: usize) -> [i32; 3]
    requires short { IsShort lump.now }
    requires some { 0 < size }
    ensures { result ≡ lump_numbers size lump.now }
{
    match *lump {
        Lump::Lacking => [NOT_THERE, NOT_THERE, NOT_THERE],
        Lump::Outside(place) => [i32::from(place), NOT_THERE, NOT_THERE],
        Lump::Whole(place, bytes) => [
            i32::from(place),
            (bytes.len() / size) as i32,
            (bytes.len() % size) as i32,
        ],
    }
}

// Adds the numbers of all linedefs.
fn push_linedefs<A: Allocator>(
    list: &mut Vec<i32, A>,
    sketch: &Sketch<'_>,
) -> Result<(), AllocError>
    ensures { OnOk result (list.new.items ≡ list.old.items ++ linedefs_numbers sketch.now) }
{
    let bytes = sketch.linedefs.bytes();
    for i in 0..bytes.len() / linedef_size(sketch.form) {
        let links = links_at(sketch.form, bytes, i);
        list.extend_from_slice(&links_numbers(sketch, &links))?;
    }
    Ok(())
}

// The numbers of what a linedef names.
fn links_numbers(sketch: &Sketch<'_>, links: &Links) -> [i32; 6]
    ensures { result ≡ links_numbers sketch.now links.now }
{
    let front = side_number(sketch, links.side0);
    let back = side_number(sketch, links.side1);
    match ends_of(sketch, links) {
        Some(ends) => [
            i32::from(ends.from.x),
            i32::from(ends.from.y),
            i32::from(ends.to.x),
            i32::from(ends.to.y),
            front,
            back,
        ],
        None => [NOT_THERE, NOT_THERE, NOT_THERE, NOT_THERE, front, back],
    }
}

// The vertexes of a linedef, where both are there.
fn ends_of(sketch: &Sketch<'_>, links: &Links) -> Option<Ends>
    ensures { result ≡ ends_of sketch.now links.now }
{
    let from = vertex_named(sketch, links.v1)?;
    let to = vertex_named(sketch, links.v2)?;
    Some(Ends { from, to })
}

// The vertex that a word names.
fn vertex_named(sketch: &Sketch<'_>, word: i16) -> Option<Vertex>
    ensures { result ≡ vertex_named sketch.now word }
{
    let vertexes: Table<'_, Vertex> = Table::of(sketch.vertexes.bytes());
    named(&vertexes, number(word, Reading::Wide))
}

// The number of a side, by the word for its sidedef.
fn side_number(sketch: &Sketch<'_>, word: i16) -> i32
    ensures { result ≡ side_number sketch.now word }
{
    if word == NO_SIDE {
        return NOT_THERE;
    }
    match sector_named(sketch, word) {
        Some(sector) => i32::from(sector),
        None => LOST,
    }
}

// The sector of the sidedef that a word names.
fn sector_named(sketch: &Sketch<'_>, word: i16) -> Option<u16>
    ensures { result ≡ sector_named sketch.now word }
{
    let sidedef = sidedef_named(sketch, word)?;
    let sectors: Table<'_, Sector> = Table::of(sketch.sectors.bytes());
    number_named(number(sidedef.sector, Reading::Wide), sectors.len())
}

// The sidedef that a word names.
fn sidedef_named(sketch: &Sketch<'_>, word: i16) -> Option<SideDef>
    ensures { result ≡ sidedef_named sketch.now word }
{
    let sidedefs: Table<'_, SideDef> = Table::of(sketch.sidedefs.bytes());
    named(&sidedefs, number(word, Reading::Wide))
}

// The number of the record that an index names, of `count` records.
fn number_named(index: i32, count: usize) -> Option<u16>
    requires { index <ℤ pos 65536 }
    ensures { result ≡ number_named count index }
{
    if names_none(index, count) {
        return None;
    }
    Some(index as u16)
}

// Adds the numbers of all things.
fn push_things<A: Allocator>(list: &mut Vec<i32, A>, sketch: &Sketch<'_>) -> Result<(), AllocError>
    ensures { OnOk result (list.new.items ≡ list.old.items ++ things_numbers sketch.now) }
{
    let bytes = sketch.things.bytes();
    for i in 0..bytes.len() / thing_size(sketch.form) {
        let spot = spot_at(sketch.form, bytes, i);
        list.extend_from_slice(&spot_numbers(&spot))?;
    }
    Ok(())
}

// The numbers of a thing.
fn spot_numbers(spot: &Spot) -> [i32; 4]
    ensures { result ≡ spot_numbers spot.now }
{
    [
        i32::from(spot.x),
        i32::from(spot.y),
        turn_of(spot.angle),
        i32::from(spot.kind),
    ]
}

// By how many degrees the game turns a thing, from east towards north: by whole eighths.
fn turn_of(angle: i16) -> i32
    ensures { result ≡ turn_of angle }
{
    i32::from(angle / EIGHTH) * i32::from(EIGHTH)
}
