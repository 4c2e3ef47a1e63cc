//! A level: a label and the ten lumps after it.

ghost use Rattle.std.specs.Prelude.{◌≡◌, ◌+◌, ◌*◌, ◌<◌, ◌≤◌, ◌^◌, ◌↔◌, length, map, Ok, Err, IfOk, IfErr, OnOk};
ghost use Rattle.std.specs.Prelude.{Some};
ghost use Rattle.std.specs.List.{slice_get};
ghost use Rattle.wad_dir.specs.Entries.{joined};
ghost use Rattle.map_level.specs.Level.{bare_of};

use crate::reading::Reading;
use le_rec::{LineDef, Name8, Node, Record, SSector, Sector, Seg, SideDef, Table, Thing, Vertex};
use std::alloc::Allocator;
use std::marker::Model;
use thiserror::Error;
use wad_dir::Set;

/// Why there is no level of a name.
#[derive(Clone, Copy, Debug, PartialEq, Eq, Error)]
pub enum LevelFault {
    /// No entry has the name.
    #[error("no level of this name")]
    NoLabel,
    /// The list of entries ends before the lump of this number, from 1 to 10.
    #[error("the list of entries ends before lump {0} of the level")]
    Missing(u32),
    /// The lump of this number, from 1 to 10, isn't inside its file.
    #[error("lump {0} of the level is outside its file")]
    Outside(u32),
}

/// A level of several files. It keeps no records: its tables borrow the lumps' bytes, and read a
/// record from them each time it is asked for.
#[derive(Drop)]
pub struct Level<'a> {
    label: usize,
    reading: Reading,
    names: [Name8; 11],
    lumps: [&'a [u8]; 10],
}

impl<'a> Model for Level<'a> {
    ghost use Rattle.std.specs.Prelude.{◌≡◌, ◌+◌, ◌<◌, ◌^◌, map, length};
    ghost use Rattle.map_level.specs.Level as level;
    ghost use Rattle.map_level.specs.Level.{level_of, AreShort};

    ghost Value = { level.Level };

    ghost view = { λ a. level_of a.label a.reading a.names (map (λ lump. lump.now) a.lumps) };

    ghost invariant = { λ a. (a.label + 10 < 2 ^ 64) × (length a.names ≡ 11) × (length a.lumps ≡ 10)
        × AreShort (map (λ lump. lump.now) a.lumps) };
}

impl<'a> Level<'a> {
    ghost use Rattle.map_level.specs.Level as level;
    ghost use Rattle.map_level.specs.Opening.{IsLevel, IsLevelAt, RefusesLevel, RefusesLevelAt};

    /// The level whose label has the name; if several entries have it, the last. The ten lumps are
    /// those of the ten entries after it, whatever their names, and may lie in a later file
    /// (`P_SetupLevel`).
    pub fn open<A: Allocator>(
        set: &Set<'a, A>,
        name: Name8,
        reading: Reading,
    ) -> Result<Level<'a>, LevelFault>
        ensures level { IfOk result (IsLevel set.now name reading) }
        ensures refused { IfErr result (RefusesLevel set.now name) }
    {
        let Some(label) = set.find(name) else {
            return Err(LevelFault::NoLabel);
        };
        Level::at(set, label, reading)
    }

    /// The level whose label is the entry of this number, also where a later entry has the label's
    /// name. The ten lumps are those of the ten entries after it, as for `open`, and the answer is
    /// never `NoLabel`.
    pub fn at<A: Allocator>(
        set: &Set<'a, A>,
        label: usize,
        reading: Reading,
    ) -> Result<Level<'a>, LevelFault>
        requires { label < length (joined set.now) }
        ensures level { (found : level.Level)
            → (result ≡ Ok found) ↔ IsLevelAt set.now label reading found }
        ensures refused { (fault : _) → (result ≡ Err fault) ↔ RefusesLevelAt set.now label fault }
    {
        let Lumps { bytes: lumps } = lumps_after(set, label)?;
        let names = names_from(set, label);
        Ok(Level {
            label,
            reading,
            names,
            lumps,
        })
    }

    /// The reading under which the level was opened.
    pub fn reading(&self) -> Reading
        ensures { result ≡ self.now.reading }
    {
        self.reading
    }

    /// What the level has besides its nodes, where these stand in a later format: the first so many of its vertexes, and
    /// neither segs nor ssectors nor nodes. Of these four lumps nothing is left over.
    pub fn bare(&self, vertexes: usize) -> Level<'a>
        requires { vertexes ≤ length self.now.vertexes.records }
        ensures { result ≡ bare_of self.now vertexes }
    {
        let Lumps { bytes: lumps } = bare_lumps(&self.lumps, vertexes);
        Level {
            label: self.label,
            reading: self.reading,
            names: self.names,
            lumps,
        }
    }

    /// The number of the label's entry.
    pub fn label(&self) -> usize
        ensures is { result ≡ self.now.label }
        ensures fits { result + 10 < 2 ^ 64 }
    {
        self.label
    }

    /// The name of the label's entry, for 0, or of lump k, from 1 to 10.
    pub fn name(&self, k: usize) -> Name8
        requires { k ≤ 10 }
        ensures { slice_get self.now.names k ≡ Some result }
    {
        let all = &self.names;
        all[k]
    }

    /// Lump 1, the things.
    pub fn things(&self) -> Table<'a, Thing>
        ensures is { result ≡ self.now.things }
        ensures few { length result.records < 2 ^ 31 }
    {
        table_of(self.lumps[0])
    }

    /// Lump 2, the linedefs.
    pub fn linedefs(&self) -> Table<'a, LineDef>
        ensures is { result ≡ self.now.linedefs }
        ensures few { length result.records < 2 ^ 31 }
    {
        table_of(self.lumps[1])
    }

    /// Lump 3, the sidedefs.
    pub fn sidedefs(&self) -> Table<'a, SideDef>
        ensures is { result ≡ self.now.sidedefs }
        ensures few { length result.records < 2 ^ 31 }
    {
        table_of(self.lumps[2])
    }

    /// Lump 4, the vertexes.
    pub fn vertexes(&self) -> Table<'a, Vertex>
        ensures is { result ≡ self.now.vertexes }
        ensures few { length result.records < 2 ^ 31 }
    {
        table_of(self.lumps[3])
    }

    /// Lump 5, the segs.
    pub fn segs(&self) -> Table<'a, Seg>
        ensures is { result ≡ self.now.segs }
        ensures few { length result.records < 2 ^ 31 }
    {
        table_of(self.lumps[4])
    }

    /// Lump 6, the ssectors.
    pub fn ssectors(&self) -> Table<'a, SSector>
        ensures is { result ≡ self.now.ssectors }
        ensures few { length result.records < 2 ^ 31 }
    {
        table_of(self.lumps[5])
    }

    /// Lump 7, the nodes.
    pub fn nodes(&self) -> Table<'a, Node>
        ensures is { result ≡ self.now.nodes }
        ensures few { length result.records < 2 ^ 31 }
    {
        table_of(self.lumps[6])
    }

    /// Lump 8, the sectors.
    pub fn sectors(&self) -> Table<'a, Sector>
        ensures is { result ≡ self.now.sectors }
        ensures few { length result.records < 2 ^ 31 }
    {
        table_of(self.lumps[7])
    }

    /// The bytes of lump 9, the reject table.
    pub fn reject(&self) -> &'a [u8]
        ensures is { result.now ≡ self.now.reject }
        ensures few { length result.now < 2 ^ 31 }
    {
        self.lumps[8]
    }

    /// The bytes of lump 10, the blockmap.
    pub fn blockmap(&self) -> &'a [u8]
        ensures is { result.now ≡ self.now.blockmap }
        ensures few { length result.now < 2 ^ 31 }
    {
        self.lumps[9]
    }
}

// The table of a lump.
fn table_of<'a, R: Record>(lump: &'a [u8]) -> Table<'a, R>
    requires { length lump.now < 2 ^ 31 }
    ensures is { result ≡ rows_of R.SIZE (read_by R.layout) lump.now }
    ensures few { length result.records < 2 ^ 31 }
{
    Table::of(lump)
}

// Ten lumps, in a struct because a result can't hold an array of slices.
struct Lumps<'a> {
    bytes: [&'a [u8]; 10],
}

ghost use Rattle.map_level.specs.Level.{AreShort, bare_lumps_of, lump_of};
ghost use Rattle.le_rec.specs.Layout.{read_by};
ghost use Rattle.le_rec.specs.Table.{rows_of};
ghost use Rattle.map_level.specs.Opening.{AreLumps, AreNames, RefusesLevelAt};

// The bytes of a record of `VERTEXES`.
const VERTEX_SIZE: usize = 4;

// Ten lumps without segs, ssectors and nodes, and with so many vertexes, which are there.
fn bare_lumps<'a>(lumps: &[&'a [u8]; 10], vertexes: usize) -> Lumps<'a>
    requires ten { length lumps.now ≡ 10 }
    requires short { AreShort (map (λ lump. lump.now) lumps.now) }
    requires there { 4 * vertexes ≤ length (lump_of (map (λ lump. lump.now) lumps.now) 4) }
    ensures bytes { map (λ lump. lump.now) result.bytes ≡ bare_lumps_of (map (λ lump. lump.now) lumps.now) vertexes }
    ensures ten { length result.bytes ≡ 10 }
{
    let kept = lumps[3];
    Lumps {
        bytes: [
            lumps[0],
            lumps[1],
            lumps[2],
            &kept[..VERTEX_SIZE * vertexes],
            &[],
            &[],
            &[],
            lumps[7],
            lumps[8],
            lumps[9],
        ],
    }
}

// The lumps of the ten entries after a label, or the first that isn't there.
fn lumps_after<'a, A: Allocator>(set: &Set<'a, A>, label: usize) -> Result<Lumps<'a>, LevelFault>
    requires { label < length (joined set.now) }
    ensures ok { IfOk result (λ lumps.
        AreLumps set.now label (map (λ lump. lump.now) lumps.bytes)) }
    ensures err { IfErr result (RefusesLevelAt set.now label) }
    ensures short { IfOk result (λ lumps. AreShort (map (λ lump. lump.now) lumps.bytes)) }
    ensures listed { OnOk result (label + 10 < length (joined set.now)) }
    ensures fits { OnOk result (label + 10 < 2 ^ 64) }
{
    let mut bytes: [&'a [u8]; 10] = [&[]; 10];
    let after = set.total() - label;
    for i in 0..10 {
        let k = i + 1;
        if k >= after {
            return Err(LevelFault::Missing(k as u32));
        }
        let Ok(lump) = set.lump(label + k) else {
            return Err(LevelFault::Outside(k as u32));
        };
        bytes[i] = lump;
    }
    Ok(Lumps { bytes })
}

// The names of a label and of the ten entries after it.
fn names_from<A: Allocator>(set: &Set<'_, A>, label: usize) -> [Name8; 11]
    requires listed { label + 10 < length (joined set.now) }
    requires fits { label + 10 < 2 ^ 64 }
    ensures { AreNames set.now label result }
{
    let none = Name8::query(&[]);
    let mut names = [none; 11];
    for k in 0..11 {
        names[k] = set.name(label + k).unwrap_or(none);
    }
    names
}
