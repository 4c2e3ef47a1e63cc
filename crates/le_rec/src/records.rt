//! The records of a WAD file's directory and of a level's lumps (Unofficial Doom Specs 1.666).

ghost use Rattle.std.proofs.Common.{lit<, refl};

use crate::number::{
    box_numbers_at, i16_at, i32_at, name_bytes_at, put_box, put_i16, put_i32, put_name, put_u16,
    u16_at,
};
use crate::record::Record;

/// An entry of a WAD file's directory (`filelump_t` of w_wad.h): the place of a lump in the file
/// and its size, both in bytes, and its name. NULs follow a name of fewer than eight bytes.
#[derive(Clone, Copy, Debug, PartialEq, Eq)]
pub struct Entry {
    pub filepos: i32,
    pub size: i32,
    pub name: [u8; 8],
}

impl Record for Entry {
    ghost use Rattle.le_rec.specs.Record.{entry_layout};

    ghost SIZE = { 16 };

    ghost layout = { entry_layout };

    const SIZE: usize = 16;

    #[inline]
    fn read(bytes: &[u8]) -> Entry {
        Entry {
            filepos: i32_at(bytes, 0),
            size: i32_at(bytes, 4),
            name: name_bytes_at(bytes, 8),
        }
    }

    fn write(&self, bytes: &mut [u8]) {
        put_i32(bytes, 0, self.filepos);
        put_i32(bytes, 4, self.size);
        put_name(bytes, 8, &self.name);
    }

    ghost size_above_zero = { lit< tt };

    ghost sized = { refl };
}

/// A thing (`mapthing_t` of doomdata.h): its place in map units, its angle in degrees, its type and
/// its options.
#[derive(Clone, Copy, Debug, PartialEq, Eq)]
pub struct Thing {
    pub x: i16,
    pub y: i16,
    pub angle: i16,
    pub kind: i16,
    pub options: i16,
}

impl Record for Thing {
    ghost use Rattle.le_rec.specs.Record.{thing_layout};

    ghost SIZE = { 10 };

    ghost layout = { thing_layout };

    const SIZE: usize = 10;

    #[inline]
    fn read(bytes: &[u8]) -> Thing {
        Thing {
            x: i16_at(bytes, 0),
            y: i16_at(bytes, 2),
            angle: i16_at(bytes, 4),
            kind: i16_at(bytes, 6),
            options: i16_at(bytes, 8),
        }
    }

    fn write(&self, bytes: &mut [u8]) {
        put_i16(bytes, 0, self.x);
        put_i16(bytes, 2, self.y);
        put_i16(bytes, 4, self.angle);
        put_i16(bytes, 6, self.kind);
        put_i16(bytes, 8, self.options);
    }

    ghost size_above_zero = { lit< tt };

    ghost sized = { refl };
}

/// A linedef (`maplinedef_t` of doomdata.h): its two vertexes, flags, special, tag, and its two
/// sidedefs, -1 where there is none.
#[derive(Clone, Copy, Debug, PartialEq, Eq)]
pub struct LineDef {
    pub v1: i16,
    pub v2: i16,
    pub flags: i16,
    pub special: i16,
    pub tag: i16,
    pub side0: i16,
    pub side1: i16,
}

impl Record for LineDef {
    ghost use Rattle.le_rec.specs.Record.{linedef_layout};

    ghost SIZE = { 14 };

    ghost layout = { linedef_layout };

    const SIZE: usize = 14;

    #[inline]
    fn read(bytes: &[u8]) -> LineDef {
        LineDef {
            v1: i16_at(bytes, 0),
            v2: i16_at(bytes, 2),
            flags: i16_at(bytes, 4),
            special: i16_at(bytes, 6),
            tag: i16_at(bytes, 8),
            side0: i16_at(bytes, 10),
            side1: i16_at(bytes, 12),
        }
    }

    fn write(&self, bytes: &mut [u8]) {
        put_i16(bytes, 0, self.v1);
        put_i16(bytes, 2, self.v2);
        put_i16(bytes, 4, self.flags);
        put_i16(bytes, 6, self.special);
        put_i16(bytes, 8, self.tag);
        put_i16(bytes, 10, self.side0);
        put_i16(bytes, 12, self.side1);
    }

    ghost size_above_zero = { lit< tt };

    ghost sized = { refl };
}

/// A sidedef (`mapsidedef_t` of doomdata.h): the offsets of its textures in map units, their names,
/// and the sector that it faces.
#[derive(Clone, Copy, Debug, PartialEq, Eq)]
pub struct SideDef {
    pub xoff: i16,
    pub yoff: i16,
    pub top: [u8; 8],
    pub bottom: [u8; 8],
    pub middle: [u8; 8],
    pub sector: i16,
}

impl Record for SideDef {
    ghost use Rattle.le_rec.specs.Record.{sidedef_layout};

    ghost SIZE = { 30 };

    ghost layout = { sidedef_layout };

    const SIZE: usize = 30;

    #[inline]
    fn read(bytes: &[u8]) -> SideDef {
        SideDef {
            xoff: i16_at(bytes, 0),
            yoff: i16_at(bytes, 2),
            top: name_bytes_at(bytes, 4),
            bottom: name_bytes_at(bytes, 12),
            middle: name_bytes_at(bytes, 20),
            sector: i16_at(bytes, 28),
        }
    }

    fn write(&self, bytes: &mut [u8]) {
        put_i16(bytes, 0, self.xoff);
        put_i16(bytes, 2, self.yoff);
        put_name(bytes, 4, &self.top);
        put_name(bytes, 12, &self.bottom);
        put_name(bytes, 20, &self.middle);
        put_i16(bytes, 28, self.sector);
    }

    ghost size_above_zero = { lit< tt };

    ghost sized = { refl };
}

/// A vertex (`mapvertex_t` of doomdata.h): its place in map units.
#[derive(Clone, Copy, Debug, PartialEq, Eq)]
pub struct Vertex {
    pub x: i16,
    pub y: i16,
}

impl Record for Vertex {
    ghost use Rattle.le_rec.specs.Record.{vertex_layout};

    ghost SIZE = { 4 };

    ghost layout = { vertex_layout };

    const SIZE: usize = 4;

    #[inline]
    fn read(bytes: &[u8]) -> Vertex {
        let (x, y) = (i16_at(bytes, 0), i16_at(bytes, 2));
        Vertex { x, y }
    }

    fn write(&self, bytes: &mut [u8]) {
        put_i16(bytes, 0, self.x);
        put_i16(bytes, 2, self.y);
    }

    ghost size_above_zero = { lit< tt };

    ghost sized = { refl };
}

/// A seg (`mapseg_t` of doomdata.h): its two vertexes, its angle in binary degrees (65,536 to the
/// circle), its linedef, the side of that (0 or 1), and the distance along it in map units.
#[derive(Clone, Copy, Debug, PartialEq, Eq)]
pub struct Seg {
    pub v1: i16,
    pub v2: i16,
    pub angle: i16,
    pub linedef: i16,
    pub side: i16,
    pub offset: i16,
}

impl Record for Seg {
    ghost use Rattle.le_rec.specs.Record.{seg_layout};

    ghost SIZE = { 12 };

    ghost layout = { seg_layout };

    const SIZE: usize = 12;

    #[inline]
    fn read(bytes: &[u8]) -> Seg {
        Seg {
            v1: i16_at(bytes, 0),
            v2: i16_at(bytes, 2),
            angle: i16_at(bytes, 4),
            linedef: i16_at(bytes, 6),
            side: i16_at(bytes, 8),
            offset: i16_at(bytes, 10),
        }
    }

    fn write(&self, bytes: &mut [u8]) {
        put_i16(bytes, 0, self.v1);
        put_i16(bytes, 2, self.v2);
        put_i16(bytes, 4, self.angle);
        put_i16(bytes, 6, self.linedef);
        put_i16(bytes, 8, self.side);
        put_i16(bytes, 10, self.offset);
    }

    ghost size_above_zero = { lit< tt };

    ghost sized = { refl };
}

/// An ssector (`mapsubsector_t` of doomdata.h): how many segs it has, and the first of them.
#[derive(Clone, Copy, Debug, PartialEq, Eq)]
pub struct SSector {
    pub count: i16,
    pub first: i16,
}

impl Record for SSector {
    ghost use Rattle.le_rec.specs.Record.{ssector_layout};

    ghost SIZE = { 4 };

    ghost layout = { ssector_layout };

    const SIZE: usize = 4;

    #[inline]
    fn read(bytes: &[u8]) -> SSector {
        SSector {
            count: i16_at(bytes, 0),
            first: i16_at(bytes, 2),
        }
    }

    fn write(&self, bytes: &mut [u8]) {
        put_i16(bytes, 0, self.count);
        put_i16(bytes, 2, self.first);
    }

    ghost size_above_zero = { lit< tt };

    ghost sized = { refl };
}

/// A node (`mapnode_t` of doomdata.h): its partition from (x, y) along (dx, dy) in map units, the
/// bounding boxes of its two sides (top, bottom, left, right), and its children, 0 in front and 1
/// behind. A child with bit 15 set names an ssector by its other bits.
#[derive(Clone, Copy, Debug, PartialEq, Eq)]
pub struct Node {
    pub x: i16,
    pub y: i16,
    pub dx: i16,
    pub dy: i16,
    pub box0: [i16; 4],
    pub box1: [i16; 4],
    pub child0: u16,
    pub child1: u16,
}

impl Record for Node {
    ghost use Rattle.le_rec.specs.Record.{node_layout};

    ghost SIZE = { 28 };

    ghost layout = { node_layout };

    const SIZE: usize = 28;

    #[inline]
    fn read(bytes: &[u8]) -> Node {
        Node {
            x: i16_at(bytes, 0),
            y: i16_at(bytes, 2),
            dx: i16_at(bytes, 4),
            dy: i16_at(bytes, 6),
            box0: box_numbers_at(bytes, 8),
            box1: box_numbers_at(bytes, 16),
            child0: u16_at(bytes, 24),
            child1: u16_at(bytes, 26),
        }
    }

    fn write(&self, bytes: &mut [u8]) {
        put_i16(bytes, 0, self.x);
        put_i16(bytes, 2, self.y);
        put_i16(bytes, 4, self.dx);
        put_i16(bytes, 6, self.dy);
        put_box(bytes, 8, &self.box0);
        put_box(bytes, 16, &self.box1);
        put_u16(bytes, 24, self.child0);
        put_u16(bytes, 26, self.child1);
    }

    ghost size_above_zero = { lit< tt };

    ghost sized = { refl };
}

/// A sector (`mapsector_t` of doomdata.h): the heights of its floor and ceiling in map units, the
/// names of their flats, its light level, special and tag.
#[derive(Clone, Copy, Debug, PartialEq, Eq)]
pub struct Sector {
    pub floor: i16,
    pub ceiling: i16,
    pub floor_name: [u8; 8],
    pub ceiling_name: [u8; 8],
    pub light: i16,
    pub special: i16,
    pub tag: i16,
}

impl Record for Sector {
    ghost use Rattle.le_rec.specs.Record.{sector_layout};

    ghost SIZE = { 26 };

    ghost layout = { sector_layout };

    const SIZE: usize = 26;

    #[inline]
    fn read(bytes: &[u8]) -> Sector {
        Sector {
            floor: i16_at(bytes, 0),
            ceiling: i16_at(bytes, 2),
            floor_name: name_bytes_at(bytes, 4),
            ceiling_name: name_bytes_at(bytes, 12),
            light: i16_at(bytes, 20),
            special: i16_at(bytes, 22),
            tag: i16_at(bytes, 24),
        }
    }

    fn write(&self, bytes: &mut [u8]) {
        put_i16(bytes, 0, self.floor);
        put_i16(bytes, 2, self.ceiling);
        put_name(bytes, 4, &self.floor_name);
        put_name(bytes, 12, &self.ceiling_name);
        put_i16(bytes, 20, self.light);
        put_i16(bytes, 22, self.special);
        put_i16(bytes, 24, self.tag);
    }

    ghost size_above_zero = { lit< tt };

    ghost sized = { refl };
}

/// A word: a signed number of two bytes. A BLOCKMAP lump is a table of them (`P_LoadBlockMap` of
/// p_setup.c).
#[derive(Clone, Copy, Debug, PartialEq, Eq)]
pub struct Word {
    pub number: i16,
}

impl Record for Word {
    ghost use Rattle.le_rec.specs.Record.{word_layout};

    ghost SIZE = { 2 };

    ghost layout = { word_layout };

    const SIZE: usize = 2;

    #[inline]
    fn read(bytes: &[u8]) -> Word {
        Word {
            number: i16_at(bytes, 0),
        }
    }

    fn write(&self, bytes: &mut [u8]) {
        put_i16(bytes, 0, self.number);
    }

    ghost size_above_zero = { lit< tt };

    ghost sized = { refl };
}
