//! The sample level, and files made of it, for tests alone.
#![tactic(auto)]

mod line_levels;

use le_rec::Name8;
pub use line_levels::{Ends, lines_round, packed_with_lines};
use std::alloc::Global;
use wad_dir::{PackFault, Packer};

/// A lump under its name.
pub type Lump<'a> = (&'a [u8], &'a [u8]);

/// The sample level's sidedefs.
pub const SIDEDEFS: [u8; 60] = [
    0, 0, 0, 0, 45, 0, 0, 0, 0, 0, 0, 0, 45, 0, 0, 0, 0, 0, 0, 0, 45, 0, 0, 0, 0, 0, 0, 0, 0, 0, 0,
    0, 0, 0, 45, 0, 0, 0, 0, 0, 0, 0, 45, 0, 0, 0, 0, 0, 0, 0, 45, 0, 0, 0, 0, 0, 0, 0, 1, 0,
];

/// Its segs.
pub const SEGS: [u8; 24] = [
    0, 0, 1, 0, 0, 64, 0, 0, 0, 0, 0, 0, 1, 0, 0, 0, 0, 192, 0, 0, 1, 0, 0, 0,
];

/// Its node.
pub const NODES: [u8; 28] = [
    0, 0, 0, 0, 0, 0, 64, 0, 64, 0, 0, 0, 0, 0, 0, 0, 64, 0, 0, 0, 0, 0, 0, 0, 0, 128, 1, 128,
];

/// Its sectors.
pub const SECTORS: [u8; 52] = [
    0, 0, 128, 0, 70, 76, 65, 84, 49, 0, 0, 0, 70, 76, 65, 84, 49, 0, 0, 0, 160, 0, 0, 0, 0, 0, 0,
    0, 128, 0, 70, 76, 65, 84, 49, 0, 0, 0, 70, 76, 65, 84, 49, 0, 0, 0, 160, 0, 0, 0, 0, 0,
];

/// The sample level's label and its ten lumps.
pub fn lumps() -> [Lump<'static>; 11] {
    [
        (b"E1M1", &[]),
        (b"THINGS", &[8, 0, 8, 0, 0, 0, 1, 0, 7, 0]),
        (b"LINEDEFS", &[0, 0, 1, 0, 4, 0, 0, 0, 0, 0, 0, 0, 1, 0]),
        (b"SIDEDEFS", &SIDEDEFS),
        (b"VERTEXES", &[0, 0, 0, 0, 0, 0, 64, 0]),
        (b"SEGS", &SEGS),
        (b"SSECTORS", &[1, 0, 0, 0, 1, 0, 1, 0]),
        (b"NODES", &NODES),
        (b"SECTORS", &SECTORS),
        (b"REJECT", &[0]),
        (
            b"BLOCKMAP",
            &[248, 255, 248, 255, 1, 0, 1, 0, 5, 0, 0, 0, 0, 0, 255, 255],
        ),
    ]
}

/// The lumps of three lists, packed.
pub fn packed(
    alloc: Global,
    first: &[Lump<'_>],
    second: &[Lump<'_>],
    third: &[Lump<'_>],
) -> Result<Vec<u8>, PackFault> {
    let mut packer = Packer::new(alloc);
    add_all(&mut packer, first)?;
    add_all(&mut packer, second)?;
    add_all(&mut packer, third)?;
    packer.pack(alloc)
}

fn add_all<'a>(packer: &mut Packer<'a, Global>, lumps: &[Lump<'a>]) -> Result<(), PackFault> {
    for (name, bytes) in lumps {
        packer.add(Name8::stored(name_field(name)), bytes)?;
    }
    Ok(())
}

// At most eight bytes as a name field.
fn name_field(name: &[u8]) -> [u8; 8] {
    let mut field = [0; 8];
    for (to, from) in field.iter_mut().zip(name) {
        *to = *from;
    }
    field
}

/// The sample level's file with other bytes in lumps, by their numbers from 1 to 10.
pub fn packed_with(alloc: Global, changes: &[(usize, &[u8])]) -> Result<Vec<u8>, PackFault> {
    let mut packer = Packer::new(alloc);
    for (k, (name, bytes)) in lumps().iter().enumerate() {
        packer.add(Name8::stored(name_field(name)), changed(changes, k, bytes))?;
    }
    packer.pack(alloc)
}

fn changed<'a>(changes: &[(usize, &'a [u8])], k: usize, bytes: &'a [u8]) -> &'a [u8] {
    for (at, other) in changes {
        if *at == k {
            return other;
        }
    }
    bytes
}

/// The sample level's linedef with two sides by its flags and one by its fields.
pub const LINE_WITHOUT_SIDE_1: [u8; 14] = [0, 0, 1, 0, 4, 0, 0, 0, 0, 0, 0, 0, 255, 255];

/// Two nodes and two ssectors that the root doesn't lead to: these bytes in the place of the sample level's ssectors and nodes.
pub const NOT_REACHED: [(usize, &[u8]); 2] = [(6, &FOUR_SSECTORS), (7, &THREE_NODES)];

const FOUR_SSECTORS: [u8; 16] = [1, 0, 0, 0, 1, 0, 0, 0, 1, 0, 0, 0, 1, 0, 0, 0];

// The sample level's node three times, with other children but for the last.
const THREE_NODES: [u8; 84] = [
    0, 0, 0, 0, 0, 0, 64, 0, 64, 0, 0, 0, 0, 0, 0, 0, 64, 0, 0, 0, 0, 0, 0, 0, 1, 0, 2, 128, 0, 0,
    0, 0, 0, 0, 64, 0, 64, 0, 0, 0, 0, 0, 0, 0, 64, 0, 0, 0, 0, 0, 0, 0, 0, 0, 3, 128, 0, 0, 0, 0,
    0, 0, 64, 0, 64, 0, 0, 0, 0, 0, 0, 0, 64, 0, 0, 0, 0, 0, 0, 0, 0, 128, 1, 128,
];

/// A level of the format UDMF.
pub const UDMF: [Lump<'static>; 3] = [(b"MAP01", &[]), (b"TEXTMAP", b"x"), (b"ENDMAP", &[])];
