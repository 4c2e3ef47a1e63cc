//! The file of a level's tables.

ghost use Rattle.std.specs.Prelude.{◌≤◌};

use crate::fault::Fault;
use crate::tables::Tables;
use le_rec::{Name8, Record};
use map_level::{Level, Reading};
use std::alloc::{AllocError, Global};
use wad_dir::{Packer, Set};

// A dozen vertexes at (0, 0), and a dozen sectors.
const VERTEXES: [u8; 48] = [0; 48];

const SECTORS: [u8; 312] = [0; 312];

/// A file of a level of these tables.
pub fn file_of(alloc: Global, tables: &Tables) -> Result<Vec<u8>, Fault> {
    let linedefs = lump_of(alloc, &tables.linedefs)?;
    let sidedefs = lump_of(alloc, &tables.sidedefs)?;
    let segs = lump_of(alloc, &tables.segs)?;
    let ssectors = lump_of(alloc, &tables.ssectors)?;
    let nodes = lump_of(alloc, &tables.nodes)?;
    let mut packer = Packer::new(alloc);
    packer.add(Name8::query(b"MAP01"), &[])?;
    packer.add(Name8::query(b"THINGS"), &[])?;
    packer.add(Name8::query(b"LINEDEFS"), &linedefs)?;
    packer.add(Name8::query(b"SIDEDEFS"), &sidedefs)?;
    packer.add(Name8::query(b"VERTEXES"), &VERTEXES)?;
    packer.add(Name8::query(b"SEGS"), &segs)?;
    packer.add(Name8::query(b"SSECTORS"), &ssectors)?;
    packer.add(Name8::query(b"NODES"), &nodes)?;
    packer.add(Name8::query(b"SECTORS"), &SECTORS)?;
    packer.add(Name8::query(b"REJECT"), &[])?;
    packer.add(Name8::query(b"BLOCKMAP"), &[])?;
    Ok(packer.pack(alloc)?)
}

// The bytes of records.
fn lump_of<R: Record>(alloc: Global, records: &[R]) -> Result<Vec<u8>, AllocError>
    requires { R.SIZE ≤ 30 }
{
    let mut lump = Vec::new(alloc);
    for record in records {
        let mut bytes = [0; 30];
        record.write(&mut bytes[..R::SIZE]);
        lump.extend_from_slice(&bytes[..R::SIZE])?;
    }
    Ok(lump)
}

/// The level at the first entry, as the game reads it.
pub fn first_level<'a>(set: &Set<'a>) -> Result<Level<'a>, Fault> {
    if set.total() == 0 {
        return Err(Fault::Level);
    }
    Ok(Level::at(set, 0, Reading::Signed)?)
}
