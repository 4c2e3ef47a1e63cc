//! A file of levels in which things, tags and textures are changed: its levels stay as sound as they were.

use crate::random::Random;
use le_rec::Name8;
use std::alloc::{AllocError, Global};
use wad_dir::Set;

/// The file with its things moved a little, some linedefs' tags raised and some sidedefs' upper textures taken away.
pub fn varied(
    alloc: Global,
    bytes: &[u8],
    set: &Set<'_>,
    random: &mut Random,
) -> Result<Vec<u8>, AllocError> {
    let mut changed = Vec::with_capacity(alloc, bytes.len())?;
    changed.extend_from_slice(bytes)?;
    for g in 0..set.total() {
        change_entry(set, g, &mut changed, random);
    }
    Ok(changed)
}

// Changes the lump of an entry by its name.
fn change_entry(set: &Set<'_>, g: usize, changed: &mut [u8], random: &mut Random) {
    let (Some(name), Some(place), Ok(lump)) = (set.name(g), set.place(g), set.lump(g)) else {
        return;
    };
    let from = changed.len().min(place.filepos.max(0) as usize);
    let (_front, rest) = changed.split_at_mut(from);
    let (lump, _behind) = rest.split_at_mut(rest.len().min(lump.len()));
    if name == Name8::stored(*b"THINGS\0\0") {
        move_things(lump, random);
    } else if name == Name8::stored(*b"LINEDEFS") {
        raise_tags(lump, random);
    } else if name == Name8::stored(*b"SIDEDEFS") {
        take_textures(lump, random);
    }
}

// Moves each thing by less than 64 units in each direction.
fn move_things(lump: &mut [u8], random: &mut Random) {
    let (things, _rest) = lump.as_chunks_mut::<10>();
    for thing in things {
        let [x0, x1, y0, y1, ..] = *thing;
        let dx = random.below(64) as i16;
        let dy = random.below(64) as i16;
        let [x0, x1] = i16::from_le_bytes([x0, x1]).wrapping_add(dx).to_le_bytes();
        let [y0, y1] = i16::from_le_bytes([y0, y1]).wrapping_add(dy).to_le_bytes();
        thing[0] = x0;
        thing[1] = x1;
        thing[2] = y0;
        thing[3] = y1;
    }
}

// Raises the tag of one linedef in 64.
fn raise_tags(lump: &mut [u8], random: &mut Random) {
    let (linedefs, _rest) = lump.as_chunks_mut::<14>();
    for linedef in linedefs {
        if random.below(64) == 0 {
            linedef[8] = linedef[8].wrapping_add(1);
        }
    }
}

// Takes the upper texture of one sidedef in 64 away.
fn take_textures(lump: &mut [u8], random: &mut Random) {
    let (sidedefs, _rest) = lump.as_chunks_mut::<30>();
    for sidedef in sidedefs {
        if random.below(64) == 0 {
            sidedef[4] = b'-';
            sidedef[5] = 0;
        }
    }
}
