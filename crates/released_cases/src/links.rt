//! Links: of levels in which some aren't there.

use crate::fault::Fault;
use crate::levels::is_two_sided;
use crate::lumps::{file_of, first_level};
use crate::random::Random;
use crate::tables::Tables;
use le_rec::Seg;
use map_level::links::{linedef_of, sidedef_named};
use map_level::{Code, Finding, Level, link_findings};
use released::released_back;
use std::alloc::{AllocError, Global};
use wad_dir::Set;

/// The letters of eight levels.
pub fn add_links(line: &mut String, alloc: Global, random: &mut Random) -> Result<(), Fault> {
    line.push_str("links")?;
    for _level in 0..8 {
        let mut tables = Tables::new(alloc, random, false)?;
        tables.damage(random);
        tables.damage(random);
        line.push(' ')?;
        line.push(letter_of(alloc, &tables)?)?;
    }
    Ok(())
}

// F: one of F3 to F10 holds. N: none of them, and -1 is followed behind a seg, with N3 or N4. L: no index that isn't inside is
// followed. X: one is all the same.
fn letter_of(alloc: Global, tables: &Tables) -> Result<char, Fault> {
    let file = file_of(alloc, tables)?;
    let set = Set::one(alloc, &file)?;
    let level = first_level(&set)?;
    Ok(letter_of_level(alloc, &level)?)
}

fn letter_of_level(alloc: Global, level: &Level<'_>) -> Result<char, AllocError> {
    let found = link_findings(alloc, level)?;
    if !level.is_linked(&found) {
        return Ok('F');
    }
    let segs = level.segs();
    let mut letter = 'L';
    for i in 0..segs.len() {
        match letter_behind(level, found.as_slice(), &segs.at(i)) {
            'L' => {}
            'N' => letter = 'N',
            _ => return Ok('X'),
        }
    }
    Ok(letter)
}

// The letter of what is followed behind a seg.
fn letter_behind(level: &Level<'_>, found: &[Finding], seg: &Seg) -> char {
    let Some(linedef) = linedef_of(level, seg) else {
        return 'X';
    };
    if !is_two_sided(&linedef) {
        return 'L';
    }
    match released_back(&linedef, seg) {
        Some(-1) if is_noted(found, seg.linedef) => 'N',
        Some(back) if sidedef_named(level, i32::from(back)).is_some() => 'L',
        _ => 'X',
    }
}

// Whether N3 or N4 holds of a linedef.
fn is_noted(found: &[Finding], linedef: i16) -> bool {
    for finding in found {
        let noted = finding.code == Code::N3 || finding.code == Code::N4;
        if noted && i64::from(finding.index) == i64::from(linedef) {
            return true;
        }
    }
    false
}
