//! Which linedef each sidedef belongs to.

ghost use Rattle.std.specs.Prelude.{◌≡◌, ◌≢◌, ℕ, false, length, pos, slice_index_or, IfNone, IfOk, IfSome, None, OnSome};
ghost use Rattle.map_level.specs.Links.{no_side};
ghost use Rattle.lens_texts.specs.Owners.{AreOwners, PutsOwner};
ghost use Rattle.lens_texts.specs.Place.{index_of, names_sidedef};

use crate::records::index_of;
use map_level::Level;
use map_level::links::no_side;
use std::alloc::{AllocError, Allocator};

/// For each sidedef, the first linedef that names it. This goes over the linedefs once.
pub fn owners_of<A: Allocator>(
    alloc: A,
    level: &Level<'_>,
) -> Result<Vec<Option<u32>, A>, AllocError>
    ensures { IfOk result (λ owners. AreOwners level.now owners.items) }
{
    let mut owners = Vec::from_elem(alloc, None, level.sidedefs().len())?;
    put_owners(level, &mut owners);
    Ok(owners)
}

// Puts the linedefs' numbers from the last one to the first. So the first linedef of a sidedef
// remains.
fn put_owners(level: &Level<'_>, owners: &mut [Option<u32>])
    requires long { length owners.old ≡ length level.now.sidedefs.records }
    requires none { (i : ℕ) → slice_index_or owners.old i None ≡ None }
    ensures owners { AreOwners level.now owners.new }
    ensures long { length owners.new ≡ length owners.old }
{
    let linedefs = level.linedefs();
    'linedefs: for l in (0..linedefs.len()).rev() {
        let linedef = linedefs.at(l);
        put_owner(level, owners, linedef.side0, l as u32);
        put_owner(level, owners, linedef.side1, l as u32);
    }
}

// Puts a linedef's number at the sidedef that a word of it names.
fn put_owner(level: &Level<'_>, owners: &mut [Option<u32>], word: i16, linedef: u32)
    requires { length owners.old ≡ length level.now.sidedefs.records }
    ensures put { PutsOwner level.now word linedef owners.old owners.new }
    ensures long { length owners.new ≡ length owners.old }
{
    let Some(sidedef) = sidedef_number(level, word) else {
        return;
    };
    if sidedef < owners.len() {
        owners[sidedef] = Some(linedef);
    }
}

// The number of the sidedef that a linedef's word for a side names, there or not.
fn sidedef_number(level: &Level<'_>, word: i16) -> Option<usize>
    ensures some { IfSome result (λ n. index_of level.now word ≡ pos n) }
    ensures named { OnSome result (index_of level.now word ≢ no_side level.now.reading) }
    ensures none { IfNone result ((i : ℕ) → names_sidedef level.now i word ≡ false) }
{
    let index = index_of(level, word);
    if index < 0 || index == no_side(level.reading()) {
        return None;
    }
    Some(index as usize)
}
