//! The ends of a set's flats.

ghost use Rattle.std.specs.Prelude.{◌≡◌};
ghost use Rattle.game_warnings.specs.Graphics.{AreFlatEnds};

use le_rec::Name8;
use std::alloc::Allocator;
use wad_dir::Set;

/// The entries that win the names of both ends of the flats.
#[derive(Clone, Copy)]
pub struct FlatEnds {
    pub start: usize,
    pub end: usize,
}

/// The ends of the flats of a set, where both are there.
pub fn flat_ends<A: Allocator>(set: &Set<'_, A>) -> Option<FlatEnds>
    ensures { AreFlatEnds set.now result }
{
    let start = set.find(Name8::query(b"F_START"))?;
    let end = set.find(Name8::query(b"F_END"))?;
    Some(FlatEnds { start, end })
}
