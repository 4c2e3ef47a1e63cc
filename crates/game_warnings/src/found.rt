//! The lump that the game finds under a name.

ghost use Rattle.std.specs.Prelude.{◌≡◌, ◌<◌, ◌^◌, ℕ, List, length, IfNone, IfSome};
ghost use Rattle.le_rec.specs.Name.{query_of};
ghost use Rattle.game_warnings.specs.Found.{IsFound, IsFoundOrEmpty};

use le_rec::Name8;
use std::alloc::Allocator;
use wad_dir::Set;

/// The lump that the game finds under a name, if it is inside its file.
pub fn found<'a, A: Allocator>(set: &Set<'a, A>, name: &[u8]) -> Option<&'a [u8]>
    ensures some { IfSome result (λ lump. IsFound set.now (query_of name.now) lump.now) }
    ensures short { IfSome result (λ lump. length lump.now < 2 ^ 31) }
    ensures none { IfNone result ((lump : List ℕ) → ¬ IsFound set.now (query_of name.now) lump) }
{
    let g = set.find(Name8::query(name))?;
    match set.lump(g) {
        Ok(lump) => Some(lump),
        Err(_) => None,
    }
}

/// The same, or no bytes where no lump is found.
pub fn found_or_empty<'a, A: Allocator>(set: &Set<'a, A>, name: &[u8]) -> &'a [u8]
    ensures is { IsFoundOrEmpty set.now (query_of name.now) result.now }
    ensures short { length result.now < 2 ^ 31 }
{
    match found(set, name) {
        Some(lump) => lump,
        None => &[],
    }
}
