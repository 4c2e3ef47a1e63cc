//! Which lumps a level has, where not all are there or in another order.

ghost use Rattle.std.specs.Prelude.{◌≡◌, ℕ, ◌+◌, ◌<◌, ◌≤◌, ◌^◌, ◌↔◌, length, IfNone, IfSome, IsTrue};
ghost use Rattle.wad_dir.specs.Entries.{joined, names};
ghost use Rattle.map_sketch.specs.Own.{HasNone, IsOwn, IsOwnPlace, IsUsual};

use le_rec::Name8;
use level_starts::is_named;
use map_level::usual_name;
use std::alloc::Allocator;
use wad_dir::Set;

/// The place behind its label, from 1 to 11, of a level's lump of a name: the first of that name. Only entries with names of a
/// level's lumps stand before it. So a lump of the next level isn't taken for one of this.
pub fn own_place<A: Allocator>(set: &Set<'_, A>, g: usize, name: Name8) -> Option<u8>
    requires { g < length (joined set.now) }
    ensures some { IfSome result (IsOwnPlace (names set.now) g name) }
    ensures listed { IfSome result (λ k. g + k < length (joined set.now)) }
    ensures fits { IfSome result (λ k. g + k < 2 ^ 64) }
    ensures none { IfNone result (HasNone (names set.now) g name) }
{
    let after = set.total() - g;
    for k in 1..12 {
        if k >= after {
            return None;
        }
        if is_named(set, g + k, name) {
            return Some(k as u8);
        }
        if !is_own(set, g + k) {
            return None;
        }
    }
    None
}

// Whether an entry is named as a lump of a level.
fn is_own<A: Allocator>(set: &Set<'_, A>, g: usize) -> bool
    ensures { IsTrue result ↔ IsOwn (names set.now) g }
{
    is_usual(set, g) || is_named(set, g, Name8::query(b"BEHAVIOR"))
}

// Whether an entry has one of the ten usual names.
fn is_usual<A: Allocator>(set: &Set<'_, A>, g: usize) -> bool
    ensures { IsTrue result ↔ IsUsual (names set.now) g }
{
    for place in 1..11 {
        if is_named(set, g, usual_name(place)) {
            return true;
        }
    }
    false
}
