//! Where levels start.

ghost use Rattle.std.specs.Prelude.{◌≡◌, ◌+◌, ◌-◌, ◌<◌, ◌^◌, ◌↔◌, IfSome, IfNone, IsTrue, length};
ghost use Rattle.std.specs.Iterator.{at_most};
ghost use Rattle.std.specs.List.{slice_get};
ghost use Rattle.wad_dir.specs.Entries.{names};
ghost use Rattle.level_starts.specs.Starts.{GivesNextStart, IsNamed, LevelStartsAt, IsNextStart, NoneStartsFrom};

use le_rec::Name8;
use std::alloc::Allocator;
use std::marker::Model;
use wad_dir::Set;

/// The entries at which the levels of a set start, in their order, each once. A `for` over them goes
/// over the set's entries once, and takes no memory.
#[derive(Drop)]
pub struct LevelStarts<'s, 'a, A: Allocator> {
    set: &'s Set<'a, A>,
    // The entries before it were gone over.
    from: usize,
}

impl<'s, 'a, A: Allocator> Model for LevelStarts<'s, 'a, A> {
    ghost use Rattle.wad_dir.specs.Entries.{names};
    ghost use Rattle.level_starts.specs.Starts.{StartsLeft};

    ghost Value = { StartsLeft };

    ghost view = { λ s. record { names = names s.set.now; from = s.from } };
}

impl<'s, 'a, A: Allocator> LevelStarts<'s, 'a, A> {
    /// Those of a set.
    pub fn of(set: &'s Set<'a, A>) -> LevelStarts<'s, 'a, A>
        ensures { result ≡ record { names = names set.now; from = 0 } }
    {
        LevelStarts { set, from: 0 }
    }
}

impl<'s, 'a, A: Allocator> Iterator for LevelStarts<'s, 'a, A> {
    type Item = usize;

    ghost next_gives = { GivesNextStart };

    ghost remaining = { λ left. at_most (length left.names - left.from) };

    #[tactic(auto, using(crate::proofs::StartLemmas::start_within))]
    fn next(&mut self) -> Option<usize> {
        let g = next_start(self.set, self.from)?;
        self.from = g + 1;
        Some(g)
    }
}

/// The number of the first entry at which a level starts, from a given one on, or None if there is
/// none. A call looks only at the entries up to that one and at the next.
pub fn next_start<A: Allocator>(set: &Set<'_, A>, from: usize) -> Option<usize>
    ensures some { IfSome result (IsNextStart (names set.now) from) }
    ensures none { IfNone result (NoneStartsFrom (names set.now) from) }
    ensures fits { IfSome result (λ g. g + 1 < 2 ^ 64) }
{
    for g in from..set.total() {
        if starts_at(set, g) {
            return Some(g);
        }
    }
    None
}

/// Whether a level starts at an entry.
pub fn starts_at<A: Allocator>(set: &Set<'_, A>, g: usize) -> bool
    requires { g + 1 < 2 ^ 64 }
    ensures { IsTrue result ↔ LevelStartsAt (names set.now) g }
{
    is_named(set, g + 1, Name8::query(b"THINGS")) || is_named(set, g + 1, Name8::query(b"TEXTMAP"))
}

/// Whether an entry is there and has a name.
pub fn is_named<A: Allocator>(set: &Set<'_, A>, g: usize, name: Name8) -> bool
    ensures { IsTrue result ↔ IsNamed (names set.now) g name }
{
    match name_at(set, g) {
        Some(found) => found == name,
        None => false,
    }
}

/// The name of an entry, or None if there is no such entry.
pub fn name_at<A: Allocator>(set: &Set<'_, A>, g: usize) -> Option<Name8>
    ensures { result ≡ slice_get (names set.now) g }
{
    set.name(g)
}
