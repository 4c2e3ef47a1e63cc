//! What the game finds of a set's flats and textures, looked through once.

ghost use Rattle.std.specs.Prelude.{◌↔◌, ◌<◌, IsTrue};
ghost use Rattle.wad_dir.specs.Entries.{names};
ghost use Rattle.game_warnings.specs.Misplaced.{HaveFlatEnds, IsOutside};
ghost use Rattle.game_warnings.specs.Winners.{AreWinners};

use crate::flats::{FlatEnds, flat_ends};
use crate::patches::lacking_texture;
use crate::winners::{winner_of, winners_of};
use le_rec::Name8;
use std::alloc::{AllocError, Allocator, Global};
use std::collections::BTreeMap;
use std::marker::Model;
use wad_dir::Set;

/// The entries of a set by their names, the ends of its flats, and the first texture that lacks a patch. It borrows the set.
#[derive(Drop)]
pub struct Graphics<'s, 'a, A: Allocator = Global> {
    set: &'s Set<'a, A>,
    winners: BTreeMap<[u8; 8], usize, A>,
    ends: Option<FlatEnds>,
    lacking: Option<[u8; 8]>,
}

impl<'s, 'a, A: Allocator> Model for Graphics<'s, 'a, A> {
    ghost use Rattle.std.specs.Prelude.{List};
    ghost use Rattle.wad_dir.specs.Entries.{names};
    ghost use Rattle.wad_dir.specs.Wad.{Wad};
    ghost use Rattle.game_warnings.specs.Graphics.{AreFlatEnds, IsLacking};
    ghost use Rattle.game_warnings.specs.Winners.{AreWinners};

    ghost Value = { List Wad };

    ghost view = { λ r. r.set.now };

    ghost invariant = { λ r. AreWinners (names r.set.now) r.winners × AreFlatEnds r.set.now r.ends × IsLacking r.set.now r.lacking };
}

impl<'s, 'a, A: Allocator + Copy> Graphics<'s, 'a, A> {
    ghost use Rattle.std.specs.Prelude.{◌≡◌, IfOk};

    /// Those of a set. Its entries and its lumps of textures and patches are looked through.
    pub fn of(alloc: A, set: &'s Set<'a, A>) -> Result<Graphics<'s, 'a, A>, AllocError>
        ensures { IfOk result (λ graphics. graphics ≡ set.now) }
    {
        let winners = winners_of(alloc, set)?;
        let lacking = lacking_texture(alloc, set, &winners)?;
        let ends = flat_ends(set);
        Ok(Graphics {
            set,
            winners,
            ends,
            lacking,
        })
    }
}

impl<'s, 'a, A: Allocator> Graphics<'s, 'a, A> {
    ghost use Rattle.std.specs.Prelude.{◌↔◌, IsTrue};
    ghost use Rattle.game_warnings.specs.Graphics.{IsLacking};
    ghost use Rattle.game_warnings.specs.Misplaced.{HasFlatEnds, IsOutside};

    /// Whether both ends of the flats are there: F_START and F_END.
    pub fn has_flat_ends(&self) -> bool
        ensures { IsTrue result ↔ HasFlatEnds self.now }
    {
        self.ends.is_some()
    }

    /// Whether an entry wins a name, in capital letters, and doesn't stand between the ends of the flats.
    pub fn is_outside(&self, name: Name8) -> bool
        ensures { IsTrue result ↔ IsOutside self.now name }
    {
        match self.ends {
            Some(ends) => is_name_outside(self.set, &self.winners, ends, &name),
            None => false,
        }
    }

    /// The name of the first texture that lacks a patch, as its record has it.
    pub fn lacking(&self) -> Option<[u8; 8]>
        ensures { IsLacking self.now result }
    {
        self.lacking
    }
}

fn is_name_outside<A: Allocator>(
    set: &Set<'_, A>,
    winners: &BTreeMap<[u8; 8], usize, A>,
    ends: FlatEnds,
    name: &Name8,
) -> bool
    requires winners { AreWinners (names set.now) winners.now }
    requires ends { HaveFlatEnds set.now ends.start ends.end }
    ensures { IsTrue result ↔ IsOutside set.now name.now }
{
    // Only the clauses speak of the set.
    let _set = set;
    match winner_of(winners, name) {
        Some(g) => is_out(ends, g),
        None => false,
    }
}

// Whether an entry doesn't stand between the ends of the flats.
fn is_out(ends: FlatEnds, g: usize) -> bool
    ensures { IsTrue result ↔ ¬ ((ends.start < g) × (g < ends.end)) }
{
    g <= ends.start || ends.end <= g
}
