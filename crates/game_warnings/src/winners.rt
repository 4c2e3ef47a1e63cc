//! The entry that each name wins, found for all names at once.

ghost use Rattle.std.specs.Prelude.{◌≡◌, ◌≢◌, ◌+◌, ℕ, List, Some, IfNone, IfOk, IfSome, OnOk};
ghost use Rattle.std.specs.List.{slice_get};
ghost use Rattle.wad_dir.specs.Entries.{names};
ghost use Rattle.wad_dir.specs.Winner.{Wins};
ghost use Rattle.game_warnings.specs.Winners.{AreWinners, AreWinnersBelow};

use le_rec::Name8;
use std::alloc::{AllocError, Allocator};
use std::collections::BTreeMap;
use wad_dir::Set;

/// The last entry of each name of a set. It takes memory for each name.
pub fn winners_of<A: Allocator + Copy, B: Allocator>(
    alloc: A,
    set: &Set<'_, B>,
) -> Result<BTreeMap<[u8; 8], usize, A>, AllocError>
    ensures { IfOk result (AreWinners (names set.now)) }
{
    let mut winners = BTreeMap::new(alloc);
    for g in 0..set.total() {
        add_name(&mut winners, set, g)?;
    }
    Ok(winners)
}

// Adds the name of an entry, which wins it so far.
fn add_name<A: Allocator + Copy, B: Allocator>(
    winners: &mut BTreeMap<[u8; 8], usize, A>,
    set: &Set<'_, B>,
    g: usize,
) -> Result<(), AllocError>
    requires { AreWinnersBelow (names set.now) g winners.old }
    ensures { OnOk result (AreWinnersBelow (names set.now) (g + 1) winners.new) }
{
    let Some(name) = name_at(set, g) else {
        return Ok(());
    };
    winners.insert(name.bytes(), g)?;
    Ok(())
}

// The name of an entry.
fn name_at<B: Allocator>(set: &Set<'_, B>, g: usize) -> Option<Name8>
    ensures { slice_get (names set.now) g ≡ result }
{
    set.name(g)
}

/// The entry that wins a name, as `Set::find` gives it.
pub fn winner_of<A: Allocator>(winners: &BTreeMap<[u8; 8], usize, A>, name: &Name8) -> Option<usize>
    ensures some { (all : List (List ℕ)) → AreWinners all winners.now → IfSome result (Wins all name.now) }
    ensures none { (all : List (List ℕ)) → AreWinners all winners.now → IfNone result ((g : ℕ) → slice_get all g ≢ Some name.now) }
{
    match winners.get(&name.bytes()) {
        Some(g) => Some(*g),
        None => None,
    }
}
