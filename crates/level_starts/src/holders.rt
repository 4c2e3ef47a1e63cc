//! The entries that a look-up of the levels' labels gives.

ghost use Rattle.std.specs.Prelude.{◌≡◌, ◌≢◌, ◌↔◌, ◌+◌, ◌<◌, ◌^◌, ℕ, List, IfOk, IfSome, IsSome, IsTrue, None, Some, length};
ghost use Rattle.std.specs.List.{slice_get};
ghost use Rattle.le_rec.specs.Name.{query_of};
ghost use Rattle.wad_dir.specs.Entries.{joined, names};
ghost use Rattle.wad_dir.specs.Winner.{Wins};
ghost use Rattle.level_starts.specs.Holders.{AreHolders, AreLabelHolders, AreOfLabels, HasLabelsBelow, HasName, HasNames, PutsHolder, holder_at};
ghost use Rattle.level_starts.specs.Starts.{LevelStartsAt};

use crate::starts::{name_at, starts_at};
use le_rec::Name8;
use std::alloc::{AllocError, Allocator};
use std::collections::BTreeMap;
use wad_dir::Set;

/// For each name of a level's label, the last entry of that name: the one that a look-up gives.
#[derive(Drop)]
pub struct Holders<A: Allocator> {
    holders: BTreeMap<[u8; 8], usize, A>,
}

impl<A: Allocator + Copy> Holders<A> {
    ghost use Rattle.std.specs.Prelude.{◌≡◌, ◌↔◌, ℕ, List, IfOk, IsTrue, Some};
    ghost use Rattle.std.specs.List.{slice_get};
    ghost use Rattle.le_rec.specs.Name.{query_of};
    ghost use Rattle.wad_dir.specs.Entries.{names};
    ghost use Rattle.wad_dir.specs.Winner.{Wins};
    ghost use Rattle.level_starts.specs.Holders.{AreLabelHolders};
    ghost use Rattle.level_starts.specs.Starts.{LevelStartsAt};

    /// Those of a set. It takes memory for each name once, and goes over the entries twice.
    pub fn of<B: Allocator>(alloc: A, set: &Set<'_, B>) -> Result<Holders<A>, AllocError>
        ensures { IfOk result (λ of_set. AreLabelHolders (names set.now) of_set.holders) }
    {
        let mut holders = label_holders(alloc, set)?;
        move_to_last(&mut holders, set);
        Ok(Holders { holders })
    }

    /// Whether a look-up of the label's name, as a query, gives another entry or none.
    pub fn is_hidden(&self, name: &Name8, g: usize) -> bool
        ensures { (all : List (List ℕ)) → AreLabelHolders all self.now.holders → LevelStartsAt all g
            → slice_get all g ≡ Some name.now → IsTrue result ↔ ¬ Wins all (query_of name.now) g }
    {
        is_hidden(&self.holders, name, g)
    }
}

// The names of labels, each with an entry that holds it.
fn label_holders<A: Allocator + Copy, B: Allocator>(
    alloc: A,
    set: &Set<'_, B>,
) -> Result<BTreeMap<[u8; 8], usize, A>, AllocError>
    ensures holders { IfOk result (AreHolders (names set.now) 0) }
    ensures labels { IfOk result (HasLabelsBelow (names set.now) (length (joined set.now))) }
    ensures alone { IfOk result (AreOfLabels (names set.now)) }
{
    let mut holders = BTreeMap::new(alloc);
    'entries: for g in 0..set.total() {
        if let Some(name) = label_at(set, g) {
            holders.insert(name.bytes(), g)?;
        }
    }
    Ok(holders)
}

// The name of an entry, where a level starts there.
fn label_at<B: Allocator>(set: &Set<'_, B>, g: usize) -> Option<Name8>
    requires { g + 1 < 2 ^ 64 }
    ensures some { IfSome result (λ name. slice_get (names set.now) g ≡ Some name) }
    ensures starts { IfSome result (λ _. LevelStartsAt (names set.now) g) }
    ensures none { result ≡ None → (name : List ℕ) → LevelStartsAt (names set.now) g → slice_get (names set.now) g ≢ Some name }
{
    if starts_at(set, g) {
        return name_at(set, g);
    }
    None
}

// Moves the holders of names to the last entries that hold them.
fn move_to_last<A: Allocator, B: Allocator>(
    holders: &mut BTreeMap<[u8; 8], usize, A>,
    set: &Set<'_, B>,
)
    requires { AreHolders (names set.now) 0 holders.old }
    ensures last { AreHolders (names set.now) (length (joined set.now)) holders.new }
    ensures kept { HasNames holders.old holders.new }
{
    'entries: for g in 0..set.total() {
        let Some(name) = name_at(set, g) else { break };
        move_holder(holders, &name.bytes(), g);
    }
}

// Moves the holder of a name, given by its bytes, if it is there.
fn move_holder<A: Allocator>(holders: &mut BTreeMap<[u8; 8], usize, A>, bytes: &[u8; 8], g: usize)
    ensures moved { IsSome (holder_at holders.old bytes.now) → PutsHolder holders.old holders.new bytes.now g }
    ensures absent { holder_at holders.old bytes.now ≡ None → holders.new ≡ holders.old }
{
    if let Some(holder) = holders.get_mut(bytes) {
        *holder = g;
    }
}

// Whether a look-up of a label's name gives another entry or none.
fn is_hidden<A: Allocator>(holders: &BTreeMap<[u8; 8], usize, A>, name: &Name8, g: usize) -> bool
    ensures { (all : List (List ℕ)) → AreHolders all (length all) holders.now → HasName holders.now name.now
        → slice_get all g ≡ Some name.now → IsTrue result ↔ ¬ Wins all (query_of name.now) g }
{
    let bytes = name.bytes();
    if Name8::query(&bytes).bytes() != bytes {
        return true;
    }
    match holders.get(&bytes) {
        Some(holder) => *holder != g,
        None => true,
    }
}
