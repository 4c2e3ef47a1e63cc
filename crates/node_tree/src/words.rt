//! How many child words name each place.

ghost use Rattle.std.specs.Prelude.{◌≡◌, ◌<◌, ℕ, length, slice_index, IfOk, IfSome};
ghost use Rattle.node_tree.specs.Slots.{slot_count};
ghost use Rattle.map_tree.specs.WordCounts.{IsCounted, AreCounted};
ghost use Rattle.node_tree.specs.WordCounts.{AreWordCounts};

use crate::forked::{Children, Forked};
use crate::places::Places;
use std::alloc::{AllocError, Allocator};

/// For each place the number of child words that name it, with 2 for two or more.
pub fn word_counts<T: Forked, A: Allocator>(
    alloc: A,
    places: &Places<'_, T>,
) -> Result<Vec<u8, A>, AllocError>
    ensures { IfOk result (λ counts. AreWordCounts (T.shape places.now) counts.items) }
{
    let count = places.nodes() + places.ssectors();
    let mut counts = vec![in alloc; 0; count]?;
    count_words(&mut counts, places);
    Ok(counts)
}

// Counts the child words of all nodes.
fn count_words<T: Forked>(counts: &mut [u8], places: &Places<'_, T>)
    requires long { length counts.old ≡ slot_count (T.shape places.now) }
    requires zeros { (k : ℕ) → slice_index counts.old k ≡ 0 }
    ensures { AreWordCounts (T.shape places.now) counts.new }
{
    for n in 0..places.nodes() {
        count_children(counts, places.children(n));
    }
}

// Counts the two child words of a node.
#[inline]
#[tactic(auto, using(map_tree::proofs::WordLemmas::both_counted))]
fn count_children(counts: &mut [u8], children: Children)
    requires front { IfSome children.front (λ k. k < length counts.old) }
    requires back { IfSome children.back (λ k. k < length counts.old) }
    ensures { AreCounted counts.old counts.new children.front children.back }
{
    count_word(counts, children.front);
    count_word(counts, children.back);
}

// Counts a child word that names a place, or none.
#[inline]
fn count_word(counts: &mut [u8], place: Option<usize>)
    requires { IfSome place (λ k. k < length counts.old) }
    ensures { IsCounted counts.old counts.new place }
{
    if let Some(k) = place {
        if counts[k] < 2 {
            counts[k] += 1;
        }
    }
}
