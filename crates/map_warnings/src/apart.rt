//! Whether all of some numbers differ, found in linear time, without sorting them.

ghost use Rattle.std.specs.Prelude.{◌≡◌, ◌≢◌, ◌+◌, ◌^◌, ◌<◌, All, IfOk, IsTrue, drop, length, slice_index};
ghost use Rattle.map_warnings.specs.EndsKey.{AreApart};
ghost use Rattle.map_warnings.specs.Buckets.{bucket_in};
ghost use Rattle.map_warnings.specs.KeyLinks.{AreLinks, of_key};

use std::alloc::{AllocError, Allocator};

const BUCKETS: usize = 4096;

/// Fewer numbers than this are sooner put in order than all buckets are filled.
const FEWEST: usize = 128;

/// So are more numbers than this, as their buckets are too full to look through.
const MOST: usize = 2 * BUCKETS;

/// The most numbers of a bucket that one number is compared with, so that no bucket takes long.
const MOST_OF_A_BUCKET: usize = 16;

/// Whether all of the numbers differ. It may return false for other numbers, too: for so few or so many that they are sooner
/// sorted, and if a bucket has many.
pub fn are_surely_apart<A: Allocator + Copy>(alloc: A, numbers: &[u64]) -> Result<bool, AllocError>
    ensures { IfOk result (λ apart. IsTrue apart → AreApart numbers.now) }
{
    if numbers.len() < FEWEST || numbers.len() > MOST {
        return Ok(false);
    }
    let mut firsts = Vec::from_elem(alloc, numbers.len() as u32, BUCKETS)?;
    let mut next = Vec::from_elem(alloc, 0, numbers.len())?;
    Ok(are_new(numbers, &mut firsts, &mut next))
}

// Whether each number, from the last to the first, differs from those after it. Each is linked to the next one of its bucket.
fn are_new(numbers: &[u64], firsts: &mut [u32], next: &mut [u32]) -> bool
    requires few { length numbers.now < 2 ^ 32 }
    requires none { AreLinks bucket_in numbers.now 4096 (length numbers.now) firsts.old next.old }
    ensures { IsTrue result → AreApart numbers.now }
{
    for i in (0..numbers.len()).rev() {
        let bucket = bucket_of(numbers[i]);
        if !is_new(numbers, firsts, next, i, bucket) {
            return false;
        }
        next[i] = firsts[bucket];
        firsts[bucket] = i as u32;
    }
    true
}

// Whether a number differs from those after it in its bucket. It may return false if these are many.
fn is_new(numbers: &[u64], firsts: &[u32], next: &[u32], i: usize, bucket: usize) -> bool
    requires links { AreLinks bucket_in numbers.now 4096 (i + 1) firsts.now next.now }
    requires within { i < length numbers.now }
    requires below { bucket < 4096 }
    ensures { IsTrue result
        → All (λ n. slice_index numbers.now i ≢ n) (of_key bucket_in bucket (drop (i + 1) numbers.now)) }
{
    let mut at = firsts[bucket] as usize;
    for _turn in 0..MOST_OF_A_BUCKET {
        if at >= numbers.len() {
            return true;
        }
        if numbers[at] == numbers[i] {
            return false;
        }
        at = next[at] as usize;
    }
    false
}

// The bucket of a number.
#[inline]
fn bucket_of(number: u64) -> usize
    ensures value { result ≡ bucket_in number }
    ensures below { result < 4096 }
{
    (number.wrapping_mul(11400714819323198485) / 4503599627370496) as usize
}
