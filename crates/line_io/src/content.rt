//! The numbers of an input line.

ghost use Rattle.std.specs.Prelude.{◌≡◌, ℕ, ℤ, ◌+◌, ◌^◌, ◌≤◌, ◌<◌, ◌≢◌, ◌++◌, All, IfSome, IfNone};
ghost use Rattle.std.specs.Prelude.{IsTrue, MatchOption, List, length, map, take, min, slice_index};
ghost use Rattle.std.specs.Prelude.{false};
ghost use Rattle.line_io.specs.Numbers.{HasForm, IsDigit, nearest, printed, value_of, sign_text};
ghost use Rattle.line_io.specs.Numbers.{signed};
ghost use Rattle.line_io.specs.Scan.{StartsWith, LacksNumber};

use super::lines::MAX_CONTENT;

/// The numbers in a line's content.
#[derive(Clone, Copy, Debug, PartialEq, Eq)]
pub struct Numbers<const N: usize> {
    /// The numbers, each as the `i32` that is nearest to it.
    pub values: [i32; N],
    /// Whether the content is known to be their printed text, so that an answer can repeat it.
    pub is_printed: bool,
}

/// Magnitudes are capped here.
const CAP: u64 = 2_147_483_648;

/// The numbers of an input line's content: texts of an optional `-` and digits, with one space
/// between two, in 64 bytes at most. None if it isn't `N` numbers.
///
/// A number may have more digits than any integer type holds. The type that is made of it decides
/// whether it is allowed.
pub fn read_numbers<const N: usize>(content: &[u8]) -> Option<Numbers<N>>
    ensures some { IfSome result (λ found.
        (exact : List ℤ) × HasForm N content.now exact × (found.values ≡ map nearest exact)) }
    ensures printed { IfSome result (λ found.
        IsTrue found.is_printed → content.now ≡ printed found.values) }
    ensures none { IfNone result ((exact : List ℤ) → HasForm N content.now exact → ⊥) }
{
    if content.len() > MAX_CONTENT {
        return None;
    }
    let mut values = [0; N];
    let mut is_printed = true;
    let mut rest = content;
    for i in 0..N {
        let (value, plain, after) = item(i > 0, rest)?;
        values[i] = value;
        is_printed &= plain;
        rest = after;
    }
    if !rest.is_empty() {
        return None;
    }
    Some(Numbers { values, is_printed })
}

// The number that the bytes begin with, whether it is written as it is printed, and what follows
// it. A space comes first if it is separated from a number before.
#[inline]
fn item(separated: bool, bytes: &[u8]) -> Option<(i32, bool, &[u8])>
    ensures { MatchOption result (LacksNumber separated bytes.now)
        (λ found. StartsWith separated bytes.now found.0 found.1 found.2.now) }
{
    if !separated {
        return number(bytes);
    }
    match bytes.split_first() {
        Some((b' ', rest)) => number(rest),
        _ => None,
    }
}

#[inline]
fn number(bytes: &[u8]) -> Option<(i32, bool, &[u8])>
    ensures { MatchOption result (LacksNumber false bytes.now)
        (λ found. StartsWith false bytes.now found.0 found.1 found.2.now) }
{
    let (negative, unsigned) = after_sign(bytes);
    let (count, magnitude) = digits(unsigned);
    if count == 0 {
        return None;
    }
    let plain = is_plain(negative, &unsigned[..count], magnitude);
    Some((signed(negative, magnitude), plain, &unsigned[count..]))
}

// Whether a sign and digits are written as their number is printed: without a leading zero, and
// with no `-` before 0.
#[inline]
fn is_plain(negative: bool, digits: &[u8], magnitude: u64) -> bool
    requires { 0 < length digits.now }
    ensures { IsTrue result → (magnitude < CAP)
        × (slice_index digits.now 0 ≡ 48 → (negative ≡ false) × (length digits.now ≡ 1)) }
{
    magnitude < CAP && (digits[0] != b'0' || (!negative && digits.len() == 1))
}

// Whether the bytes begin with `-`, and what follows it.
#[inline]
fn after_sign(bytes: &[u8]) -> (bool, &[u8])
    ensures spelled { bytes.now ≡ sign_text result.0 ++ result.1.now }
    ensures absent { result.0 ≡ false → slice_index bytes.now 0 ≢ 45 }
{
    match bytes.split_first() {
        Some((b'-', rest)) => (true, rest),
        _ => (false, bytes),
    }
}

#[inline]
fn signed(negative: bool, magnitude: u64) -> i32
    requires { magnitude ≤ CAP }
    ensures { result ≡ nearest (signed negative magnitude) }
{
    if negative {
        (-(magnitude as i64)) as i32
    } else {
        magnitude.min(CAP - 1) as i32
    }
}

// How many digits the bytes begin with, and the number that they
// stand for, or the cap where that is less.
#[inline]
fn digits(bytes: &[u8]) -> (usize, u64)
    ensures within { result.0 ≤ length bytes.now }
    ensures each { All IsDigit (take result.0 bytes.now) }
    ensures end { result.0 < length bytes.now → IsDigit (slice_index bytes.now result.0) → ⊥ }
    ensures value { result.1 ≡ min (value_of (take result.0 bytes.now)) CAP }
{
    let mut value = 0;
    for (count, byte) in bytes.iter().enumerate() {
        if !byte.is_ascii_digit() {
            return (count, value);
        }
        value = (value * 10 + u64::from(*byte - b'0')).min(CAP);
    }
    (bytes.len(), value)
}
