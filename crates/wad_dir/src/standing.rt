//! Stretches of bytes at a place.

ghost use Rattle.std.specs.Prelude.{◌≡◌, ℕ, ◌^◌, ◌<◌, pos, ◌<ℤ◌, List, length, IfSome, IfNone};
ghost use Rattle.wad_dir.specs.Standing.{StandsAt};

/// The number, where it is not negative.
#[inline]
pub fn natural(number: i32) -> Option<usize>
    ensures value { IfSome result (λ n. number ≡ pos n) }
    ensures bound { IfSome result (λ n. n < 2 ^ 31) }
    ensures negative { IfNone result (number <ℤ pos 0) }
{
    if number < 0 {
        return None;
    }
    Some(number as usize)
}

/// The `size` bytes from `place` on, where they are all there.
pub fn standing_at(bytes: &[u8], place: i32, size: usize) -> Option<&[u8]>
    ensures some { IfSome result (λ stretch.
        (length stretch.now ≡ size) × StandsAt bytes.now place stretch.now) }
    ensures none { IfNone result (
        (stretch : List ℕ) → length stretch ≡ size → ¬ StandsAt bytes.now place stretch) }
{
    let start = natural(place)?;
    if start > bytes.len() || size > bytes.len() - start {
        return None;
    }
    Some(&bytes[start..start + size])
}
