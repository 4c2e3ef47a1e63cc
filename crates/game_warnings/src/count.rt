//! Records counted, one after another.

ghost use Rattle.std.specs.Prelude.{◌≡◌, ◌+◌, ◌^◌, ◌<◌, if◌then◌else◌};

/// A count with one more where something holds.
#[inline]
pub fn counted(count: u32, holds: bool) -> u32
    requires { count + 1 < 2 ^ 32 }
    ensures { result ≡ count + (if holds then 1 else 0) }
{
    if holds {
        return count + 1;
    }
    count
}
