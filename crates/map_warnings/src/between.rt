//! Numbers in a row.

ghost use Rattle.std.specs.Prelude.{◌≡◌};
ghost use Rattle.map_warnings.specs.Between.{is_between};

/// Whether a number stands from one up to another.
pub fn is_between(least: i16, greatest: i16, number: i16) -> bool
    ensures { result ≡ is_between least greatest number }
{
    (least <= number) & (number <= greatest)
}
