//! A level's REJECT: from which sector another can't be seen.

ghost use Rattle.std.specs.Prelude.{◌≡◌, ◌<◌};
ghost use Rattle.std.specs.List.{slice_get};
ghost use Rattle.map_tables.specs.Reject.{bits_of, sight_bit};

use std::marker::Model;

/// A level's REJECT: a bit for each pair of sectors, set where the first can't see the second
/// (`P_CheckSight` of linuxdoom 1.10). It lends the lump's bytes.
#[derive(Drop)]
pub struct Reject<'a> {
    bytes: &'a [u8],
    sectors: u32,
}

impl<'a> Model for Reject<'a> {
    ghost use Rattle.map_tables.specs.Reject as reject;
    ghost use Rattle.map_tables.specs.Reject.{bits_of};

    ghost Value = { reject.Reject };

    ghost view = { λ r. record { bits = bits_of r.bytes.now; sectors = r.sectors } };
}

impl<'a> Reject<'a> {
    /// The bits of the lump of a level with so many sectors.
    pub fn of(bytes: &'a [u8], sectors: u32) -> Reject<'a>
        ensures { result ≡ record { bits = bits_of bytes.now; sectors = sectors } }
    {
        Reject { bytes, sectors }
    }

    /// Whether sight from sector a to sector b is refused, or None where the lump ends before
    /// their bit.
    pub fn bit(&self, a: u32, b: u32) -> Option<bool>
        requires from { a < self.now.sectors }
        requires to { b < self.now.sectors }
        ensures { result ≡ sight_bit self.now a b }
    {
        let number = a as usize * self.sectors as usize + b as usize;
        bit_at(self.bytes, number)
    }
}

// The bit of a number.
#[inline]
fn bit_at(bytes: &[u8], number: usize) -> Option<bool>
    ensures { result ≡ slice_get (bits_of bytes.now) number }
{
    let byte = bytes.get(number / 8)?;
    Some(byte >> (number % 8) & 1 == 1)
}
