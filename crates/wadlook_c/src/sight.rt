//! A bit of REJECT.

ghost use Rattle.std.specs.Prelude.{◌≡◌, ◌⊎◌, ◌↔◌, ◌<◌, ◌≤◌, Bool, Some, None};
ghost use Rattle.map_tables.specs.Reject.{bits_of, sight_bit};
ghost use Rattle.wadlook_c.specs.Sights.{TellsSight, reject_of};
ghost use Rattle.wadlook_c.specs.Status.{no_sector_number, unknown_number};

use crate::status::{DONE, NO_SECTOR, UNKNOWN};
use map_tables::Reject;

/// Writes to `blocked` whether REJECT's bytes refuse the sight from one sector to another, 1 or 0, in a level of `sectors`
/// sectors. It returns 0, or else the status of a refusal.
#[unsafe(no_mangle)]
pub extern "C" fn wadlook_sight(
    reject: &[u8],
    sectors: u32,
    from: u32,
    to: u32,
    blocked: &mut u32,
) -> u32
    ensures done { result ≡ DONE → (from < sectors) × (to < sectors)
        × TellsSight (sight_bit (reject_of reject.now sectors) from to) blocked.new }
    ensures no_sector { (result ≡ no_sector_number) ↔ ((sectors ≤ from) ⊎ (sectors ≤ to)) }
    ensures unknown { result ≡ unknown_number → (from < sectors) × (to < sectors)
        × (sight_bit (reject_of reject.now sectors) from to ≡ None) }
    ensures ends { ¬ (result ≡ DONE) → (result ≡ no_sector_number) ⊎ (result ≡ unknown_number) }
    ensures untouched { ¬ (result ≡ DONE) → blocked.new ≡ blocked.old }
{
    if from >= sectors || to >= sectors {
        return NO_SECTOR;
    }
    match Reject::of(reject, sectors).bit(from, to) {
        Some(bit) => {
            *blocked = u32::from(bit);
            DONE
        }
        None => UNKNOWN,
    }
}
