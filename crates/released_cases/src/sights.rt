//! Sights: bits of REJECT.

use crate::random::Random;
use released::released_sight_bit;
use std::alloc::AllocError;

// A lump for up to 40 sectors.
const MOST_SECTORS: usize = 40;

const REJECT_BYTES: usize = 200;

/// Eight bits of one lump.
pub fn add_sights(line: &mut String, random: &mut Random) -> Result<(), AllocError> {
    let mut bytes = [0; REJECT_BYTES];
    for byte in bytes.iter_mut() {
        *byte = random.byte();
    }
    line.push_str("sights")?;
    for _pair in 0..8 {
        line.push_str(match any_sight_bit(&bytes, random) {
            Some(true) => " 1",
            Some(false) => " 0",
            None => " none",
        })?;
    }
    Ok(())
}

// A pair of so many sectors, or any numbers that lead to a bit of the lump.
fn any_sight_bit(bytes: &[u8], random: &mut Random) -> Option<bool> {
    if random.choice() % 2 == 0 {
        let sectors = 1 + random.below(MOST_SECTORS);
        let s1 = random.below(sectors);
        let s2 = random.below(sectors);
        return released_sight_bit(bytes, sectors as i32, s1 as i32, s2 as i32);
    }
    let sectors = random.word();
    let s1 = random.word();
    let pair = random.from(0, 1600);
    released_sight_bit(
        bytes,
        sectors,
        s1,
        pair.wrapping_sub(s1.wrapping_mul(sectors)),
    )
}
