//! Recordings: what is written of commands, and the headers with which demos are played.

use crate::random::Random;
use released::{Ticcmd, released_header, released_written};
use std::alloc::AllocError;

// Angles at which the byte that is written changes, or wraps.
const ANGLES: [i16; 8] = [127, 128, -128, -129, 32639, 32640, 32767, -32768];

// The game's version and those about it.
const VERSIONS: [u8; 8] = [110, 110, 110, 110, 109, 111, 0, 255];

/// What is written of eight commands, and the header of a demo that is played.
pub fn add_recordings(line: &mut String, random: &mut Random) -> Result<(), AllocError> {
    line.push_str("recordings")?;
    for _command in 0..8 {
        let [forward, side, turn, buttons] = released_written(any_ticcmd(random));
        write!(line, " {forward}/{side}/{turn}/{buttons}")?;
    }
    add_header(line, &any_header(random))
}

fn any_ticcmd(random: &mut Random) -> Ticcmd {
    let chosen = random.choice();
    let any = Ticcmd {
        forwardmove: random.byte().cast_signed(),
        sidemove: random.byte().cast_signed(),
        angleturn: random.half(),
        buttons: random.byte(),
    };
    if chosen < 2 {
        Ticcmd {
            angleturn: ANGLES[random.choice()],
            ..any
        }
    } else {
        any
    }
}

fn any_header(random: &mut Random) -> [u8; 13] {
    let mut bytes = [0; 13];
    for byte in bytes.iter_mut() {
        *byte = random.byte();
    }
    bytes[0] = VERSIONS[random.choice()];
    bytes
}

fn add_header(line: &mut String, bytes: &[u8; 13]) -> Result<(), AllocError> {
    let Some(header) = released_header(bytes) else {
        return line.push_str(" other");
    };
    write!(
        line,
        " {}/{}/{}/{}/{}/{}/{}/{}",
        header.skill,
        header.episode,
        header.map,
        header.deathmatch,
        header.respawn,
        header.fast,
        header.no_monsters,
        header.viewpoint,
    )?;
    for player in &header.players {
        write!(line, "/{player}")?;
    }
    Ok(())
}
