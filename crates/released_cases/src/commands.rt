//! Commands: of demos.

use crate::random::Random;
use released::released_ticcmd;
use std::alloc::AllocError;

// The marker, and other bytes about the ends of what signed and unsigned ones hold.
const EDGES: [u8; 8] = [0x80, 0x7f, 0x81, 0xff, 0, 1, 0xfe, 0x40];

/// Eight commands, each of four bytes of its own.
pub fn add_commands(line: &mut String, random: &mut Random) -> Result<(), AllocError> {
    line.push_str("commands")?;
    for _command in 0..8 {
        match released_ticcmd(&any_bytes(random)) {
            Some(command) => write!(
                line,
                " {}/{}/{}/{}",
                command.forwardmove, command.sidemove, command.angleturn, command.buttons
            )?,
            None => line.push_str(" end")?,
        }
    }
    Ok(())
}

fn any_bytes(random: &mut Random) -> [u8; 4] {
    let chosen = random.choice();
    let mut bytes = [0; 4];
    for byte in bytes.iter_mut() {
        *byte = random.byte();
    }
    if chosen < 2 {
        bytes[0] = EDGES[random.choice()];
    } else if chosen == 2 {
        bytes[2] = EDGES[random.choice()];
    }
    bytes
}
