//! How often the fire button is held in a demo that comes from a source.

ghost use Rattle.std.specs.Prelude.{◌≡◌, false};
ghost use Rattle.examples.specs.DemoFiring.{CountsFiring, is_firing};

use demo_lump::laws::{commands_go_on, pieces_are_the_demo};
use demo_lump::{Command, DemoReader, MAX_READ, StreamFault};
use le_rec::Source;

/// How many commands of a demo hold the fire button. The demo is read as it comes, and what follows its marker is
/// left in the source.
pub fn commands_firing<S: Source>(source: &mut S) -> Result<u64, StreamFault>
    requires { (S.state source.old).failed ≡ false }
    ensures { CountsFiring (S.state source.old) (S.state source.new) result }
{
    commands_go_on();
    pieces_are_the_demo();
    let mut reader = DemoReader::new(MAX_READ);
    reader.header(source)?;
    let mut firing = 0;
    'commands: while let Some(command) = reader.next(source)? {
        if is_firing(&command) {
            firing += 1;
        }
    }
    Ok(firing)
}

// With the highest bit set the others are a request to the game (`BT_SPECIAL` of d_event.h).
fn is_firing(command: &Command) -> bool
    ensures { result ≡ is_firing command.now }
{
    command.buttons < 128 && command.buttons % 2 == 1
}
