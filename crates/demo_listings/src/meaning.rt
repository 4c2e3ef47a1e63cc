//! What of a command is compared.

ghost use Rattle.std.specs.Prelude.{◌≡◌};
ghost use Rattle.demo_listings.specs.Differences.{meaning_of};

use later_demos::{Actions, LaterCommand, LaterDemo};

/// What of two demos is compared.
#[derive(Clone, Copy, Debug, PartialEq, Eq)]
pub enum Compared {
    /// All but what comes after the markers.
    Everything,
    /// How many players there are, and what their commands do, whatever the form of the commands.
    Commands,
}

/// What of a command is compared.
#[derive(Clone, Copy, Debug, PartialEq, Eq)]
pub struct Meaning {
    /// As in a command.
    pub forward: i8,
    /// As in a command.
    pub side: i8,
    /// As in a command, or the angle: a turn of one byte is the high one of two.
    pub turn: u32,
    /// As in a command.
    pub buttons: u8,
    /// What DSDA-Doom adds, where that is compared.
    pub actions: Option<Actions>,
}

/// What of a command of a demo is compared.
pub fn meaning_of(what: Compared, demo: &LaterDemo<'_>, command: &LaterCommand) -> Meaning
    ensures { result ≡ meaning_of what demo.now command.now }
{
    let ticcmd = command.ticcmd;
    let turn = u32::from(ticcmd.turn);
    match what {
        Compared::Everything => Meaning {
            forward: ticcmd.forward,
            side: ticcmd.side,
            turn,
            buttons: ticcmd.buttons,
            actions: command.actions,
        },
        Compared::Commands => Meaning {
            forward: ticcmd.forward,
            side: ticcmd.side,
            turn: if demo.layout().long { turn } else { 256 * turn },
            buttons: ticcmd.buttons,
            actions: None,
        },
    }
}
