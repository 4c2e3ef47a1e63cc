//! How long a demo is.

ghost use Rattle.std.specs.Prelude.{◌≡◌, ◌↔◌, Err, IfOk};
ghost use Rattle.demo_lump.specs.Demo.{RefusesDemo};
ghost use Rattle.examples.specs.DemoLength.{CountsTics};

use demo_lump::{Demo, DemoFault};

/// In how many tics of a demo each of its players has a command: a tic that the demo ends in isn't counted.
pub fn full_tics(bytes: &[u8]) -> Result<usize, DemoFault>
    ensures ok { IfOk result (CountsTics bytes.now) }
    ensures refused { (fault : _) → (result ≡ Err fault) ↔ RefusesDemo bytes.now fault }
{
    let demo = Demo::read(bytes)?;
    Ok(demo.full_tics())
}
