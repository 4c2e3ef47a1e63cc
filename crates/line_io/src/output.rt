//! The one loop over `put`.
ghost use Rattle.std.specs.Prelude.{◌≡◌, false};
ghost use Rattle.line_io.specs.Writes.{Writes};

use super::fault::IoFault;
use le_rec::Sink;

/// Writes all of `bytes`, or a front of them where the sink fails.
/// After a failed put there is no other.
pub fn emit<W: Sink>(out: &mut W, bytes: &[u8]) -> Result<(), IoFault>
    requires { (W.state out.old).failed ≡ false }
    ensures { Writes (W.state out.old) (W.state out.new) bytes.now result }
{
    let mut sent = 0;
    while sent < bytes.len() {
        match out.put(&bytes[sent..]) {
            Ok(count) => sent += count,
            Err(_) => return Err(IoFault::Write),
        }
    }
    Ok(())
}
