//! The demo in a file.

ghost use Rattle.std.specs.Prelude.{◌≡◌, false, IfNone, IfSome};
ghost use Rattle.line_io.specs.Writes.{Writes};
ghost use Rattle.lens_calls.specs.FileDemo.{HasDemo, HasNone, TellsFile};

use demo_engines::write_demo_refusal;
use later_demos::LaterDemo;
use le_rec::Sink;
use lens_engines::FileRefusal;
use lens_reports::write_refusal;
use line_io::{IoFault, MAX_READ, emit};

/// The demo in a file.
pub fn demo_in(bytes: &[u8]) -> Option<LaterDemo<'_>>
    ensures some { IfSome result (HasDemo bytes.now) }
    ensures none { IfNone result (HasNone bytes.now) }
{
    if bytes.len() as u64 > MAX_READ {
        return None;
    }
    match LaterDemo::read(bytes) {
        Ok(demo) => Some(demo),
        Err(_) => None,
    }
}

/// Writes why a file has no demo; nothing if it has one.
pub fn tell_file<E: Sink>(path: &[u8], bytes: &[u8], errors: &mut E) -> Result<(), IoFault>
    requires { (E.state errors.old).failed ≡ false }
    ensures { (text : _) × TellsFile path.now bytes.now text × Writes (E.state errors.old) (E.state errors.new) text result }
{
    if bytes.len() as u64 > MAX_READ {
        return write_refusal(path, FileRefusal::TooLarge, errors);
    }
    match LaterDemo::read(bytes) {
        Ok(_) => emit(errors, b""),
        Err(fault) => write_demo_refusal(path, fault, errors),
    }
}
