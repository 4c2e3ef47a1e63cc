//! Messages about a folder on standard error.

ghost use Rattle.std.specs.Prelude.{◌≡◌, ◌++◌, codes, false};
ghost use Rattle.lens_commands.specs.AtlasTold.{fault_end, folder_line};
ghost use Rattle.line_io.specs.Writes.{Writes};

use crate::atlas::fault::AtlasFault;
use le_rec::Sink;
use lens_reports::End;
use lens_texts::write_path;
use line_io::{IoFault, emit};

/// Writes a line on a folder: `wadlens: FOLDER: TEXT`.
pub fn write_folder_line<E: Sink>(folder: &[u8], text: &[u8], errors: &mut E) -> Result<(), IoFault>
    requires { (E.state errors.old).failed ≡ false }
    ensures { Writes (E.state errors.old) (E.state errors.new) (folder_line folder.now text.now) result }
{
    emit(errors, b"wadlens: ")?;
    write_path(folder, errors)?;
    write_text(text, errors)
}

// `: TEXT`
fn write_text<E: Sink>(text: &[u8], errors: &mut E) -> Result<(), IoFault>
    requires { (E.state errors.old).failed ≡ false }
    ensures { Writes (E.state errors.old) (E.state errors.new) (codes ": " ++ (text.now ++ codes "\n")) result }
{
    emit(errors, b": ")?;
    emit(errors, text)?;
    emit(errors, b"\n")
}

/// How a run ends whose atlas isn't whole.
pub fn fault_end(fault: AtlasFault) -> End
    ensures { result ≡ fault_end fault }
{
    match fault {
        AtlasFault::Memory => End::Memory,
        AtlasFault::Write => End::Refused,
        AtlasFault::Errors => End::Errors,
    }
}
