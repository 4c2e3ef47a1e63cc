//! Which codes are ignored.

ghost use Rattle.std.specs.Prelude.{◌≡◌};
ghost use Rattle.lens_engines.specs.Ignored.{ignores};

use level_codes::{CodeSet, ReportCode};

/// Whether findings, or warnings, of a code are ignored: they are neither shown nor counted then. A fault is never ignored.
pub fn ignores(ignored: &CodeSet, code: ReportCode) -> bool
    ensures { result ≡ ignores ignored.now code }
{
    !code.is_fault() && ignored.has(code)
}
