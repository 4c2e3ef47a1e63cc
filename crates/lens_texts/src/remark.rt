//! A remark of a report: a finding or a warning.

ghost use Rattle.std.specs.Prelude.{◌≡◌, []};
ghost use Rattle.lens_texts.specs.Owners.{AreOwners};

use crate::message::prepend_message;
use crate::place::{MapPlace, PlaceEnds, ends_of, place_of};
use crate::warning_message::{prepend_warning_message, warning_place};
use level_codes::ReportCode;
use line_io::TextLine;
use map_level::{Finding, Level};
use map_warnings::Warning;

/// What a report says at one of its codes.
#[derive(Clone, Copy, Debug, PartialEq, Eq)]
pub enum Remark {
    Finding(Finding),
    Warning(Warning),
}

impl Remark {
    ghost use Rattle.lens_texts.specs.Remark.{remark_code, remark_ends, remark_index, remark_message, remark_place};

    /// Its code.
    pub fn code(self) -> ReportCode
        ensures { result ≡ remark_code self }
    {
        match self {
            Remark::Finding(finding) => ReportCode::Finding(finding.code),
            Remark::Warning(warning) => ReportCode::Warning(warning.code()),
        }
    }

    /// The number of the record, of the lump (1 to 10) or of the block that it is of; 0 for what can hold only once.
    pub fn index(self) -> u32
        ensures { result ≡ remark_index self }
    {
        match self {
            Remark::Finding(finding) => finding.index,
            Remark::Warning(warning) => warning.number(),
        }
    }

    /// The two ends of where it lies, by the linedefs of the sidedefs: of a sidedef those of its linedef, and of a lone spot this
    /// spot twice. None if it isn't known where it lies.
    pub fn ends(self, level: &Level<'_>, owners: &[Option<u32>]) -> Option<PlaceEnds>
        requires { AreOwners level.now owners.now }
        ensures { result ≡ remark_ends level.now self }
    {
        ends_of(level, self.place(level, owners))
    }

    // Where it lies, by the linedefs of the sidedefs.
    pub(crate) fn place(self, level: &Level<'_>, owners: &[Option<u32>]) -> MapPlace
        requires { AreOwners level.now owners.now }
        ensures { result ≡ remark_place level.now self }
    {
        match self {
            Remark::Finding(finding) => place_of(level, owners, finding.code, finding.index),
            Remark::Warning(warning) => warning_place(level, owners, warning),
        }
    }

    // Puts what it says into the line.
    pub(crate) fn prepend_message(self, line: &mut TextLine, level: &Level<'_>)
        requires { line.old ≡ [] }
        ensures { line.new ≡ remark_message level.now self line.old }
    {
        match self {
            Remark::Finding(finding) => prepend_message(line, level, finding.code, finding.index),
            Remark::Warning(warning) => prepend_warning_message(line, level, warning),
        }
    }
}
