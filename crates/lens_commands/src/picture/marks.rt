//! Which warnings a picture marks.

ghost use Rattle.std.specs.Prelude.{◌≡◌};
ghost use Rattle.lens_commands.specs.PictureMarks.{marks_by, marks_without};

use lens_engines::Warnings;
use level_codes::{CodeSet, ReportCode, WarningCode};
use map_picture::MarkedWarnings;

/// The warnings that pictures mark, by how levels are judged: none of an ignored code, and none at all if warnings aren't asked
/// for.
pub fn marks_by(warnings: Warnings, ignored: &CodeSet) -> Option<MarkedWarnings>
    ensures { result ≡ marks_by warnings ignored.now }
{
    match warnings {
        Warnings::Unasked => None,
        Warnings::Told => Some(marks_without(ignored)),
    }
}

// Those of the codes that aren't ignored.
fn marks_without(ignored: &CodeSet) -> MarkedWarnings
    ensures { result ≡ marks_without ignored.now }
{
    MarkedWarnings {
        unclosed: !ignored.has(ReportCode::Warning(WarningCode::W1)),
        bare: !ignored.has(ReportCode::Warning(WarningCode::W2)),
        in_void: !ignored.has(ReportCode::Warning(WarningCode::W3)),
        twins: !ignored.has(ReportCode::Warning(WarningCode::W6)),
        unknown_things: !ignored.has(ReportCode::Warning(WarningCode::W11)),
        unknown_specials: !ignored.has(ReportCode::Warning(WarningCode::W14)),
        zero_tags: !ignored.has(ReportCode::Warning(WarningCode::W15)),
        crossings: !ignored.has(ReportCode::Warning(WarningCode::W16)),
        effects: !ignored.has(ReportCode::Warning(WarningCode::W17)),
        odd_things: !ignored.has(ReportCode::Warning(WarningCode::W21)),
    }
}
