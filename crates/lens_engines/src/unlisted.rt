//! Which names no file lists.

ghost use Rattle.std.specs.Prelude.{◌≡◌, ◌↔◌, ◌≤◌, IsTrue, false, length};
ghost use Rattle.level_codes.specs.declared.code.ReportCode.TheVariants as report;
ghost use Rattle.line_io.specs.Writes.{Writes};
ghost use Rattle.lens_engines.specs.Ignored.{ignores};
ghost use Rattle.lens_engines.specs.Unlisted.{AreUnlisted, is_none, lacks_ends, none_unlisted, unlisted_codes, unlisted_names, unlisted_note, unlisted_with};

use crate::ignored::ignores;
use le_rec::Sink;
use level_codes::{CodeSet, ReportCode, WarningCode};
use line_io::{IoFault, TextLine, emit};
use map_warnings::Resources;
use std::alloc::Allocator;

/// Which of W9, W10 and W25 were asked for but not looked for, as no file lists the names that they need.
#[derive(Clone, Copy, Debug, PartialEq, Eq)]
pub struct Unlisted {
    /// W9, as TEXTURE1 isn't found.
    pub textures: bool,
    /// W10, as there is no F_START.
    pub flats: bool,
    /// W25, as there is no F_START.
    pub flat_start: bool,
    /// W25, as there is no F_END.
    pub flat_end: bool,
}

impl Unlisted {
    /// All are listed.
    pub fn none() -> Unlisted
        ensures { result ≡ none_unlisted }
    {
        Unlisted {
            textures: false,
            flats: false,
            flat_start: false,
            flat_end: false,
        }
    }

    /// Those of a level with these textures and flats, if they are asked for. What is ignored isn't asked for.
    pub fn of<A: Allocator>(resources: &Option<Resources<'_, '_, A>>, ignored: &CodeSet) -> Unlisted
        ensures { AreUnlisted ignored.now resources.now result }
    {
        match resources {
            Some(known) => Unlisted {
                textures: lacks(known.has_textures(), ignored, WarningCode::W9),
                flats: lacks(known.has_flats(), ignored, WarningCode::W10),
                flat_start: lacks(known.has_flats(), ignored, WarningCode::W25),
                flat_end: lacks(known.has_flat_end(), ignored, WarningCode::W25),
            },
            None => Unlisted::none(),
        }
    }

    // Whether an end of the flats lacks.
    fn lacks_ends(self) -> bool
        ensures { result ≡ lacks_ends self }
    {
        self.flat_start || self.flat_end
    }

    /// Whether all are listed.
    pub fn is_none(self) -> bool
        ensures { result ≡ is_none self }
    {
        !self.textures && !self.flats && !self.lacks_ends()
    }

    /// Both together.
    pub fn with(self, other: Unlisted) -> Unlisted
        ensures { result ≡ unlisted_with self other }
    {
        Unlisted {
            textures: self.textures || other.textures,
            flats: self.flats || other.flats,
            flat_start: self.flat_start || other.flat_start,
            flat_end: self.flat_end || other.flat_end,
        }
    }

    // The codes that weren't looked for.
    fn codes(self) -> &'static [u8]
        ensures codes { result.now ≡ unlisted_codes self }
        ensures short { length result.now ≤ 12 }
    {
        match (self.textures, self.flats, self.lacks_ends()) {
            (true, true, true) => b"W9, W10, W25",
            (true, true, false) => b"W9, W10",
            (true, false, true) => b"W9, W25",
            (true, false, false) => b"W9",
            (false, true, true) => b"W10, W25",
            (false, true, false) => b"W10",
            (false, false, true) => b"W25",
            (false, false, false) => b"",
        }
    }

    // The names that lack.
    fn names(self) -> &'static [u8]
        ensures names { result.now ≡ unlisted_names self }
        ensures short { length result.now ≤ 24 }
    {
        match (self.textures, self.flats || self.flat_start, self.flat_end) {
            (true, true, true) => b"TEXTURE1, F_START, F_END",
            (true, true, false) => b"TEXTURE1, F_START",
            (true, false, true) => b"TEXTURE1, F_END",
            (true, false, false) => b"TEXTURE1",
            (false, true, true) => b"F_START, F_END",
            (false, true, false) => b"F_START",
            (false, false, true) => b"F_END",
            (false, false, false) => b"",
        }
    }

    /// Writes which codes weren't looked for, why, and how to have them looked for.
    pub fn write_note<W: Sink>(self, out: &mut W) -> Result<(), IoFault>
        requires { (W.state out.old).failed ≡ false }
        ensures { Writes (W.state out.old) (W.state out.new) (unlisted_note self) result }
    {
        let mut line = TextLine::new();
        line.prepend_bytes(b"; name the game's with --base");
        line.prepend_bytes(self.names());
        line.prepend_bytes(b" weren't looked for: no file has ");
        line.prepend_bytes(self.codes());
        emit(out, line.as_bytes())
    }
}

// Whether something that a code goes by isn't there, and the code isn't ignored.
fn lacks(is_there: bool, ignored: &CodeSet, code: WarningCode) -> bool
    ensures { IsTrue result ↔ ((¬ IsTrue is_there) × (ignores ignored.now (report.Warning code) ≡ false)) }
{
    !is_there && !ignores(ignored, ReportCode::Warning(code))
}
