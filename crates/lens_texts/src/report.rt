//! Remarks in the form that is asked for.

ghost use Rattle.std.specs.Prelude.{◌≡◌, false};
ghost use Rattle.line_io.specs.Writes.{Writes};
ghost use Rattle.lens_texts.specs.Head.{head_of};
ghost use Rattle.lens_texts.specs.LevelText.{left_text, remark_text};
ghost use Rattle.lens_texts.specs.Owners.{AreOwners};

use crate::form::Form;
use crate::lines::{Heading, write_left_line, write_remark_line};
use crate::remark::Remark;
use crate::remark_object::{write_left_object, write_remark_object};
use le_rec::Sink;
use level_codes::ReportCode;
use line_io::IoFault;
use map_level::Level;

/// How a report on a level is written: each of its remarks, and how many of a code are left out.
pub trait WriteRemarks {
    ghost use Rattle.std.specs.Prelude.{◌≡◌, ℕ, List, false};
    ghost use Rattle.level_codes.specs.declared.code.ReportCode.{ReportCode};
    ghost use Rattle.line_io.specs.Writes.{Writes};
    ghost use Rattle.map_level.specs.Level.{Level};
    ghost use Rattle.lens_texts.specs.Owners.{AreOwners};
    ghost use Rattle.lens_texts.specs.declared.remark.Remark.{Remark};

    /// The text of a remark.
    ghost text: { Self → Level → Remark → List ℕ };

    /// The text that says how many of a code are left out.
    ghost left: { Self → ReportCode → ℕ → List ℕ };

    /// Writes a remark. `owners` has the linedefs of the level's sidedefs.
    fn write_remark<W: Sink>(
        &self,
        level: &Level<'_>,
        owners: &[Option<u32>],
        remark: Remark,
        out: &mut W,
    ) -> Result<(), IoFault>
        requires owners { AreOwners level.now owners.now }
        requires sound { (W.state out.old).failed ≡ false }
        ensures { Writes (W.state out.old) (W.state out.new) (text self.now level.now remark) result };

    /// Writes how many findings, or warnings, of a code are left out.
    fn write_left<W: Sink>(&self, code: ReportCode, count: u64, out: &mut W) -> Result<(), IoFault>
        requires { (W.state out.old).failed ≡ false }
        ensures { Writes (W.state out.old) (W.state out.new) (left self.now code count) result };
}

impl WriteRemarks for Heading<'_> {
    ghost use Rattle.lens_texts.specs.Head.{head_of};
    ghost use Rattle.lens_texts.specs.LevelText.{left_text, remark_text};

    ghost text = { λ heading. remark_text (head_of heading) };

    ghost left = { λ heading. left_text (head_of heading) };

    fn write_remark<W: Sink>(
        &self,
        level: &Level<'_>,
        owners: &[Option<u32>],
        remark: Remark,
        out: &mut W,
    ) -> Result<(), IoFault> {
        write_remark(self, level, owners, remark, out)
    }

    fn write_left<W: Sink>(
        &self,
        code: ReportCode,
        count: u64,
        out: &mut W,
    ) -> Result<(), IoFault> {
        write_left(self, code, count, out)
    }
}

/// Writes a remark, a line or an object. `owners` has the linedefs of the level's sidedefs.
pub fn write_remark<W: Sink>(
    heading: &Heading<'_>,
    level: &Level<'_>,
    owners: &[Option<u32>],
    remark: Remark,
    out: &mut W,
) -> Result<(), IoFault>
    requires owners { AreOwners level.now owners.now }
    requires sound { (W.state out.old).failed ≡ false }
    ensures { Writes (W.state out.old) (W.state out.new) (remark_text (head_of heading.now) level.now remark) result }
{
    match heading.form {
        Form::Lines => write_remark_line(heading, level, owners, remark, out),
        Form::Objects => write_remark_object(heading, level, owners, remark, out),
    }
}

/// Writes how many findings, or warnings, of a code are left out.
pub fn write_left<W: Sink>(
    heading: &Heading<'_>,
    code: ReportCode,
    left: u64,
    out: &mut W,
) -> Result<(), IoFault>
    requires { (W.state out.old).failed ≡ false }
    ensures { Writes (W.state out.old) (W.state out.new) (left_text (head_of heading.now) code left) result }
{
    match heading.form {
        Form::Lines => write_left_line(heading, code, left, out),
        Form::Objects => write_left_object(heading, code, left, out),
    }
}
