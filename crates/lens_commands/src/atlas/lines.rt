//! The survey's lines of a file's rows.

ghost use Rattle.std.specs.Prelude.{◌≡◌, false, IfOk, OnErr};
ghost use Rattle.line_io.specs.Writes.{Writes};
ghost use Rattle.lens_engines.specs.Surveyed.{survey_line};
ghost use Rattle.lens_commands.specs.AtlasLines.{StopsAtLine, TakesLines};

use atlas_page::Row;
use le_rec::Sink;
use lens_engines::{Verdict, write_surveyed};
use line_io::IoFault;

/// Writes the survey's line of each row, in order, and returns the gravest verdict.
pub fn write_lines<W: Sink>(rows: &[Row<'_>], survey: &mut W) -> Result<Verdict, IoFault>
    requires { (W.state survey.old).failed ≡ false }
    ensures all { IfOk result (TakesLines rows.now (W.state survey.old) (W.state survey.new)) }
    ensures some { OnErr result (StopsAtLine rows.now (W.state survey.old) (W.state survey.new)) }
{
    let mut worst = Verdict::Clean;
    for row in rows {
        write_line(row, survey)?;
        worst = worst.graver(row.found.verdict());
    }
    Ok(worst)
}

// Writes the survey's line of a row.
fn write_line<W: Sink>(row: &Row<'_>, survey: &mut W) -> Result<(), IoFault>
    requires { (W.state survey.old).failed ≡ false }
    ensures { Writes (W.state survey.old) (W.state survey.new)
        (survey_line row.now.path.now row.now.name row.now.entry row.now.found) result }
{
    write_surveyed(row.path, &row.name, row.entry as usize, &row.found, survey)
}
