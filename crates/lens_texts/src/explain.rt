//! What codes mean: the explanation of one, and the list of all.

ghost use Rattle.std.specs.Prelude.{◌≡◌, ◌<◌, ◌≤◌, ◌+◌, ◌++◌, [], Option, false, length};
ghost use Rattle.level_codes.specs.declared.table.TheConstants.{REPORT_COUNT};
ghost use Rattle.line_io.specs.Writes.{Writes};
ghost use Rattle.lens_texts.specs.Explain.{code_lines, column, explained_text, explanation_text, head_text, list_line};

use crate::lines::write_both;
use crate::parts::{TextParts, write_parts};
use le_rec::Sink;
use level_codes::{REPORT_COUNT, ReportCode};
use line_io::{IoFault, TextLine, emit};

/// Writes what a code means, in at most eight lines of 80 columns, or the list of all codes.
pub fn write_explained<W: Sink>(code: Option<ReportCode>, out: &mut W) -> Result<(), IoFault>
    requires { (W.state out.old).failed ≡ false }
    ensures { Writes (W.state out.old) (W.state out.new) (explained_text code) result }
{
    match code {
        Some(code) => write_explanation(code, out),
        None => write_parts(&CodeList, out),
    }
}

// Writes what a code means: a line of its name and of what it says, and then the three parts of its explanation.
fn write_explanation<W: Sink>(code: ReportCode, out: &mut W) -> Result<(), IoFault>
    requires { (W.state out.old).failed ≡ false }
    ensures { Writes (W.state out.old) (W.state out.new) (explanation_text code) result }
{
    let mut head = TextLine::new();
    prepend_head(&mut head, code);
    let explanation = code.explanation();
    write_both(head.as_bytes(), explanation.what, out)?;
    write_both(explanation.game, explanation.cure, out)
}

// `CODE: TEXT`
fn prepend_head(line: &mut TextLine, code: ReportCode)
    requires { line.old ≡ [] }
    ensures { line.new ≡ head_text code }
{
    line.prepend_bytes(b"\n");
    line.prepend_bytes(code.text());
    line.prepend_bytes(b": ");
    line.prepend_bytes(code.name());
}

// The list of all codes: a part is a line.
struct CodeList;

impl TextParts for CodeList {
    ghost use Rattle.lens_texts.specs.Explain.{code_lines};

    ghost parts = { λ list. code_lines };

    fn count(&self) -> usize {
        REPORT_COUNT
    }

    fn write<W: Sink>(&self, number: usize, out: &mut W) -> Result<(), IoFault> {
        let mut line = TextLine::new();
        prepend_list_line(&mut line, ReportCode::at(number));
        emit(out, line.as_bytes())
    }
}

// The line of a code: its name and its class, each in a column, and what it says.
fn prepend_list_line(line: &mut TextLine, code: ReportCode)
    requires { line.old ≡ [] }
    ensures { line.new ≡ list_line code }
{
    line.prepend_bytes(b"\n");
    line.prepend_bytes(code.text());
    prepend_column(line, code.class().name(), 9);
    prepend_column(line, code.name(), 5);
}

// Puts a text, and spaces up to a width, before the line.
fn prepend_column(line: &mut TextLine, text: &[u8], width: usize)
    requires fits { length text.now ≤ width }
    requires narrow { width ≤ 9 }
    requires room { length line.old ≤ 60 }
    ensures text { line.new ≡ column width text.now line.old }
    ensures length { length line.new ≤ length line.old + 9 }
{
    let spaces = b"         ";
    line.prepend_bytes(&spaces[..width - text.len()]);
    line.prepend_bytes(text);
}
