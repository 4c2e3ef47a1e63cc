//! Laws of the definitions alone, each the contract of a function that does nothing.
ghost use Rattle.line_io.specs.Laws as law;

/// The lines of an input, joined, are the input: a byte 10 follows each but a last part. No line
/// holds a byte 10, and no other parts of the input are so.
pub fn an_input_has_its_lines()
    ensures cut { law.LinesAreLines }
    ensures only { law.OnlyLines }
{}

/// The content of a line is the line without one byte 13 at its end.
pub fn a_line_has_its_content()
    ensures { law.ContentIsContent }
{}

/// The first 66 bytes of a line decide its answer.
pub fn first_bytes_decide_an_answer()
    ensures { law.FirstBytesDecide }
{}

/// A content is read in one way at most.
pub fn one_reading()
    ensures { law.OneReading }
{}

/// The printed text of a number is its only text of digits without a leading zero.
pub fn one_text()
    ensures { law.OneText }
{}

/// The printed text of a number is read as that number.
#[tactic(auto, using(crate::proofs::TextLemmas::printed_is_read))]
pub fn printed_is_read()
    ensures { law.PrintedIsRead }
{}

/// The numbers of a content are those of its parts between spaces.
pub fn read_by_parts()
    ensures { law.ReadByParts }
{}
