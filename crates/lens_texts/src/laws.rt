//! Laws of the definitions alone, each the contract of a function that does nothing: a caller gets the law from a call.

ghost use Rattle.lens_texts.specs.Laws as law;

/// The kit's reader of JSON reads a written string back as the bytes' text, wherever it stands.
pub fn strings_are_read()
    ensures { law.StringsAreRead }
{}

/// Escaped bytes are text without markup, and a reader takes it for those bytes. So a name in a foreign file makes no
/// markup.
pub fn escaped_stands_for()
    ensures { law.EscapedStandsFor }
{}
