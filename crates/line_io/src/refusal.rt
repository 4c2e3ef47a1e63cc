//! Why a line is refused.
ghost use Rattle.std.specs.Prelude.{◌≡◌};
ghost use Rattle.line_io.specs.NumberAnswers.{refusal_text};

/// Why a line is refused.
#[derive(Clone, Copy, Debug, PartialEq, Eq)]
pub enum LineRefusal {
    /// Its content isn't the right count of numbers in 64 bytes.
    Form,
    /// A number isn't allowed.
    Range,
}

impl LineRefusal {
    /// The answer to a line that is refused so.
    pub fn text(self) -> &'static [u8]
        ensures { result.now ≡ refusal_text self }
    {
        match self {
            LineRefusal::Form => b"refused: form\n",
            LineRefusal::Range => b"refused: range\n",
        }
    }
}
