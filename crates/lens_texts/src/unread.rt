//! What is told of a level that isn't judged.

use level_starts::Format;
use node_lumps::Broken;

/// What is told of a level that isn't judged: its format, with what decides it. A lump is given by its place after the
/// label, as in `Format`.
#[derive(Clone, Copy, Debug, PartialEq, Eq)]
pub enum Unread {
    Udmf,
    /// The first place that lacks its lump.
    Incomplete(u32),
    Hexen,
    /// The first place whose lump isn't inside its file.
    Outside(u32),
    /// The tag of the extended nodes, and why they are broken; None if they aren't read.
    Extended([u8; 4], Option<Broken>),
}

impl Unread {
    ghost use Rattle.std.specs.Prelude.{◌≡◌};
    ghost use Rattle.lens_texts.specs.Unread.{unread_format};

    /// The level's format.
    pub fn format(self) -> Format
        ensures { result ≡ unread_format self }
    {
        match self {
            Unread::Udmf => Format::Udmf,
            Unread::Incomplete(k) => Format::Incomplete(k),
            Unread::Hexen => Format::Hexen,
            Unread::Outside(k) => Format::Outside(k),
            Unread::Extended(tag, _) => Format::Extended(tag),
        }
    }
}
