//! A level that isn't judged.

ghost use Rattle.std.specs.Prelude.{IsTrue};
ghost use Rattle.lens_engines.specs.Unjudged.{names_lump};

use lens_texts::Unread;

/// A level that isn't judged, by what is told of it.
#[derive(Clone, Copy)]
pub struct Unjudged {
    unread: Unread,
    ghost placed: { IsTrue (names_lump unread) },
}

impl Unjudged {
    ghost use Rattle.std.specs.Prelude.{◌≡◌};
    ghost use Rattle.lens_texts.specs.Unread.{NamesLump};

    /// A level of which this is told. If its format has a lump's number, it is one of the ten.
    pub fn new(unread: Unread) -> Unjudged
        requires { NamesLump unread }
        ensures { result.unread ≡ unread }
    {
        Unjudged { unread }
    }

    /// What is told of it.
    pub fn unread(&self) -> Unread
        ensures unread { result ≡ self.now.unread }
        ensures lump { NamesLump result }
    {
        self.unread
    }
}
