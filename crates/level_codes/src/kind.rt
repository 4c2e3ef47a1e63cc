//! What the table says of a code beside its texts.

ghost use Rattle.std.specs.Prelude.{◌≡◌, ◌≤◌, length};
ghost use Rattle.level_codes.specs.Kind.{are_met, class_name, kind_name};

/// How grave a code is.
#[derive(Clone, Copy, Debug, PartialEq, Eq)]
pub enum Class {
    /// A level with one isn't sound.
    Fault,
    /// A sound level may have one.
    Note,
    /// The references allow it, and no mapper wants it.
    Warning,
}

impl Class {
    /// A class as it is printed.
    pub fn name(self) -> &'static [u8]
        ensures name { result.now ≡ class_name self }
        ensures short { length result.now ≤ 7 }
    {
        match self {
            Class::Fault => b"fault",
            Class::Note => b"note",
            Class::Warning => b"warning",
        }
    }
}

/// What a code is found at.
#[derive(Clone, Copy, Debug, PartialEq, Eq)]
pub enum Kind {
    Linedef,
    Sidedef,
    Vertex,
    Seg,
    Ssector,
    Node,
    Sector,
    Thing,
    /// One of the ten lumps after the label, from 1.
    Lump,
    /// A block of BLOCKMAP.
    Block,
    /// The level as a whole.
    Whole,
}

impl Kind {
    /// A kind as it is printed.
    pub fn name(self) -> &'static [u8]
        ensures name { result.now ≡ kind_name self }
        ensures short { length result.now ≤ 7 }
    {
        match self {
            Kind::Linedef => b"linedef",
            Kind::Sidedef => b"sidedef",
            Kind::Vertex => b"vertex",
            Kind::Seg => b"seg",
            Kind::Ssector => b"ssector",
            Kind::Node => b"node",
            Kind::Sector => b"sector",
            Kind::Thing => b"thing",
            Kind::Lump => b"lump",
            Kind::Block => b"block",
            Kind::Whole => b"level",
        }
    }
}

/// What a level has to have so that a code is looked for.
#[derive(Clone, Copy, Debug, PartialEq, Eq)]
pub enum Wants {
    /// Ten lumps, as each level has.
    Lumps,
    /// References that hold: no fault F3 to F9.
    References,
    /// No fault.
    Soundness,
    /// References that hold, in files that list textures.
    Textures,
    /// References that hold, in files that list flats.
    Flats,
    /// References that hold, in files that have both ends of the flats.
    FlatEnds,
}

/// What a level has of all that codes want.
#[derive(Clone, Copy, Debug, PartialEq, Eq)]
pub struct Offer {
    pub references: bool,
    pub soundness: bool,
    /// Its files list textures.
    pub textures: bool,
    /// Its files list flats.
    pub flats: bool,
    /// Its files have both ends of the flats.
    pub flat_ends: bool,
}

impl Wants {
    /// Whether a level has what is wanted.
    pub fn are_met(self, offer: Offer) -> bool
        ensures { result ≡ are_met offer self }
    {
        match self {
            Wants::Lumps => true,
            Wants::References => offer.references,
            Wants::Soundness => offer.soundness,
            Wants::Textures => offer.references && offer.textures,
            Wants::Flats => offer.references && offer.flats,
            Wants::FlatEnds => offer.references && offer.flat_ends,
        }
    }
}
