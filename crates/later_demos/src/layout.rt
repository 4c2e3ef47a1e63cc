//! The table of versions: what the demos of each have.

ghost use Rattle.std.specs.Prelude.{◌≡◌, ◌≤◌, IfSome, find, length};
ghost use Rattle.later_demos.specs.FaultText.{signature_digits};
ghost use Rattle.later_demos.specs.Layout.{covers, layout_of, name_of, signature_of, versions};

/// Whose version a demo has.
#[derive(Clone, Copy, Debug, PartialEq, Eq)]
pub enum Engine {
    /// Doom 1.4 to 1.8.
    Early,
    /// Doom 1.9, and its long form.
    Doom,
    /// Boom.
    Boom,
    /// MBF.
    Mbf,
    /// PrBoom and PrBoom+.
    PrBoom,
    /// MBF21.
    Mbf21,
}

/// What the demos of a version have.
#[derive(Clone, Copy, Debug, PartialEq, Eq)]
pub struct Layout {
    /// Whose version it is.
    pub engine: Engine,
    /// The number of bytes of a header; of MBF21 without its compatibility options.
    pub size: usize,
    /// The place of the players' four bytes; of MBF21 without its compatibility options.
    pub players: usize,
    /// Whether a command's turn has two bytes.
    pub long: bool,
}

/// A row of the table: the versions from one to another, and what their demos have.
#[derive(Clone, Copy)]
pub(crate) struct VersionRow {
    first: u8,
    last: u8,
    layout: Layout,
}

macro_rules! row {
    ($first:literal, $last:literal, $engine:expr, $size:literal, $players:literal, $long:literal) => {
        VersionRow {
            first: $first,
            last: $last,
            layout: Layout {
                engine: $engine,
                size: $size,
                players: $players,
                long: $long,
            },
        }
    };
}

/// The table of the versions that are read.
const VERSIONS: [VersionRow; 9] = [
    row! { 104, 108, Engine::Early, 13, 9, false },
    row! { 109, 110, Engine::Doom, 13, 9, false },
    row! { 111, 111, Engine::Doom, 13, 9, true },
    row! { 200, 200, Engine::Boom, 301, 269, false },
    row! { 201, 202, Engine::Boom, 109, 77, false },
    row! { 203, 203, Engine::Mbf, 109, 77, false },
    row! { 210, 213, Engine::PrBoom, 109, 77, false },
    row! { 214, 214, Engine::PrBoom, 109, 77, true },
    row! { 221, 221, Engine::Mbf21, 65, 33, true },
];

fn versions() -> &'static [VersionRow]
    ensures { result.now ≡ versions }
{
    &VERSIONS
}

impl VersionRow {
    fn covers(self, version: u8) -> bool
        ensures { result ≡ covers version self }
    {
        self.first <= version && version <= self.last
    }
}

/// What the demos of a version have, or None where the version isn't read.
#[tactic(auto, unfolding(crate::specs::Layout::layout_of), using(crate::proofs::LayoutLemmas::row_small))]
pub fn layout_of(version: u8) -> Option<Layout>
    ensures found { result ≡ layout_of version }
    ensures small { IfSome result (λ layout. (layout.size ≤ 301) × (layout.players ≤ 269)) }
{
    let row = row_of(version)?;
    Some(row.layout)
}

// The row that speaks of a version.
fn row_of(version: u8) -> Option<VersionRow>
    ensures { result ≡ find (covers version) versions }
{
    versions().iter().copied().find(|row| row.covers(version))
}

impl Engine {
    /// The name that is told; empty of Doom 1.9.
    pub fn name(self) -> &'static str
        ensures name { result.now ≡ name_of self }
        ensures short { length result.now ≤ 10 }
    {
        match self {
            Engine::Early => "1.4 to 1.8",
            Engine::Doom => "",
            Engine::Boom => "Boom",
            Engine::Mbf => "MBF",
            Engine::PrBoom => "PrBoom",
            Engine::Mbf21 => "MBF21",
        }
    }

    /// The bytes behind the version, by which the engine knows its demos; none of Doom.
    pub fn signature(self) -> &'static [u8]
        ensures { result.now ≡ signature_of self }
    {
        match self {
            Engine::Early | Engine::Doom => b"",
            Engine::Boom => b"\x1dBoom\xe6",
            Engine::Mbf | Engine::PrBoom | Engine::Mbf21 => b"\x1dMBF\xe6\x00",
        }
    }

    /// The same bytes in hexadecimal digits.
    pub fn signature_digits(self) -> &'static str
        ensures digits { result.now ≡ signature_digits self }
        ensures short { length result.now ≤ 17 }
    {
        match self {
            Engine::Early | Engine::Doom => "",
            Engine::Boom => "1d 42 6f 6f 6d e6",
            Engine::Mbf | Engine::PrBoom | Engine::Mbf21 => "1d 4d 42 46 e6 00",
        }
    }
}
