//! The records of linedefs and things, of Doom and of Hexen.

ghost use Rattle.std.specs.Prelude.{◌≡◌, ◌<◌, ◌/◌, length};
ghost use Rattle.map_sketch.specs.Records.{linedef_size, links_at, spot_at, thing_size};
ghost use Rattle.map_sketch.specs.declared.records.Form.TheVariants.{Doom, Hexen};

use le_rec::number::i16_at;

/// Whose records a level has.
#[derive(Clone, Copy, Debug, PartialEq, Eq)]
pub enum Form {
    Doom,
    Hexen,
}

/// The words by which a linedef names its two vertexes and its two sidedefs.
#[derive(Clone, Copy, Debug, PartialEq, Eq)]
pub struct Links {
    pub v1: i16,
    pub v2: i16,
    pub side0: i16,
    pub side1: i16,
}

/// Where a thing stands, in map units, its angle in degrees, and its type.
#[derive(Clone, Copy, Debug, PartialEq, Eq)]
pub struct Spot {
    pub x: i16,
    pub y: i16,
    pub angle: i16,
    pub kind: i16,
}

/// How many bytes a linedef has.
pub fn linedef_size(form: Form) -> usize
    ensures size { result ≡ linedef_size form }
    ensures some { 0 < result }
{
    match form {
        Form::Doom => 14,
        Form::Hexen => 16,
    }
}

/// How many bytes a thing has.
pub fn thing_size(form: Form) -> usize
    ensures size { result ≡ thing_size form }
    ensures some { 0 < result }
{
    match form {
        Form::Doom => 10,
        Form::Hexen => 20,
    }
}

/// What the linedef of a number names.
pub fn links_at(form: Form, bytes: &[u8], i: usize) -> Links
    requires { i < length bytes.now / linedef_size form }
    ensures { result ≡ links_at form bytes.now i }
{
    match form {
        Form::Doom => doom_links(bytes, i),
        Form::Hexen => hexen_links(bytes, i),
    }
}

/// Where the thing of a number stands.
pub fn spot_at(form: Form, bytes: &[u8], i: usize) -> Spot
    requires { i < length bytes.now / thing_size form }
    ensures { result ≡ spot_at form bytes.now i }
{
    match form {
        Form::Doom => doom_spot(bytes, i),
        Form::Hexen => hexen_spot(bytes, i),
    }
}

fn doom_links(bytes: &[u8], i: usize) -> Links
    requires { i < length bytes.now / 14 }
    ensures { result ≡ links_at Doom bytes.now i }
{
    let at = 14 * i;
    Links {
        v1: i16_at(bytes, at),
        v2: i16_at(bytes, at + 2),
        side0: i16_at(bytes, at + 10),
        side1: i16_at(bytes, at + 12),
    }
}

fn hexen_links(bytes: &[u8], i: usize) -> Links
    requires { i < length bytes.now / 16 }
    ensures { result ≡ links_at Hexen bytes.now i }
{
    let at = 16 * i;
    Links {
        v1: i16_at(bytes, at),
        v2: i16_at(bytes, at + 2),
        side0: i16_at(bytes, at + 12),
        side1: i16_at(bytes, at + 14),
    }
}

fn doom_spot(bytes: &[u8], i: usize) -> Spot
    requires { i < length bytes.now / 10 }
    ensures { result ≡ spot_at Doom bytes.now i }
{
    let at = 10 * i;
    Spot {
        x: i16_at(bytes, at),
        y: i16_at(bytes, at + 2),
        angle: i16_at(bytes, at + 4),
        kind: i16_at(bytes, at + 6),
    }
}

fn hexen_spot(bytes: &[u8], i: usize) -> Spot
    requires { i < length bytes.now / 20 }
    ensures { result ≡ spot_at Hexen bytes.now i }
{
    let at = 20 * i;
    Spot {
        x: i16_at(bytes, at + 2),
        y: i16_at(bytes, at + 4),
        angle: i16_at(bytes, at + 8),
        kind: i16_at(bytes, at + 10),
    }
}
