//! The lumps of a level from which it is drawn, as far as they are there.

ghost use Rattle.std.specs.Prelude.{◌≡◌, ◌+◌, ◌<◌, ◌^◌, length};
ghost use Rattle.wad_dir.specs.Entries.{joined, names};
ghost use Rattle.map_sketch.specs.Own.{IsOwnPlace};
ghost use Rattle.map_sketch.specs.Sketch.{AreShort, IsForm, IsLumpNamed, IsShort, IsSketch};

use crate::own::own_place;
use crate::records::Form;
use le_rec::Name8;
use std::alloc::Allocator;
use wad_dir::Set;

/// A lump of a level.
#[derive(Clone, Copy, Debug)]
pub enum Lump<'a> {
    /// No entry of the level has the name.
    Lacking,
    /// The entry is at this place behind the label; its bytes aren't inside the file.
    Outside(u8),
    /// The entry's place behind the label, and its bytes.
    Whole(u8, &'a [u8]),
}

impl<'a> Lump<'a> {
    ghost use Rattle.map_sketch.specs.Sketch.{bytes_of};

    /// The bytes, as far as they are there.
    pub fn bytes(&self) -> &'a [u8]
        ensures { result.now ≡ bytes_of self.now }
    {
        match *self {
            Lump::Whole(_, bytes) => bytes,
            Lump::Lacking | Lump::Outside(_) => &[],
        }
    }
}

/// What can be read of a level that isn't judged.
#[derive(Clone, Copy, Debug)]
pub struct Sketch<'a> {
    /// Whose records linedefs and things are: Hexen's where the level has scripts.
    pub form: Form,
    pub things: Lump<'a>,
    pub linedefs: Lump<'a>,
    pub sidedefs: Lump<'a>,
    pub vertexes: Lump<'a>,
    pub sectors: Lump<'a>,
}

/// What can be read of the level whose label is an entry.
pub fn sketch_of<'a, A: Allocator>(set: &Set<'a, A>, g: usize) -> Sketch<'a>
    requires { g < length (joined set.now) }
    ensures is { IsSketch set.now g result }
    ensures short { AreShort result }
{
    Sketch {
        form: form_of(set, g),
        things: lump_named(set, g, Name8::query(b"THINGS")),
        linedefs: lump_named(set, g, Name8::query(b"LINEDEFS")),
        sidedefs: lump_named(set, g, Name8::query(b"SIDEDEFS")),
        vertexes: lump_named(set, g, Name8::query(b"VERTEXES")),
        sectors: lump_named(set, g, Name8::query(b"SECTORS")),
    }
}

// Whose records a level has.
fn form_of<A: Allocator>(set: &Set<'_, A>, g: usize) -> Form
    requires { g < length (joined set.now) }
    ensures { IsForm set.now g result }
{
    match own_place(set, g, Name8::query(b"BEHAVIOR")) {
        Some(_) => Form::Hexen,
        None => Form::Doom,
    }
}

// A level's lump of a name.
fn lump_named<'a, A: Allocator>(set: &Set<'a, A>, g: usize, name: Name8) -> Lump<'a>
    requires { g < length (joined set.now) }
    ensures is { IsLumpNamed set.now g name result }
    ensures short { IsShort result }
{
    match own_place(set, g, name) {
        Some(k) => lump_at(set, g, name, k),
        None => Lump::Lacking,
    }
}

// The lump at its place behind the label.
fn lump_at<'a, A: Allocator>(set: &Set<'a, A>, g: usize, name: Name8, k: u8) -> Lump<'a>
    requires own { IsOwnPlace (names set.now) g name k }
    requires listed { g + k < length (joined set.now) }
    requires fits { g + k < 2 ^ 64 }
    ensures is { IsLumpNamed set.now g name result }
    ensures short { IsShort result }
{
    match set.lump(g + k as usize) {
        Ok(bytes) => Lump::Whole(k, bytes),
        Err(_) => Lump::Outside(k),
    }
}
