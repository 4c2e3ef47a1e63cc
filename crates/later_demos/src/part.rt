//! What the bytes of a header belong to.

ghost use Rattle.std.specs.Prelude.{◌≡◌, ◌≤◌, find};
ghost use Rattle.later_demos.specs.Part.{all_fields, comp_at, is_in, part_of, stands_at};

use crate::field::{FIELDS, Field, comp_of};
use crate::header::players_at;
use crate::layout::{Engine, Layout};
use crate::numbers::byte_at;

/// What a byte of a header belongs to.
#[derive(Clone, Copy, Debug, PartialEq, Eq)]
pub enum Part {
    /// The bytes by which the engine knows its demos.
    Signature,
    /// A field.
    Field(Field),
    /// A compatibility option, by its number from 0.
    Comp(usize),
    /// The four bytes of the players.
    Players,
    /// Nothing that is read.
    Unread,
}

/// What the byte at a place of a header belongs to.
#[tactic(auto, unfolding(crate::specs::Part::part_of))]
pub(crate) fn part_of(layout: Layout, header: &[u8], place: usize) -> Part
    requires { layout.players ≤ 269 }
    ensures { result ≡ part_of layout header.now place }
{
    if is_in(1, layout.engine.signature().len(), place) {
        return Part::Signature;
    }
    if is_in(players_at(&layout, header), 4, place) {
        return Part::Players;
    }
    let comp = comp_at(layout.engine);
    if is_in(comp, comp_of(layout.engine, header).len(), place) {
        return Part::Comp(place - comp);
    }
    match field_at(byte_at(header, 0), layout, place) {
        Some(field) => Part::Field(field),
        None => Part::Unread,
    }
}

// Whether a place is one of so many from a first one on.
fn is_in(from: usize, count: usize, place: usize) -> bool
    ensures { result ≡ is_in from count place }
{
    from <= place && place - from < count
}

// Where the compatibility options begin.
fn comp_at(engine: Engine) -> usize
    ensures at { result ≡ comp_at engine }
    ensures small { result ≤ 39 }
{
    match engine {
        Engine::Mbf21 => 33,
        _ => 39,
    }
}

// The field at a place of the headers of a version.
fn field_at(version: u8, layout: Layout, place: usize) -> Option<Field>
    ensures { result ≡ find (λ field. stands_at field version layout.engine place) all_fields }
{
    fields()
        .iter()
        .copied()
        .find(|field| stands_at(*field, version, layout, place))
}

fn fields() -> &'static [Field]
    ensures { result.now ≡ all_fields }
{
    &FIELDS
}

fn stands_at(field: Field, version: u8, layout: Layout, place: usize) -> bool
    ensures { result ≡ stands_at field version layout.engine place }
{
    match field.place(version, layout) {
        Some(at) => is_in(usize::from(at), field.size(), place),
        None => false,
    }
}
