//! Where two demos first differ before their commands.

ghost use Rattle.std.specs.Prelude.{◌≡◌, ◌≢◌, ◌↔◌, ◌≤◌, [], codes, length, slice_index, IfNone, IfSome, IsTrue, MatchBool};
ghost use Rattle.later_demos.specs.Part.{part_of};
ghost use Rattle.demo_listings.specs.Differences.{DifferAt, HeadsDiffer, SameHeads, SameWrappers, flags_of, frame_of, map_name_of, number_text, part_line, told, wrapper_text};
ghost use Rattle.demo_listings.specs.Listing.{labelled, numbers_text};

use crate::numbers::{prepend_labelled, prepend_numbers};
use later_demos::{LaterDemo, Part, Wrapper};
use line_io::TextLine;

/// Puts the line of the first difference before the commands before the line, and returns whether there is one.
pub fn prepend_in_heads(line: &mut TextLine, a: &LaterDemo<'_>, b: &LaterDemo<'_>) -> bool
    requires { line.old ≡ [] }
    ensures { MatchBool result (HeadsDiffer a.now b.now line.new) (SameHeads a.now b.now × (line.new ≡ [])) }
{
    if prepend_in_wrappers(line, a, b) {
        return true;
    }
    if prepend_in_headers(line, a, b) {
        return true;
    }
    prepend_in_frames(line, a, b)
}

// The same of their wrappers.
fn prepend_in_wrappers(line: &mut TextLine, a: &LaterDemo<'_>, b: &LaterDemo<'_>) -> bool
    requires { line.old ≡ [] }
    ensures { MatchBool result (HeadsDiffer a.now b.now line.new) (SameWrappers a.now b.now × (line.new ≡ [])) }
{
    let of_a = a.wrapper();
    let of_b = b.wrapper();
    if prepend_in_kinds(line, of_a, of_b) {
        return true;
    }
    if prepend_in_flags(line, of_a, of_b) {
        return true;
    }
    prepend_in_map_names(line, of_a, of_b)
}

fn prepend_in_kinds(line: &mut TextLine, a: Option<Wrapper>, b: Option<Wrapper>) -> bool
    requires { line.old ≡ [] }
    ensures { MatchBool result ((wrapper_text a ≢ wrapper_text b) × (line.new ≡ told (codes "wrapper") (wrapper_text a) (wrapper_text b)))
        ((wrapper_text a ≡ wrapper_text b) × (line.new ≡ [])) }
{
    let of_a = wrapper_text(a);
    let of_b = wrapper_text(b);
    if are_same(of_a.as_bytes(), of_b.as_bytes()) {
        return false;
    }
    prepend_told(line, b"wrapper", of_a.as_bytes(), of_b.as_bytes());
    true
}

fn prepend_in_flags(line: &mut TextLine, a: Option<Wrapper>, b: Option<Wrapper>) -> bool
    requires { line.old ≡ [] }
    ensures { MatchBool result ((flags_of a ≢ flags_of b) × (line.new ≡ told (codes "flags") (number_text (flags_of a)) (number_text (flags_of b))))
        ((flags_of a ≡ flags_of b) × (line.new ≡ [])) }
{
    let of_a = flags_of(a);
    let of_b = flags_of(b);
    if of_a == of_b {
        return false;
    }
    prepend_two_numbers(line, b"flags", u64::from(of_a), u64::from(of_b));
    true
}

fn prepend_in_map_names(line: &mut TextLine, a: Option<Wrapper>, b: Option<Wrapper>) -> bool
    requires { line.old ≡ [] }
    ensures { MatchBool result ((map_name_of a ≢ map_name_of b) × (line.new ≡ told (codes "map name") (numbers_text (map_name_of a)) (numbers_text (map_name_of b))))
        ((map_name_of a ≡ map_name_of b) × (line.new ≡ [])) }
{
    let of_a = map_name_of(a);
    let of_b = map_name_of(b);
    if are_same(&of_a, &of_b) {
        return false;
    }
    prepend_two_texts(line, b"map name", &of_a, &of_b);
    true
}

fn are_same(a: &[u8], b: &[u8]) -> bool
    ensures { IsTrue result ↔ (a.now ≡ b.now) }
{
    a == b
}

// ` none`, ` DSDA 2`, ` PR+UM 1`
fn wrapper_text(wrapper: Option<Wrapper>) -> TextLine
    ensures text { result ≡ wrapper_text wrapper }
    ensures short { length result ≤ 33 }
{
    let mut text = TextLine::new();
    match wrapper {
        None => text.prepend_bytes(b" none"),
        Some(Wrapper::Dsda(dsda)) => prepend_labelled(&mut text, b" DSDA", u64::from(dsda.version)),
        Some(Wrapper::PrUm(_)) => text.prepend_bytes(b" PR+UM 1"),
    }
    text
}

fn flags_of(wrapper: Option<Wrapper>) -> u8
    ensures { result ≡ flags_of wrapper }
{
    match wrapper {
        Some(Wrapper::Dsda(dsda)) => dsda.flags,
        _ => 0,
    }
}

fn map_name_of(wrapper: Option<Wrapper>) -> [u8; 8]
    ensures { result ≡ map_name_of wrapper }
{
    match wrapper {
        Some(Wrapper::PrUm(name)) => name,
        _ => [0; 8],
    }
}

// The same of their headers.
fn prepend_in_headers(line: &mut TextLine, a: &LaterDemo<'_>, b: &LaterDemo<'_>) -> bool
    requires empty { line.old ≡ [] }
    requires wrappers { SameWrappers a.now b.now }
    ensures { MatchBool result (HeadsDiffer a.now b.now line.new) ((a.now.header ≡ b.now.header) × (line.new ≡ [])) }
{
    let of_a = a.version();
    let of_b = b.version();
    if prepend_in_versions(line, of_a, of_b) {
        return true;
    }
    match first_difference(a.header(), b.header()) {
        Some(place) => {
            prepend_part(line, a, b, place);
            true
        }
        None => false,
    }
}

fn prepend_in_versions(line: &mut TextLine, a: u8, b: u8) -> bool
    requires { line.old ≡ [] }
    ensures { MatchBool result ((a ≢ b) × (line.new ≡ told (codes "version") (number_text a) (number_text b))) ((a ≡ b) × (line.new ≡ [])) }
{
    if a == b {
        return false;
    }
    prepend_two_numbers(line, b"version", u64::from(a), u64::from(b));
    true
}

// The line of the part of a header that has a place.
fn prepend_part(line: &mut TextLine, a: &LaterDemo<'_>, b: &LaterDemo<'_>, place: usize)
    requires { line.old ≡ [] }
    ensures { line.new ≡ part_line (part_of a.now.layout a.now.header place) a.now b.now place }
{
    match a.part_at(place) {
        Part::Field(field) => {
            let of_a = a.number(field).unwrap_or(0);
            let of_b = b.number(field).unwrap_or(0);
            prepend_two_numbers(line, field.name(), u64::from(of_a), u64::from(of_b));
        }
        Part::Comp(number) => prepend_two_bytes(
            line,
            b"comp",
            number,
            a.byte_at(place),
            b.byte_at(place),
        ),
        Part::Players => prepend_two_texts(line, b"players", &a.players(), &b.players()),
        Part::Signature | Part::Unread => prepend_two_bytes(
            line,
            b"byte",
            place,
            a.byte_at(place),
            b.byte_at(place),
        ),
    }
}

// The same of their key frames.
fn prepend_in_frames(line: &mut TextLine, a: &LaterDemo<'_>, b: &LaterDemo<'_>) -> bool
    requires empty { line.old ≡ [] }
    requires wrappers { SameWrappers a.now b.now }
    requires header { a.now.header ≡ b.now.header }
    ensures { MatchBool result (HeadsDiffer a.now b.now line.new) (SameHeads a.now b.now × (line.new ≡ [])) }
{
    let of_a = frame_of(a);
    let of_b = frame_of(b);
    if prepend_in_sizes(line, of_a.len(), of_b.len()) {
        return true;
    }
    match first_difference(of_a, of_b) {
        Some(place) => {
            prepend_two_bytes(
                line,
                b"key frame byte",
                place,
                byte_in(of_a, place),
                byte_in(of_b, place),
            );
            true
        }
        None => false,
    }
}

fn prepend_in_sizes(line: &mut TextLine, a: usize, b: usize) -> bool
    requires { line.old ≡ [] }
    ensures { MatchBool result ((a ≢ b) × (line.new ≡ told (codes "key frame") (number_text a) (number_text b))) ((a ≡ b) × (line.new ≡ [])) }
{
    if a == b {
        return false;
    }
    prepend_two_numbers(line, b"key frame", a as u64, b as u64);
    true
}

// The bytes of a key frame; none of a demo without one.
fn frame_of<'a>(demo: &LaterDemo<'a>) -> &'a [u8]
    ensures { result.now ≡ frame_of demo.now }
{
    demo.key_frame().unwrap_or(b"")
}

fn byte_in(bytes: &[u8], place: usize) -> u8
    ensures { result ≡ slice_index bytes.now place }
{
    if place < bytes.len() { bytes[place] } else { 0 }
}

// The first place at which bytes differ.
fn first_difference(a: &[u8], b: &[u8]) -> Option<usize>
    ensures some { IfSome result (DifferAt a.now b.now) }
    ensures none { IfNone result (a.now ≡ b.now) }
{
    let both = a.len().min(b.len());
    for i in 0..both {
        if a[i] != b[i] {
            return Some(i);
        }
    }
    if a.len() == b.len() { None } else { Some(both) }
}

// `header: comp 5 1, 0`: a number behind a label, and two bytes.
fn prepend_two_bytes(line: &mut TextLine, label: &[u8], number: usize, a: u8, b: u8)
    requires empty { line.old ≡ [] }
    requires short { length label.now ≤ 20 }
    ensures { line.new ≡ told (labelled label.now number) (number_text a) (number_text b) }
{
    let mut name = TextLine::new();
    prepend_labelled(&mut name, label, number as u64);
    prepend_two_numbers(line, name.as_bytes(), u64::from(a), u64::from(b));
}

// `header: skill 3, 4`
fn prepend_two_numbers(line: &mut TextLine, name: &[u8], a: u64, b: u64)
    requires empty { line.old ≡ [] }
    requires short { length name.now ≤ 41 }
    ensures { line.new ≡ told name.now (number_text a) (number_text b) }
{
    let mut of_a = TextLine::new();
    prepend_labelled(&mut of_a, b"", a);
    let mut of_b = TextLine::new();
    prepend_labelled(&mut of_b, b"", b);
    prepend_told(line, name, of_a.as_bytes(), of_b.as_bytes());
}

// `header: players 1 0 0 0, 1 0 2 0`
fn prepend_two_texts(line: &mut TextLine, name: &[u8], a: &[u8], b: &[u8])
    requires empty { line.old ≡ [] }
    requires short { length name.now ≤ 41 }
    requires few_of_a { length a.now ≤ 8 }
    requires few_of_b { length b.now ≤ 8 }
    ensures { line.new ≡ told name.now (numbers_text a.now) (numbers_text b.now) }
{
    let mut of_a = TextLine::new();
    prepend_numbers(&mut of_a, a);
    let mut of_b = TextLine::new();
    prepend_numbers(&mut of_b, b);
    prepend_told(line, name, of_a.as_bytes(), of_b.as_bytes());
}

fn prepend_told(line: &mut TextLine, name: &[u8], a: &[u8], b: &[u8])
    requires empty { line.old ≡ [] }
    requires short { length name.now ≤ 41 }
    requires short_a { length a.now ≤ 33 }
    requires short_b { length b.now ≤ 33 }
    ensures { line.new ≡ told name.now a.now b.now }
{
    line.prepend_bytes(b"\n");
    line.prepend_bytes(b);
    line.prepend_bytes(b",");
    line.prepend_bytes(a);
    line.prepend_bytes(name);
    line.prepend_bytes(b"header: ");
}
