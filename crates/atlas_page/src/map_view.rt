//! The part of a picture about a place.

ghost use Rattle.std.specs.Prelude.{◌≡◌, ◌+◌, ◌≤◌, ◌++◌, ◌+ℤ◌, ◌-ℤ◌, [], length, pos};
ghost use Rattle.std.specs.Fmt.{signed_decimal};
ghost use Rattle.std.specs.Int.{int_max, int_min};
ghost use Rattle.atlas_page.specs.MapView.{view_of, view_text};

use lens_texts::PlaceEnds;
use line_io::TextLine;

// How far a view goes beyond a place, in map units.
const AROUND: i32 = 256;

/// A part of a picture, in an SVG's units: map units, but y goes down.
#[derive(Clone, Copy)]
pub struct MapView {
    pub left: i32,
    pub top: i32,
    pub width: i32,
    pub height: i32,
}

/// The part about a place.
pub fn view_of(ends: &PlaceEnds) -> MapView
    ensures { result ≡ view_of ends.now }
{
    let from = ends.from;
    let to = ends.to;
    MapView {
        left: left(from.x, to.x),
        top: top(from.y, to.y),
        width: span(from.x, to.x),
        height: span(from.y, to.y),
    }
}

// Where a view begins that has these two columns.
fn left(a: i16, b: i16) -> i32
    ensures { result ≡ int_min a b -ℤ pos 256 }
{
    i32::from(a.min(b)) - AROUND
}

// Where one begins that has these two rows.
fn top(a: i16, b: i16) -> i32
    ensures { result ≡ (pos 0 -ℤ int_max a b) -ℤ pos 256 }
{
    -i32::from(a.max(b)) - AROUND
}

// How wide or high it is.
fn span(a: i16, b: i16) -> i32
    ensures { result ≡ (int_max a b -ℤ int_min a b) +ℤ pos 512 }
{
    width(a.min(b), a.max(b))
}

// How wide a view is, from its least column to its greatest.
fn width(low: i16, high: i16) -> i32
    ensures { result ≡ (high -ℤ low) +ℤ pos 512 }
{
    i32::from(high) - i32::from(low) + 2 * AROUND
}

/// Puts `#svgView(viewBox({left},{top},{width},{height}))` before the line: behind a picture's name it shows that part.
pub fn prepend_view(line: &mut TextLine, view: &MapView)
    requires { line.old ≡ [] }
    ensures { line.new ≡ view_text view.now }
{
    line.prepend_bytes(b"))");
    prepend_number(line, &view.height);
    line.prepend_bytes(b",");
    prepend_number(line, &view.width);
    line.prepend_bytes(b",");
    prepend_number(line, &view.top);
    line.prepend_bytes(b",");
    prepend_number(line, &view.left);
    line.prepend_bytes(b"#svgView(viewBox(");
}

// Puts a number before the line; it needs 21 bytes of room.
fn prepend_number(line: &mut TextLine, number: &i32)
    requires { length line.old + 21 ≤ 144 }
    ensures text { line.new ≡ signed_decimal number.now ++ line.old }
    ensures length { length line.new ≤ length line.old + 21 }
{
    line.prepend_integer(i64::from(*number));
}
