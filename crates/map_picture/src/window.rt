//! The part of the map that a picture shows.

ghost use Rattle.std.specs.Prelude.{◌≡◌, ◌+ℤ◌, ◌-ℤ◌, pos};

use map_cells::Frame;

// How far a picture goes beyond the frame, in map units.
const MARGIN: i32 = 32;

/// The part of the map that a picture shows, in an SVG's units: map units, but y goes down.
#[derive(Clone, Copy, Debug, PartialEq, Eq)]
pub struct Window {
    pub left: i32,
    pub top: i32,
    pub width: i32,
    pub height: i32,
}

/// What a picture shows for a frame.
pub fn window_of(frame: Frame) -> Window
    ensures left { result.left ≡ frame.x0 -ℤ pos 32 }
    ensures top { result.top ≡ (pos 0 -ℤ frame.y1) -ℤ pos 32 }
    ensures width { result.width ≡ (frame.x1 -ℤ frame.x0) +ℤ pos 64 }
    ensures height { result.height ≡ (frame.y1 -ℤ frame.y0) +ℤ pos 64 }
{
    Window {
        left: i32::from(frame.x0()) - MARGIN,
        top: top(frame.y1()),
        width: span(frame.x0(), frame.x1()),
        height: span(frame.y0(), frame.y1()),
    }
}

// The top of a picture that goes up to a row of the map.
fn top(row: i16) -> i32
    ensures { result ≡ (pos 0 -ℤ row) -ℤ pos 32 }
{
    -i32::from(row) - MARGIN
}

// How wide or high a picture is.
fn span(low: i16, high: i16) -> i32
    ensures { result ≡ (high -ℤ low) +ℤ pos 64 }
{
    i32::from(high) - i32::from(low) + 2 * MARGIN
}
