//! The colour of a sector.

ghost use Rattle.std.specs.Prelude.{◌≡◌, ◌+◌, ◌≤◌, length};
ghost use Rattle.map_picture.specs.Grey.{cut_light, grey, hex_text, shade};

use le_rec::hex_digit;
use line_io::TextLine;

/// Puts the colour of a sector of a light before the line, as six hexadecimal digits.
#[tactic(auto, unfolding(crate::specs::Grey::grey))]
pub fn prepend_grey(line: &mut TextLine, light: &i16)
    requires { length line.old ≤ 100 }
    ensures text { line.new ≡ grey light.now line.old }
    ensures length { length line.new ≡ length line.old + 6 }
{
    let shade = shade(*light);
    prepend_hex(line, shade + 20);
    prepend_hex(line, shade);
    prepend_hex(line, shade);
}

// How light a sector is drawn.
#[tactic(auto, unfolding(crate::specs::Grey::shade))]
fn shade(light: i16) -> u8
    ensures value { result ≡ shade light }
    ensures below { result ≤ 180 }
{
    (40 + u32::from(cut_light(light)) * 140 / 255) as u8
}

// A light cut to 0..255.
fn cut_light(light: i16) -> u8
    ensures { result ≡ cut_light light }
{
    if light < 0 {
        0
    } else if light > 255 {
        255
    } else {
        light as u8
    }
}

// Puts two hexadecimal digits before the line.
fn prepend_hex(line: &mut TextLine, number: u8)
    requires { length line.old + 2 ≤ 144 }
    ensures text { line.new ≡ hex_text number line.old }
    ensures length { length line.new ≡ length line.old + 2 }
{
    line.prepend_bytes(&[hex_digit(number / 16), hex_digit(number % 16)]);
}
