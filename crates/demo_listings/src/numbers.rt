//! Numbers behind labels, and names of maps.

ghost use Rattle.std.specs.Prelude.{◌≡◌, ◌+◌, ◌*◌, ◌≤◌, ◌++◌, length};
ghost use Rattle.demo_listings.specs.Listing.{labelled, map_name_text, numbers_text};

use le_rec::Name8;
use lens_texts::prepend_name;
use line_io::TextLine;

/// A number behind its label.
pub fn prepend_labelled(line: &mut TextLine, label: &[u8], number: u64)
    requires room { length line.old + length label.now ≤ 123 }
    ensures text { line.new ≡ labelled label.now number ++ line.old }
    ensures length { length line.new ≤ length line.old + length label.now + 21 }
{
    line.prepend_natural(number);
    line.prepend_bytes(b" ");
    line.prepend_bytes(label);
}

/// Bytes as numbers, each behind a space.
pub fn prepend_numbers(line: &mut TextLine, bytes: &[u8])
    requires { length line.old + 4 * length bytes.now ≤ 144 }
    ensures text { line.new ≡ numbers_text bytes.now ++ line.old }
    ensures length { length line.new ≤ length line.old + 4 * length bytes.now }
{
    for i in (0..bytes.len()).rev() {
        line.prepend_small(bytes[i]);
        line.prepend_bytes(b" ");
    }
}

/// The name of a map, as names are shown.
pub fn prepend_map_name(line: &mut TextLine, name: [u8; 8])
    requires { length line.old ≤ 60 }
    ensures text { line.new ≡ map_name_text name ++ line.old }
    ensures length { length line.new ≤ length line.old + 32 }
{
    if name[0] == 0 {
        line.prepend_bytes(b"(empty)");
    } else {
        prepend_name(line, Name8::stored(name));
    }
}
