//! The files of a page that are refused.

ghost use Rattle.std.specs.Prelude.{◌≡◌, [], false, length};
ghost use Rattle.line_io.specs.Writes.{Writes};
ghost use Rattle.lens_texts.specs.Parts.{joined};
ghost use Rattle.atlas_page.specs.Refused.{refused_item, refused_part};

use crate::text::write_page_path;
use le_rec::Sink;
use lens_engines::FileRefusal;
use lens_texts::parts::{TextParts, write_parts};
use line_io::{IoFault, emit};

/// A refused file.
#[derive(Clone, Copy, Debug, PartialEq, Eq)]
pub struct RefusedFile<'p> {
    pub path: &'p [u8],
    pub why: FileRefusal,
}

#[derive(Drop)]
struct ItemParts<'r, 'p> {
    refused: &'r RefusedFile<'p>,
}

impl TextParts for ItemParts<'_, '_> {
    ghost use Rattle.atlas_page.specs.Refused.{item_parts};

    ghost parts = { λ parts. item_parts parts.refused.now };

    fn count(&self) -> usize {
        5
    }

    fn write<W: Sink>(&self, number: usize, out: &mut W) -> Result<(), IoFault> {
        match number {
            0 => emit(out, b"<li><b>"),
            1 => write_page_path(self.refused.path, out),
            2 => emit(out, b"</b> "),
            3 => emit(out, self.refused.why.text()),
            _ => emit(out, b"</li>\n"),
        }
    }
}

// Writes the item of a refused file.
fn write_item<W: Sink>(refused: &RefusedFile<'_>, out: &mut W) -> Result<(), IoFault>
    requires { (W.state out.old).failed ≡ false }
    ensures { Writes (W.state out.old) (W.state out.new) (refused_item refused.now) result }
{
    write_parts(&ItemParts { refused }, out)
}

#[derive(Drop)]
struct Items<'r, 'p> {
    refused: &'r [RefusedFile<'p>],
}

impl TextParts for Items<'_, '_> {
    ghost use Rattle.std.specs.Prelude.{map};
    ghost use Rattle.atlas_page.specs.Refused.{refused_item};

    ghost parts = { λ items. map refused_item items.refused.now };

    fn count(&self) -> usize {
        self.refused.len()
    }

    fn write<W: Sink>(&self, number: usize, out: &mut W) -> Result<(), IoFault> {
        write_item(&self.refused[number], out)
    }
}

#[derive(Drop)]
struct RefusedParts<'r, 'p> {
    items: Items<'r, 'p>,
}

impl TextParts for RefusedParts<'_, '_> {
    ghost use Rattle.atlas_page.specs.Refused.{list_parts};

    ghost parts = { λ parts. list_parts parts.items.refused.now };

    fn count(&self) -> usize {
        3
    }

    fn write<W: Sink>(&self, number: usize, out: &mut W) -> Result<(), IoFault> {
        match number {
            0 => emit(out, b"<ul class=\"refused\">\n"),
            1 => write_parts(&self.items, out),
            _ => emit(out, b"</ul>\n"),
        }
    }
}

/// Writes the list of the refused files, where there are any.
pub fn write_refused<W: Sink>(refused: &[RefusedFile<'_>], out: &mut W) -> Result<(), IoFault>
    requires { (W.state out.old).failed ≡ false }
    ensures { Writes (W.state out.old) (W.state out.new) (refused_part refused.now) result }
{
    if refused.is_empty() {
        return emit(out, b"");
    }
    let items = Items { refused };
    write_parts(&RefusedParts { items }, out)
}
