//! The sectors of a picture.

ghost use Rattle.std.specs.Prelude.{◌≡◌, ◌+◌, ◌<◌, ◌≤◌, ◌^◌, ◌++◌, [], codes, false, length, slice_index_or};
ghost use Rattle.line_io.specs.Writes.{Writes};
ghost use Rattle.map_picture.specs.Sectors.{block_text, ceiling_text, fill_text, flat_text, floor_text, rest_text, sector_line};

use crate::grey::prepend_grey;
use crate::word::prepend_word;
use le_rec::{Name8, Sector, Sink};
use lens_texts::escape::write_escaped;
use lens_texts::parts::{TextParts, write_parts};
use line_io::{IoFault, TextLine, emit};
use map_cells::Block;

/// The cells of a picture that show a sector.
#[derive(Clone, Copy)]
pub struct SectorCells<'b> {
    /// The sector's number.
    pub number: u16,
    /// The cells in blocks.
    pub blocks: &'b [Block],
    /// How many there are.
    pub cells: u32,
}

#[derive(Drop)]
struct BlockTexts<'b> {
    blocks: &'b [Block],
}

impl TextParts for BlockTexts<'_> {
    ghost use Rattle.std.specs.Prelude.{map};
    ghost use Rattle.map_picture.specs.Sectors.{block_text};

    ghost parts = { λ texts. map block_text texts.blocks.now };

    fn count(&self) -> usize {
        self.blocks.len()
    }

    fn write<W: Sink>(&self, number: usize, out: &mut W) -> Result<(), IoFault> {
        write_block(&self.blocks[number], out)
    }
}

// Writes a block.
fn write_block<W: Sink>(block: &Block, out: &mut W) -> Result<(), IoFault>
    requires { (W.state out.old).failed ≡ false }
    ensures { Writes (W.state out.old) (W.state out.new) (block_text block.now) result }
{
    let mut line = TextLine::new();
    prepend_block(&mut line, block);
    emit(out, line.as_bytes())
}

// `M{column} {row}h{width}v{height}h-{width}z`
fn prepend_block(line: &mut TextLine, block: &Block)
    requires { line.old ≡ [] }
    ensures { line.new ≡ block_text block.now }
{
    line.prepend_bytes(b"z");
    line.prepend_natural(u64::from(block.width));
    line.prepend_bytes(b"h-");
    line.prepend_natural(u64::from(block.height));
    line.prepend_bytes(b"v");
    line.prepend_natural(u64::from(block.width));
    line.prepend_bytes(b"h");
    line.prepend_natural(u64::from(block.row));
    line.prepend_bytes(b" ");
    line.prepend_natural(u64::from(block.column));
    line.prepend_bytes(b"M");
}

#[derive(Drop)]
struct SectorLine<'b> {
    number: u16,
    sector: &'b Sector,
    blocks: BlockTexts<'b>,
    cells: u32,
}

impl TextParts for SectorLine<'_> {
    ghost use Rattle.std.specs.Prelude.{[], ◌∷◌, map};
    ghost use Rattle.lens_texts.specs.Parts.{joined};
    ghost use Rattle.map_picture.specs.Sectors.{block_text, ceiling_text, fill_text, flat_text, floor_text, rest_text};

    ghost parts = { λ line. fill_text line.sector.now ∷ joined (map block_text line.blocks.blocks.now) ∷ floor_text line.number line.sector.now
        ∷ flat_text line.sector.now.floor_name ∷ ceiling_text line.sector.now ∷ flat_text line.sector.now.ceiling_name
        ∷ rest_text line.sector.now line.cells ∷ [] };

    fn count(&self) -> usize {
        7
    }

    fn write<W: Sink>(&self, number: usize, out: &mut W) -> Result<(), IoFault> {
        let sector = self.sector;
        match number {
            0 => write_fill(sector, out),
            1 => write_parts(&self.blocks, out),
            2 => write_floor(self.number, sector, out),
            3 => write_flat(&sector.floor_name, out),
            4 => write_ceiling(sector, out),
            5 => write_flat(&sector.ceiling_name, out),
            _ => write_rest(sector, self.cells, out),
        }
    }
}

/// Writes the line of a sector that blocks show.
pub fn write_sector<W: Sink>(
    number: u16,
    sector: &Sector,
    blocks: &[Block],
    cells: u32,
    out: &mut W,
) -> Result<(), IoFault>
    requires { (W.state out.old).failed ≡ false }
    ensures { Writes (W.state out.old) (W.state out.new) (sector_line number sector.now blocks.now cells) result }
{
    let blocks = BlockTexts { blocks };
    write_parts(
        &SectorLine {
            number,
            sector,
            blocks,
            cells,
        },
        out,
    )
}

// `<path fill="#{grey}" d="`
fn write_fill<W: Sink>(sector: &Sector, out: &mut W) -> Result<(), IoFault>
    requires { (W.state out.old).failed ≡ false }
    ensures { Writes (W.state out.old) (W.state out.new) (fill_text sector.now) result }
{
    let mut line = TextLine::new();
    prepend_fill(&mut line, sector);
    emit(out, line.as_bytes())
}

fn prepend_fill(line: &mut TextLine, sector: &Sector)
    requires { line.old ≡ [] }
    ensures { line.new ≡ fill_text sector.now }
{
    line.prepend_bytes(b"\" d=\"");
    prepend_grey(line, &sector.light);
    line.prepend_bytes(b"<path fill=\"#");
}

// `sector {s}: floor {h} `
fn write_floor<W: Sink>(number: u16, sector: &Sector, out: &mut W) -> Result<(), IoFault>
    requires { (W.state out.old).failed ≡ false }
    ensures { Writes (W.state out.old) (W.state out.new) (floor_text number sector.now) result }
{
    let mut line = TextLine::new();
    line.prepend_bytes(b" ");
    prepend_word(&mut line, &sector.floor);
    line.prepend_bytes(b": floor ");
    line.prepend_natural(u64::from(number));
    line.prepend_bytes(b"\"><title>sector ");
    emit(out, line.as_bytes())
}

// `, ceiling {h} `
fn write_ceiling<W: Sink>(sector: &Sector, out: &mut W) -> Result<(), IoFault>
    requires { (W.state out.old).failed ≡ false }
    ensures { Writes (W.state out.old) (W.state out.new) (ceiling_text sector.now) result }
{
    let mut line = TextLine::new();
    line.prepend_bytes(b" ");
    prepend_word(&mut line, &sector.ceiling);
    line.prepend_bytes(b", ceiling ");
    emit(out, line.as_bytes())
}

// Writes a flat's name as it is shown.
fn write_flat<W: Sink>(stored: &[u8; 8], out: &mut W) -> Result<(), IoFault>
    requires { (W.state out.old).failed ≡ false }
    ensures { Writes (W.state out.old) (W.state out.new) (flat_text stored.now) result }
{
    let mut text = [0; 32];
    let len = Name8::stored(*stored).shown(&mut text);
    write_escaped(&text[..len], out)
}

// `, light {l}, special {s}, tag {t}, {n} cells`
fn write_rest<W: Sink>(sector: &Sector, cells: u32, out: &mut W) -> Result<(), IoFault>
    requires { (W.state out.old).failed ≡ false }
    ensures { Writes (W.state out.old) (W.state out.new) (rest_text sector.now cells) result }
{
    let mut line = TextLine::new();
    prepend_rest(&mut line, sector, u64::from(cells));
    emit(out, line.as_bytes())
}

fn prepend_rest(line: &mut TextLine, sector: &Sector, cells: u64)
    requires { line.old ≡ [] }
    ensures { line.new ≡ rest_text sector.now cells }
{
    line.prepend_bytes(b" cells</title></path>\n");
    line.prepend_natural(cells);
    line.prepend_bytes(b", ");
    prepend_word(line, &sector.tag);
    line.prepend_bytes(b", tag ");
    prepend_word(line, &sector.special);
    line.prepend_bytes(b", special ");
    prepend_word(line, &sector.light);
    line.prepend_bytes(b", light ");
}
