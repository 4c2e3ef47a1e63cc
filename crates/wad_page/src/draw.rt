//! The picture of the first level of a file.

ghost use Rattle.std.specs.Prelude.{◌≡◌, false, IfErr, IfNone, IfOk, IfSome};
ghost use Rattle.wad_page.specs.Draw.{DrawsFirst, DrawsLevel, RefusesDrawing, RefusesFirst};
ghost use Rattle.wad_page.specs.DrawEnded.{AnswersDrawing, IsAsked, IsOutOfBounds, draw_status};

use crate::Ended;
use crate::lens::reading_of;
use block_alloc::{HostBlock, arena};
use le_rec::Sink;
use map_cells::{CellCount, Frame};
use map_level::{Level, LevelFault, Reading};
use map_picture::{DrawFault, View, draw_level};
use memory_streams::{ToVec, hand_out};
use std::alloc::Allocator;
use wad_dir::{Set, SetFault, WadFault};

/// What is drawn, in the host's layout.
#[repr(C)]
#[derive(Clone, Copy)]
pub struct DrawQuestion {
    /// How many cells the longer side has at most, from 1 to 1024.
    pub cells: u32,
    /// 0 to read indexes as signed numbers, else they are read as numbers from 0 to 65535.
    pub wide: u8,
    /// 0 for the frame of the level's linedefs, else the frame is the one of these bounds, in map units.
    pub framed: u8,
    pub x0: i16,
    pub y0: i16,
    pub x1: i16,
    pub y1: i16,
}

/// The end of a run that is refused.
pub const REFUSED: Ended = Ended {
    status: 2,
    answered: 0,
    told: 0,
};

/// Draws the first level of a file into `out`; None where there is no room.
pub fn draw(heap: HostBlock, file: &[u8], question: &DrawQuestion, out: &mut [u8]) -> Option<Ended>
    ensures { IfSome result (AnswersDrawing file.now question.now out.old out.new) }
{
    let Some(view) = view_of(question) else {
        return Some(REFUSED);
    };
    let arena = arena(heap)?;
    let mut sink = ToVec::with_capacity(&arena, out.len()).ok()?;
    let outcome = draw_first(&arena, file, reading_of(question.wide), view, &mut sink);
    if outcome == Err(PictureFault::Full) {
        return None;
    }
    let answered = hand_out(sink.taken(), out)?;
    Some(Ended {
        status: draw_status(&outcome),
        answered,
        told: 0,
    })
}

// The question for the engine; None if it is out of bounds.
fn view_of(question: &DrawQuestion) -> Option<View>
    ensures some { IfSome result (IsAsked question.now) }
    ensures none { IfNone result (IsOutOfBounds question.now) }
{
    let Some(cells) = CellCount::new(question.cells) else {
        return None;
    };
    if question.framed == 0 {
        return Some(View {
            frame: None,
            cells,
            warnings: None,
        });
    }
    let frame = Frame::new(question.x0, question.y0, question.x1, question.y1)?;
    Some(View {
        frame: Some(frame),
        cells,
        warnings: None,
    })
}

fn draw_status(outcome: &Result<bool, PictureFault>) -> u8
    ensures { result ≡ draw_status outcome.now }
{
    match *outcome {
        Ok(false) => 0,
        Ok(true) => 1,
        Err(PictureFault::Full) => 3,
        Err(_) => 2,
    }
}

/// Why a file's first level isn't drawn.
#[derive(Clone, Copy, Debug, PartialEq, Eq)]
pub enum PictureFault {
    /// The bytes have no directory.
    NoWad(WadFault),
    /// The directory has no entry.
    NoEntry,
    /// A lump behind the first entry isn't there, or lies outside the file.
    NoLevel(LevelFault),
    /// No linedef has both of its vertexes, and no frame is asked for.
    NothingToDraw,
    /// A growth was refused, or the output failed.
    Full,
}

// Writes the picture of the level whose label is the first entry of a file's bytes, as `cut` packs one, and returns whether it
// has a fault. The level's format isn't checked: the caller knows that it is Doom's.
fn draw_first<A: Allocator + Copy, W: Sink>(
    alloc: A,
    bytes: &[u8],
    reading: Reading,
    asked: View,
    out: &mut W,
) -> Result<bool, PictureFault>
    requires sound { (W.state out.old).failed ≡ false }
    ensures drawn { IfOk result (DrawsFirst bytes.now reading asked (W.state out.old) (W.state out.new)) }
    ensures refused { IfErr result (RefusesFirst bytes.now reading asked out.old out.new) }
{
    match Set::one(alloc, bytes) {
        Ok(set) => draw_entry(alloc, &set, reading, asked, out),
        Err(SetFault::File(_, fault)) => Err(PictureFault::NoWad(fault)),
        Err(SetFault::Memory) => Err(PictureFault::Full),
    }
}

// Writes the picture of the level whose label is the first entry of a set.
fn draw_entry<A: Allocator + Copy, W: Sink>(
    alloc: A,
    set: &Set<'_, A>,
    reading: Reading,
    asked: View,
    out: &mut W,
) -> Result<bool, PictureFault>
    requires sound { (W.state out.old).failed ≡ false }
    ensures drawn { IfOk result (DrawsLevel set.now reading asked (W.state out.old) (W.state out.new)) }
    ensures refused { IfErr result (RefusesDrawing set.now reading asked out.old out.new) }
{
    if set.total() == 0 {
        return Err(PictureFault::NoEntry);
    }
    match Level::at(set, 0, reading) {
        Ok(level) => match draw_level(alloc, &level, asked, out) {
            Ok(faulty) => Ok(faulty),
            Err(DrawFault::NothingToDraw) => Err(PictureFault::NothingToDraw),
            Err(_) => Err(PictureFault::Full),
        },
        Err(fault) => Err(PictureFault::NoLevel(fault)),
    }
}
