//! The engines for a page in a browser: exports over memory that a host hands in. Words, files and input come in slices, and
//! answers are written into slices. All other memory of an engine comes from the host's block.
#![tactic(auto)]

ghost use Rattle.std.specs.Prelude.{IfSome};
ghost use Rattle.wad_page.specs.DrawEnded.{DrawEnds};
ghost use Rattle.wad_page.specs.Lens.{LensEnds, Lensed};
ghost use Rattle.wad_page.specs.LinedefsEnded.{LinedefsEnd};
ghost use Rattle.wad_page.specs.Look.{LookEnds, Looked};
ghost use Rattle.wad_page.specs.SketchEnded.{SketchEnds};

mod draw;
mod lens;
mod linedefs;
mod look;
mod parts;
mod refusal;
mod sketch;

use block_alloc::{HostBlock, arena};
use draw::{DrawQuestion, draw};
use le_rec::Sink;
use lens::{LensQuestion, lens_into, lens_message};
use lens_calls::{LensFault, lens_status};
use linedefs::{LinedefsQuestion, list_out};
use look::do_words;
use memory_streams::{ToVec, hand_out};
use parts::SizedBytes;
use refusal::{exit_status, tell};
use sketch::{SketchQuestion, sketch_out};

/// How a run ended, as the host reads it.
#[repr(C)]
#[derive(Drop)]
pub struct Ended {
    /// The program's status: 0 done, 1 a fault was found, 2 refused or not judged, 3 no memory, or no room in `out`.
    pub status: u8,
    /// How many bytes of `out` the answer has.
    pub answered: usize,
    /// How many bytes of `why` were written.
    pub told: usize,
}

// The status where there is no room.
const FULL: u8 = 3;

// The end of a run that lacks room.
const NO_ROOM: Ended = Ended {
    status: FULL,
    answered: 0,
    told: 0,
};

/// Does what words of `wadlook` ask for. Their files are the ones handed in, one for each path, in order. The answer goes into
/// `out`. The reason of a refusal goes into `why`, as far as there is room.
///
/// The host must keep what no contract can check. Each slice stays valid until the call has returned, and none overlaps another
/// or the block. Nobody else uses the block, and no second call does.
#[unsafe(no_mangle)]
pub extern "C" fn run_wadlook(
    heap: HostBlock,
    words: &[u8],
    word_sizes: &[usize],
    files: &[u8],
    file_sizes: &[usize],
    input: &[u8],
    out: &mut [u8],
    why: &mut [u8],
    ended: &mut Ended,
)
    ensures { LookEnds words.now word_sizes.now files.now file_sizes.now input.now out.old out.new why.old why.new ended.new }
{
    let words = SizedBytes {
        bytes: words,
        sizes: word_sizes,
    };
    let files = SizedBytes {
        bytes: files,
        sizes: file_sizes,
    };
    *ended = answer_look(heap, words, files, input, out, why).unwrap_or(NO_ROOM);
}

/// Answers a question of `wadlens` over the files that are handed in, one for each path, in order. The answer goes into `out`,
/// and what the program writes to standard error into `why`.
///
/// The host must keep the same as for `run_wadlook`.
#[unsafe(no_mangle)]
pub extern "C" fn run_wadlens(
    heap: HostBlock,
    question: &LensQuestion,
    paths: &[u8],
    path_sizes: &[usize],
    files: &[u8],
    file_sizes: &[usize],
    out: &mut [u8],
    why: &mut [u8],
    ended: &mut Ended,
)
    ensures { LensEnds question.now paths.now path_sizes.now files.now file_sizes.now out.old out.new why.old why.new ended.new }
{
    let paths = SizedBytes {
        bytes: paths,
        sizes: path_sizes,
    };
    let files = SizedBytes {
        bytes: files,
        sizes: file_sizes,
    };
    *ended = answer_lens(heap, question, paths, files, out, why).unwrap_or(NO_ROOM);
}

/// Draws the level whose label is the first entry of a file, as `wadlens cut` packs one, into `out`. Status 2 where the question
/// is out of its bounds, too.
///
/// What the host keeps is as for `run_wadlook`.
#[unsafe(no_mangle)]
pub extern "C" fn draw_picture(
    heap: HostBlock,
    file: &[u8],
    question: &DrawQuestion,
    out: &mut [u8],
    ended: &mut Ended,
)
    ensures { DrawEnds file.now question.now out.old out.new ended.new }
{
    *ended = draw(heap, file, question, out).unwrap_or(NO_ROOM);
}

/// Lists the linedefs of the level whose label is the first entry of a file, as `wadlens cut` packs one, into `out`: of each six
/// numbers of four bytes, the lowest first. They are x y x y of its vertexes in map units, and the sectors in front and at the
/// back. -2147483648 stands for a sector that isn't there, and for all four of x y x y where a vertex isn't. Status 0, or 2 where
/// there is no such level.
///
/// What the host keeps is as for `run_wadlook`.
#[unsafe(no_mangle)]
pub extern "C" fn list_linedefs(
    heap: HostBlock,
    file: &[u8],
    question: &LinedefsQuestion,
    out: &mut [u8],
    ended: &mut Ended,
)
    ensures { LinedefsEnd file.now question.now.wide out.old out.new ended.new }
{
    *ended = list_out(heap, file, question, out).unwrap_or(NO_ROOM);
}

/// Tells what can be read of the level whose label is an entry of a file, whatever its format, into `out`: numbers of four bytes, the
/// lowest first, as `sketch_numbers` of `map_sketch` has them. Status 0, or 2 where there is no such entry.
///
/// What the host keeps is as for `run_wadlook`.
#[unsafe(no_mangle)]
pub extern "C" fn sketch_level(
    heap: HostBlock,
    file: &[u8],
    question: &SketchQuestion,
    out: &mut [u8],
    ended: &mut Ended,
)
    ensures { SketchEnds file.now question.now.entry out.old out.new ended.new }
{
    *ended = sketch_out(heap, file, question, out).unwrap_or(NO_ROOM);
}

// What `run_wadlook` answers, where there is room.
fn answer_look(
    heap: HostBlock,
    words: SizedBytes<'_>,
    files: SizedBytes<'_>,
    input: &[u8],
    out: &mut [u8],
    why: &mut [u8],
) -> Option<Ended>
    ensures { IfSome result (Looked words.entry.bytes.now words.entry.sizes.now files.entry.bytes.now files.entry.sizes.now input.now
        out.old out.new why.old why.new) }
{
    let arena = arena(heap)?;
    let mut sink = ToVec::with_capacity(&arena, out.len()).ok()?;
    let outcome = do_words(&arena, words, files, input, &mut sink);
    let status = exit_status(&outcome);
    if sink.failed() || status == FULL {
        return None;
    }
    let answered = hand_out(sink.taken(), out)?;
    let told = tell(&arena, &outcome, why)?;
    Some(Ended {
        status,
        answered,
        told,
    })
}

// What `run_wadlens` answers, where there is room.
fn answer_lens(
    heap: HostBlock,
    question: &LensQuestion,
    paths: SizedBytes<'_>,
    files: SizedBytes<'_>,
    out: &mut [u8],
    why: &mut [u8],
) -> Option<Ended>
    ensures { IfSome result (Lensed question.now paths.entry.bytes.now paths.entry.sizes.now files.entry.bytes.now files.entry.sizes.now out.old out.new why.old why.new) }
{
    let arena = arena(heap)?;
    let sink = ToVec::with_capacity(&arena, out.len()).ok()?;
    let mut messages = ToVec::with_capacity(&arena, why.len()).ok()?;
    let (sink, outcome) = lens_into(&arena, question, paths, files, sink, &mut messages);
    if outcome == Err(LensFault::Full) {
        return None;
    }
    let answered = hand_out(sink.taken(), out)?;
    let told = hand_out(lens_message(&outcome, messages.taken()), why)?;
    Some(Ended {
        status: lens_status(&outcome),
        answered,
        told,
    })
}
