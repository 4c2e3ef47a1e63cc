//! What can be read of the level at an entry of a file, whatever its format, as numbers for the host.

ghost use Rattle.std.specs.Prelude.{◌≡◌, IfErr, IfOk, IfSome};
ghost use Rattle.std.specs.List.{flat_map};
ghost use Rattle.le_rec.specs.Number.{signed_bytes32};
ghost use Rattle.wad_page.specs.Sketched.{RefusesEntry, RefusesSketch, SketchesEntry, SketchesFile};
ghost use Rattle.wad_page.specs.SketchEnded.{AnswersSketch};

use crate::Ended;
use crate::draw::REFUSED;
use block_alloc::{HostBlock, arena};
use byteorder::{ByteOrder, LittleEndian};
use map_sketch::sketch_numbers;
use memory_streams::hand_out;
use std::alloc::{AllocError, Allocator};
use wad_dir::{Set, SetFault, WadFault};

/// Which level is meant, in the host's layout.
#[repr(C)]
#[derive(Clone, Copy)]
pub struct SketchQuestion {
    /// The number of its label among the file's entries, from 0.
    pub entry: u64,
}

/// Why nothing of a level is told.
#[derive(Clone, Copy, Debug, PartialEq, Eq)]
pub enum SketchFault {
    /// The bytes have no directory.
    NoWad(WadFault),
    /// The directory has no entry of this number.
    NoEntry,
    /// A growth was refused.
    Memory,
}

impl From<AllocError> for SketchFault {
    ghost use Rattle.wad_page.specs.declared.sketch.SketchFault.TheVariants.{Memory};

    ghost from_gives = { λ _ fault. fault ≡ Memory };

    fn from(_error: AllocError) -> SketchFault {
        SketchFault::Memory
    }
}

/// Tells what can be read of the level at an entry of a file into `out`; None where there is no room.
pub fn sketch_out(
    heap: HostBlock,
    file: &[u8],
    question: &SketchQuestion,
    out: &mut [u8],
) -> Option<Ended>
    ensures { IfSome result (AnswersSketch file.now question.now.entry out.old out.new) }
{
    let arena = arena(heap)?;
    match sketch_file(&arena, file, question.entry) {
        Ok(list) => {
            let answered = hand_out(&list, out)?;
            Some(Ended {
                status: 0,
                answered,
                told: 0,
            })
        }
        Err(SketchFault::Memory) => None,
        Err(_) => Some(REFUSED),
    }
}

// The numbers of what can be read of the level at an entry of a file's bytes.
fn sketch_file<A: Allocator + Copy>(
    alloc: A,
    bytes: &[u8],
    entry: u64,
) -> Result<Vec<u8, A>, SketchFault>
    ensures told { IfOk result (λ list. SketchesFile bytes.now entry list.items) }
    ensures refused { IfErr result (RefusesSketch bytes.now entry) }
{
    match Set::one(alloc, bytes) {
        Ok(set) => sketch_entry(alloc, &set, entry),
        Err(SetFault::File(_, fault)) => Err(SketchFault::NoWad(fault)),
        Err(SetFault::Memory) => Err(SketchFault::Memory),
    }
}

// The numbers of what can be read of the level at an entry of a set.
fn sketch_entry<A: Allocator + Copy>(
    alloc: A,
    set: &Set<'_, A>,
    entry: u64,
) -> Result<Vec<u8, A>, SketchFault>
    ensures told { IfOk result (λ list. SketchesEntry set.now entry list.items) }
    ensures refused { IfErr result (RefusesEntry set.now entry) }
{
    let g = entry as usize;
    if g >= set.total() {
        return Err(SketchFault::NoEntry);
    }
    let numbers = sketch_numbers(alloc, set, g)?;
    let list = bytes_of(alloc, &numbers)?;
    Ok(list)
}

// Numbers as bytes, of each the lowest first.
fn bytes_of<A: Allocator>(alloc: A, numbers: &[i32]) -> Result<Vec<u8, A>, AllocError>
    ensures { IfOk result (λ list. list.items ≡ flat_map signed_bytes32 numbers.now) }
{
    let mut bytes = vec![in alloc; 0; 4 * numbers.len()]?;
    LittleEndian::write_i32_into(numbers, &mut bytes);
    Ok(bytes)
}
