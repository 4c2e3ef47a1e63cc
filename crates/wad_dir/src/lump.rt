//! An entry's lump in its file.

ghost use Rattle.std.specs.Prelude.{ℕ, List, IfSome, IfNone, length, ◌<◌, ◌^◌};
ghost use Rattle.wad_dir.specs.Slice.{IsSlice};

use crate::standing::{natural, standing_at};
use le_rec::Entry;
use std::marker::Model;
use thiserror::Error;

/// Why an entry's lump can't be read.
#[derive(Clone, Copy, Debug, PartialEq, Eq, Error)]
pub enum LumpFault {
    /// There are not so many entries.
    #[error("no such lump")]
    NoSuch,
    /// The lump isn't all inside the entry's file.
    #[error("outside its file")]
    Outside,
}

/// An entry with its file's number and bytes.
#[derive(Drop)]
pub struct Found<'a> {
    pub file: u32,
    pub bytes: &'a [u8],
    pub entry: Entry,
}

impl<'a> Model for Found<'a> {
    ghost use Rattle.wad_dir.specs.Entries.{Listed};

    ghost Value = { Listed };

    ghost view = { λ f. record { file = f.file; bytes = f.bytes.now; entry = f.entry } };
}

/// The bytes of an entry's lump, if all of them are in the file (`W_ReadLump` of w_wad.c). For an
/// empty lump the place isn't looked at.
pub fn lump_of<'a>(bytes: &'a [u8], entry: &Entry) -> Option<&'a [u8]>
    ensures some { IfSome result (λ lump. IsSlice bytes.now entry.now lump.now) }
    ensures none { IfNone result ((lump : List ℕ) → ¬ IsSlice bytes.now entry.now lump) }
    ensures short { IfSome result (λ lump. length lump.now < 2 ^ 31) }
{
    if entry.size == 0 {
        return Some(&bytes[..0]);
    }
    standing_at(bytes, entry.filepos, natural(entry.size)?)
}
