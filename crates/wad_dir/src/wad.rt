//! The directory of one WAD file.

ghost use Rattle.std.specs.Prelude.{◌≡◌, ◌≢◌, ℕ, ◌*◌, ◌<◌, ◌^◌, ◌↔◌, IfSome, IfNone, Some};
ghost use Rattle.std.specs.Prelude.{List, ◌++◌, length, slice_get};
ghost use Rattle.le_rec.specs.Name.{name_of};
ghost use Rattle.le_rec.specs.Record.{entry_size};
ghost use Rattle.wad_dir.specs.Standing.{StandsAt};

use crate::header::{Header, Kind, kind_of};
use crate::lump::Found;
use crate::standing::{natural, standing_at};
use le_rec::{Entry, Name8, Record, Table};
use std::marker::Model;
use thiserror::Error;

/// Why a file's bytes have no directory.
#[derive(Clone, Copy, Debug, PartialEq, Eq, Error)]
pub enum WadFault {
    /// There are fewer bytes than a header has, which is 12.
    #[error("shorter than a WAD header")]
    Short,
    /// They begin with neither `IWAD` nor `PWAD`.
    #[error("not a WAD file: it begins with neither IWAD nor PWAD")]
    Magic,
    /// The number of entries is negative.
    #[error("a negative count of lumps")]
    Count,
    /// There are entries, and their table isn't all inside the file.
    #[error("its directory isn't inside the file")]
    Directory,
}

/// A WAD file: its kind and its directory. It borrows the file's bytes, and reads an entry when it
/// is asked for.
#[derive(Drop)]
pub struct Wad<'a> {
    bytes: &'a [u8],
    kind: Kind,
    table: &'a [u8],
}

impl<'a> Model for Wad<'a> {
    ghost use Rattle.std.specs.Prelude.{◌≡◌, ◌<◌, ◌^◌, ◌%◌, length};
    ghost use Rattle.le_rec.specs.Record.{entry, entry_size};
    ghost use Rattle.le_rec.specs.Table.{records_of};
    ghost use Rattle.wad_dir.specs.Wad as wad;

    ghost Value = { wad.Wad };

    ghost view = { λ w. record {
      bytes = w.bytes.now;
      kind = w.kind;
      entries = records_of entry_size entry w.table.now;
    } };

    ghost invariant = { λ w. (length w.table.now < 2 ^ 35)
        × (length w.table.now % entry_size ≡ 0) };
}

impl<'a> Wad<'a> {
    ghost use Rattle.wad_dir.specs.Wad as wad;
    ghost use Rattle.wad_dir.specs.Wad.{IsRead};
    ghost use Rattle.wad_dir.specs.Refusal.{RefusesWad};
    ghost use Rattle.wad_dir.specs.Winner.{Wins};
    ghost use Rattle.wad_dir.specs.Entries.{listed_in, names_in};

    /// The file in the bytes, or the first fault that refuses them, in the order of `WadFault`
    /// (`W_AddFile` of w_wad.c). With no entries, the place of their table isn't looked at.
    pub fn read(bytes: &'a [u8]) -> Result<Wad<'a>, WadFault>
        ensures ok { (file : wad.Wad)
            → (result ≡ Ok file) ↔ ((file.bytes ≡ bytes.now) × IsRead file) }
        ensures refused { (fault : _) → (result ≡ Err fault) ↔ RefusesWad bytes.now fault }
    {
        if bytes.len() < Header::SIZE {
            return Err(WadFault::Short);
        }
        let header = Header::read(&bytes[..Header::SIZE]);
        let Some(kind) = kind_of(&header.magic) else {
            return Err(WadFault::Magic);
        };
        let Some(count) = natural(header.count) else {
            return Err(WadFault::Count);
        };
        let Some(table) = table_of(bytes, header.offset, count) else {
            return Err(WadFault::Directory);
        };
        Ok(Wad { bytes, kind, table })
    }

    /// What the file says it is.
    pub fn kind(&self) -> Kind
        ensures { result ≡ self.now.kind }
    {
        self.kind
    }

    /// The number of entries, below 2^31.
    pub fn len(&self) -> usize
        ensures entries { result ≡ length self.now.entries }
        ensures bound { result < 2 ^ 31 }
    {
        self.entries().len()
    }

    // The last entry of a name.
    pub(crate) fn last_named(&self, name: Name8) -> Option<usize>
        ensures some { IfSome result (Wins (names_in self.now) name) }
        ensures none { IfNone result ((i : ℕ) → slice_get (names_in self.now) i ≢ Some name) }
    {
        let bytes = name.bytes();
        let wanted = through_nul(&bytes);
        let entries = self.entries();
        for i in (0..entries.len()).rev() {
            if entries.at(i).name.starts_with(wanted) {
                return Some(i);
            }
        }
        None
    }

    // An entry with the file's number and bytes.
    pub(crate) fn found(&self, file: u32, i: usize) -> Option<Found<'a>>
        ensures { result ≡ slice_get (listed_in file self.now) i }
    {
        let entry = self.entries().get(i)?;
        Some(Found {
            file,
            bytes: self.bytes,
            entry,
        })
    }

    // The same file.
    pub(crate) fn again(&self) -> Wad<'a>
        ensures { result ≡ self.now }
    {
        Wad {
            bytes: self.bytes,
            kind: self.kind,
            table: self.table,
        }
    }

    /// The entries, decoded when they are asked for.
    pub fn entries(&self) -> Table<'a, Entry>
        ensures entries { result.records ≡ self.now.entries }
        ensures bound { length result.records < 2 ^ 31 }
        ensures rest { result.rest ≡ 0 }
    {
        Table::of(self.table)
    }
}

// The bytes of a name up to and with the first NUL: a stored name that begins with them is that
// name, so a look-up compares no more.
fn through_nul(bytes: &[u8; 8]) -> &[u8]
    ensures { (raw : List ℕ) → length raw ≡ 8
        → ((rest : List ℕ) × (raw ≡ result.now ++ rest)) ↔ (name_of raw ≡ name_of bytes.now) }
{
    for (i, byte) in bytes.iter().enumerate() {
        if *byte == 0 {
            return &bytes[..i + 1];
        }
    }
    bytes
}

// The records of a directory, by its count and the place in the header. With no entries, the place
// isn't looked at.
fn table_of(bytes: &[u8], offset: i32, count: usize) -> Option<&[u8]>
    requires { count < 2 ^ 31 }
    ensures size { IfSome result (λ table. length table.now ≡ entry_size * count) }
    ensures some { 0 < count → IfSome result (λ table. StandsAt bytes.now offset table.now) }
    ensures none { IfNone result ((0 < count) × ((table : List ℕ)
        → length table ≡ entry_size * count → ¬ StandsAt bytes.now offset table)) }
{
    if count == 0 {
        return Some(&bytes[..0]);
    }
    standing_at(bytes, offset, count * Entry::SIZE)
}
