//! Lumps packed into a new WAD file.

ghost use Rattle.std.specs.Prelude.{◌≡◌, ◌+◌, ◌*◌, ◌^◌, ◌<◌, ◌≤◌, ◌↔◌, pos, List, ◌∷◌, [], ◌++◌};
ghost use Rattle.std.specs.Prelude.{length, map, vec_len, vec_capacity};
ghost use Rattle.std.specs.Prelude.{IfOk, IfSome, IfNone, OnOk, OnErr, IsErrOf, IsOkUnless};
ghost use Rattle.std.specs.List.{All, AllZip, flat_map};
ghost use Rattle.le_rec.specs.Name.{name_of};
ghost use Rattle.le_rec.specs.Record.{entry_bytes, entry_size};
ghost use Rattle.wad_dir.specs.Header.{header_size, header_bytes, magic_of};
ghost use Rattle.wad_dir.specs.Directory.{IsDirectory};
ghost use Rattle.wad_dir.specs.Slice.{IsSlice};
ghost use Rattle.wad_dir.specs.Packing.{IsName, lump_bytes, packed_entries, packed};

use crate::header::{Header, Kind};
use le_rec::{Entry, Name8, Record};
use std::alloc::{Allocator, Global};
use std::marker::Model;
use thiserror::Error;

/// The most bytes of a packed file, so that each place and size in it is a signed number of four
/// bytes.
pub const MAX_BYTES: usize = 2_147_483_647;

/// Why lumps can't be packed.
#[derive(Clone, Copy, Debug, PartialEq, Eq, Error)]
pub enum PackFault {
    /// A file of the lumps would be larger than 2,147,483,647 bytes.
    #[error("the lumps make a file larger than {max} bytes", max = MAX_BYTES)]
    TooLarge,
    /// A growth was refused.
    #[error("no memory left")]
    Memory,
}

/// Lumps under their names, in the order in which they were added. It borrows the lumps.
#[derive(Drop)]
pub struct Packer<'a, A: Allocator = Global> {
    lumps: Vec<NamedLump<'a>, A>,
}

impl<'a, A: Allocator> Model for Packer<'a, A> {
    ghost use Rattle.std.specs.Prelude.{List};
    ghost use Rattle.wad_dir.specs.Packing.{NamedLump};

    ghost Value = { List NamedLump };

    ghost view = { λ p. p.lumps.items };
}

#[derive(Drop)]
struct NamedLump<'a> {
    name: Name8,
    bytes: &'a [u8],
}

impl<'a> Model for NamedLump<'a> {
    ghost use Rattle.wad_dir.specs.Packing as packing;

    ghost Value = { packing.NamedLump };

    ghost view = { λ l. record { name = l.name; bytes = l.bytes.now } };
}

impl<'a, A: Allocator> Packer<'a, A> {
    /// A packer with no lumps.
    pub fn new(alloc: A) -> Packer<'a, A>
        ensures { result ≡ [] }
    {
        Packer {
            lumps: Vec::new(alloc),
        }
    }

    /// Adds a lump under a name at the end. On `Memory` the packer is unchanged.
    pub fn add(&mut self, name: Name8, bytes: &'a [u8]) -> Result<(), PackFault>
        ensures ok { OnOk result (
            self.new ≡ self.old ++ (record { name = name; bytes = bytes.now }) ∷ []) }
        ensures memory { IsOkUnless result PackFault.Memory }
        ensures err { OnErr result (self.new ≡ self.old) }
    {
        match self.lumps.push(NamedLump { name, bytes }) {
            Ok(()) => Ok(()),
            Err(_) => Err(PackFault::Memory),
        }
    }

    /// The bytes of a PWAD of the lumps, or `TooLarge` past 2,147,483,647 of them. The lumps follow
    /// its header without gaps, an empty one at its place in that order, and then comes the
    /// directory. Room for the whole file is made first; only this step can return `Memory`.
    pub fn pack<B: Allocator>(&self, alloc: B) -> Result<Vec<u8, B>, PackFault>
        ensures ok { IfOk result (λ file. file.items ≡ packed self.now) }
        ensures too_large { IsErrOf result PackFault.TooLarge
            ↔ (2 ^ 31 ≤ length (packed self.now)) }

        // What the file reads as: each entry has its lump's name and its lump's bytes.
        ensures directory { IfOk result (λ file.
            IsDirectory file.items Kind.Pwad (packed_entries self.now)) }
        ensures names { OnOk result (map (λ entry. name_of entry.name) (packed_entries self.now)
            ≡ map (λ lump. lump.name) self.now) }
        ensures slices { IfOk result (λ file.
            AllZip (λ entry lump. IsSlice file.items entry lump.bytes)
            (packed_entries self.now) self.now) }
    {
        let Some(size) = file_size(&self.lumps) else {
            return Err(PackFault::TooLarge);
        };
        let Ok(mut file) = Vec::with_capacity(alloc, size) else {
            return Err(PackFault::Memory);
        };
        put_file(&mut file, &self.lumps, size);
        Ok(file)
    }
}

// The number of bytes of the packed file, unless it would have too many.
fn file_size(lumps: &[NamedLump]) -> Option<usize>
    ensures some { IfSome result (λ size. size ≡ length (packed lumps.now)) }
    ensures most { IfSome result (λ size. size < 2 ^ 31) }
    ensures none { IfNone result (2 ^ 31 ≤ length (packed lumps.now)) }
{
    let mut size = Header::SIZE;
    for lump in lumps {
        let more = lump.bytes.len();
        if more > MAX_BYTES || size + more + Entry::SIZE > MAX_BYTES {
            return None;
        }
        size += more + Entry::SIZE;
    }
    Some(size)
}

// What follows takes no memory: there is room for the whole file.

fn put_file<B: Allocator>(file: &mut Vec<u8, B>, lumps: &[NamedLump], size: usize)
    requires whole { size ≡ length (packed lumps.now) }
    requires most { size < 2 ^ 31 }
    requires room { vec_len file.old + size ≤ vec_capacity file.old }
    ensures file { file.new.items ≡ file.old.items ++ packed lumps.now }
    ensures names { All (λ lump. IsName lump.name) lumps.now }
{
    put_header(file, lumps.len(), size - lumps.len() * Entry::SIZE);
    put_lumps(file, lumps);
    put_entries(file, lumps);
}

fn put_header<B: Allocator>(file: &mut Vec<u8, B>, count: usize, offset: usize)
    requires count_fits { count < 2 ^ 31 }
    requires offset_fits { offset < 2 ^ 31 }
    requires room { vec_len file.old + header_size ≤ vec_capacity file.old }
    ensures header { file.new.items ≡ file.old.items ++ header_bytes (record {
      magic = magic_of Kind.Pwad;
      count = pos count;
      offset = pos offset;
    }) }
    ensures len { vec_len file.new ≡ vec_len file.old + header_size }
    ensures capacity { vec_capacity file.old ≤ vec_capacity file.new }
{
    let header = Header {
        magic: *b"PWAD",
        count: count as i32,
        offset: offset as i32,
    };
    let mut bytes = [0; Header::SIZE];
    header.write(&mut bytes);
    put_bytes(file, &bytes);
}

fn put_lumps<B: Allocator>(file: &mut Vec<u8, B>, lumps: &[NamedLump])
    requires room { vec_len file.old + length (lump_bytes lumps.now) ≤ vec_capacity file.old }
    ensures lumps { file.new.items ≡ file.old.items ++ lump_bytes lumps.now }
    ensures len { vec_len file.new ≡ vec_len file.old + length (lump_bytes lumps.now) }
    ensures capacity { vec_capacity file.old ≤ vec_capacity file.new }
{
    for lump in lumps {
        put_bytes(file, lump.bytes);
    }
}

fn put_entries<B: Allocator>(file: &mut Vec<u8, B>, lumps: &[NamedLump])
    requires places { header_size + length (lump_bytes lumps.now) < 2 ^ 31 }
    requires room { vec_len file.old + entry_size * length lumps.now ≤ vec_capacity file.old }
    ensures entries { file.new.items
        ≡ file.old.items ++ flat_map entry_bytes (packed_entries lumps.now) }
    ensures names { All (λ lump. IsName lump.name) lumps.now }
{
    let mut place = Header::SIZE;
    for lump in lumps {
        let entry = Entry {
            filepos: place as i32,
            size: lump.bytes.len() as i32,
            name: lump.name.bytes(),
        };
        let mut record = [0; Entry::SIZE];
        entry.write(&mut record);
        put_bytes(file, &record);
        place += lump.bytes.len();
    }
}

// Adds bytes at the end, for which there is room.
fn put_bytes<B: Allocator>(file: &mut Vec<u8, B>, bytes: &[u8])
    requires room { vec_len file.old + length bytes.now ≤ vec_capacity file.old }
    ensures items { file.new.items ≡ file.old.items ++ bytes.now }
    ensures len { vec_len file.new ≡ vec_len file.old + length bytes.now }
    ensures capacity { vec_capacity file.old ≤ vec_capacity file.new }
{
    let _ = file.extend_from_slice(bytes);
}
