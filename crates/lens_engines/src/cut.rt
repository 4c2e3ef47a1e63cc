//! A level cut out of a file: the one whose label is an entry, as a file of its own.

ghost use Rattle.std.specs.Prelude.{◌≡◌, ◌↔◌, ◌+◌, ◌<◌, ◌≤◌, ◌∷◌, [], false, length, IsTrue, IfErr, IfNone, IfOk, IfSome, OnOk, Some};
ghost use Rattle.std.specs.List.{slice_get};
ghost use Rattle.level_starts.specs.LevelFile.{HoldsLumps};
ghost use Rattle.level_starts.specs.Starts.{LevelStartsAt};
ghost use Rattle.level_starts.specs.declared.format.Format.TheVariants as format;
ghost use Rattle.line_io.specs.Writes.{Writes};
ghost use Rattle.wad_dir.specs.Entries.{joined, names};
ghost use Rattle.wad_dir.specs.Packing.{packed};
ghost use Rattle.lens_engines.specs.Cut.{AddsLump, Belong, BelongAt, CutsLevel, HasLump, HasLumpsAt, HasPlace, HasScripts, IsCut, IsEndMap, LacksEndMap, LacksLump};
ghost use Rattle.lens_engines.specs.Cut.{RefusesCut, RefusesEntry, RefusesLevel, RefusesPack, RunsCut, cut_fault_text, uncut_text};
ghost use Rattle.lens_texts.specs.Label.{IsLabelOf};

use crate::object::FileRefusal;
use le_rec::{Name8, Sink};
use lens_texts::{
    LevelLabel, Unread, label_looked_up, prepend_label, prepend_name, write_both,
    write_format_alone,
};
use level_starts::{Format, format_of, is_named, next_start};
use line_io::{IoFault, TextLine, emit};
use std::alloc::Allocator;
use thiserror::Error;
use wad_dir::{MAX_BYTES, PackFault, Packer, Set, SetFault, WadFault};

/// Why a level isn't cut out.
#[derive(Clone, Copy, Debug, PartialEq, Eq, Error)]
pub enum CutFault {
    /// The file's bytes have no directory.
    #[error("{0}")]
    NoWad(WadFault),
    /// No level starts at the entry of this number.
    #[error("no level starts at entry {0}")]
    NoLevel(u64),
    /// The level of this label can't be cut out.
    #[error("{1}")]
    Level(LevelLabel, Uncut),
    /// A growth was refused.
    #[error("no memory left")]
    Memory,
    /// The output failed.
    #[error("the output can't be written")]
    Write,
}

/// Why a level that starts isn't cut out.
#[derive(Clone, Copy, Debug, PartialEq, Eq, Error)]
pub enum Uncut {
    /// The entry at this place, from 1 to 10, isn't there or hasn't the usual name.
    #[error("its entry {0} isn't there, or isn't named as usual")]
    Incomplete(u32),
    /// The first lump of it that isn't inside the file has this name.
    #[error("a lump of it is outside the file")]
    Outside(Name8),
    /// A level in text has no ENDMAP.
    #[error("no ENDMAP follows TEXTMAP")]
    NoEndMap,
    /// The file of the level would be larger than 2,147,483,647 bytes.
    #[error("larger than {max} bytes", max = MAX_BYTES)]
    TooLarge,
}

/// Writes a PWAD of the level whose label is the entry of this number. It holds the label, without bytes, and the lumps that
/// belong to it, under their entries' names. These are the ten behind the label. In Hexen's format BEHAVIOR belongs to them,
/// and SCRIPTS if it follows. Of a UDMF level they are all lumps to the first ENDMAP. Every fault but `Write` comes before
/// anything is written.
pub fn cut_level<A: Allocator + Copy, W: Sink>(
    alloc: A,
    bytes: &[u8],
    entry: u64,
    out: &mut W,
) -> Result<(), CutFault>
    requires { (W.state out.old).failed ≡ false }
    ensures runs { RunsCut W.state bytes.now entry out.old out.new result }
    ensures lump { IfErr result HasLump }
{
    let file = match cut_file(alloc, bytes, entry) {
        Ok(file) => file,
        Err(fault) => return Err(fault),
    };
    match emit(out, file.as_slice()) {
        Ok(()) => Ok(()),
        Err(_) => Err(CutFault::Write),
    }
}

// The file of the level at an entry of a file's bytes.
fn cut_file<A: Allocator + Copy>(alloc: A, bytes: &[u8], entry: u64) -> Result<Vec<u8, A>, CutFault>
    ensures ok { IfOk result (λ file. IsCut bytes.now entry file.items) }
    ensures err { IfErr result (RefusesCut bytes.now entry) }
    ensures lump { IfErr result HasLump }
{
    match Set::one(alloc, bytes) {
        Ok(set) => cut_entry(alloc, &set, entry),
        Err(SetFault::File(_, fault)) => Err(CutFault::NoWad(fault)),
        Err(SetFault::Memory) => Err(CutFault::Memory),
    }
}

// The file of the level at an entry of a set.
fn cut_entry<'a, A: Allocator + Copy>(
    alloc: A,
    set: &Set<'a, A>,
    entry: u64,
) -> Result<Vec<u8, A>, CutFault>
    ensures ok { IfOk result (λ file. CutsLevel set.now entry file.items) }
    ensures err { IfErr result (RefusesEntry set.now entry) }
    ensures lump { IfErr result HasLump }
{
    let g = entry as usize;
    if next_start(set, g) != Some(g) {
        return Err(CutFault::NoLevel(entry));
    }
    cut_start(alloc, set, g)
}

// The file of the level that starts at an entry.
fn cut_start<'a, A: Allocator + Copy>(
    alloc: A,
    set: &Set<'a, A>,
    g: usize,
) -> Result<Vec<u8, A>, CutFault>
    requires { LevelStartsAt (names set.now) g }
    ensures ok { IfOk result (λ file. CutsLevel set.now g file.items) }
    ensures err { IfErr result (RefusesEntry set.now g) }
    ensures lump { IfErr result HasLump }
{
    let label = label_looked_up(set, g);
    match lump_count(set, g) {
        Ok(many) => pack_lumps(alloc, set, &label, g, many),
        Err(why) => Err(CutFault::Level(label, why)),
    }
}

// How many lumps behind its label belong to the level that starts at an entry.
fn lump_count<A: Allocator>(set: &Set<'_, A>, g: usize) -> Result<usize, Uncut>
    requires { LevelStartsAt (names set.now) g }
    ensures ok { IfOk result (λ many. BelongAt set.now g many) }
    ensures err { IfErr result (RefusesLevel set.now g) }
    ensures lump { IfErr result HasPlace }
{
    match format_of(set, g) {
        Format::Incomplete(k) => Err(Uncut::Incomplete(k)),
        Format::Hexen => Ok(hexen_count(set, g)),
        Format::Udmf => match end_map(set, g) {
            Some(many) => Ok(many),
            None => Err(Uncut::NoEndMap),
        },
        Format::Outside(_) | Format::Extended(_) | Format::Doom => Ok(10),
    }
}

// How many lumps behind its label belong to a level of Hexen's format.
fn hexen_count<A: Allocator>(set: &Set<'_, A>, g: usize) -> usize
    requires { g < length (joined set.now) }
    ensures { Belong set.now g format.Hexen result }
{
    if has_scripts(set, g) {
        return 12;
    }
    11
}

fn has_scripts<A: Allocator>(set: &Set<'_, A>, g: usize) -> bool
    requires { g < length (joined set.now) }
    ensures { IsTrue result ↔ HasScripts set.now g }
{
    let total = set.total();
    12 < total - g && is_named(set, g + 12, Name8::query(b"SCRIPTS"))
}

// How many entries behind a label the first ENDMAP after TEXTMAP is.
fn end_map<A: Allocator>(set: &Set<'_, A>, g: usize) -> Option<usize>
    requires { g + 1 < length (joined set.now) }
    ensures some { IfSome result (IsEndMap set.now g) }
    ensures none { IfNone result (LacksEndMap set.now g) }
{
    let total = set.total();
    for entry in g + 2..total {
        if is_named(set, entry, Name8::query(b"ENDMAP")) {
            return Some(entry - g);
        }
    }
    None
}

// The file of the level at an entry, with `many` lumps behind its label.
fn pack_lumps<'a, A: Allocator + Copy>(
    alloc: A,
    set: &Set<'a, A>,
    label: &LevelLabel,
    g: usize,
    many: usize,
) -> Result<Vec<u8, A>, CutFault>
    requires label { IsLabelOf set.now g label.now }
    requires starts { LevelStartsAt (names set.now) g }
    requires belong { BelongAt set.now g many }
    ensures ok { IfOk result (λ file. CutsLevel set.now g file.items) }
    ensures err { IfErr result (RefusesEntry set.now g) }
    ensures lump { IfErr result HasLump }
{
    match gather(alloc, set, label, g, many) {
        Ok(packer) => pack(alloc, &packer, label),
        Err(fault) => Err(fault),
    }
}

// The file of a level's lumps.
fn pack<A: Allocator>(
    alloc: A,
    packer: &Packer<'_, A>,
    label: &LevelLabel,
) -> Result<Vec<u8, A>, CutFault>
    ensures is { IfOk result (λ file. file.items ≡ packed packer.now) }
    ensures fits { IfOk result (λ file. length file.items ≤ MAX_BYTES) }
    ensures holds { IfOk result (λ file. HoldsLumps file.items packer.now) }
    ensures err { IfErr result (RefusesPack packer.now label.now) }
    ensures lump { IfErr result HasLump }
{
    match packer.pack(alloc) {
        Ok(file) => Ok(file),
        Err(PackFault::TooLarge) => Err(CutFault::Level(*label, Uncut::TooLarge)),
        Err(PackFault::Memory) => Err(CutFault::Memory),
    }
}

// The level at an entry as lumps to pack.
fn gather<'a, A: Allocator + Copy>(
    alloc: A,
    set: &Set<'a, A>,
    label: &LevelLabel,
    g: usize,
    many: usize,
) -> Result<Packer<'a, A>, CutFault>
    requires label { IsLabelOf set.now g label.now }
    requires starts { LevelStartsAt (names set.now) g }
    requires belong { BelongAt set.now g many }
    ensures ok { IfOk result (HasLumpsAt set.now g) }
    ensures err { IfErr result (RefusesEntry set.now g) }
    ensures lump { IfErr result HasLump }
{
    let total = set.total();
    let Ok(mut packer) = label_alone(alloc, label.name) else {
        return Err(CutFault::Memory);
    };
    'lumps: for m in 0..many {
        if let Err(fault) = add_lump(set, label, g + 1 + m, &mut packer) {
            return Err(fault);
        }
    }
    Ok(packer)
}

// A label with no bytes.
fn label_alone<'a, A: Allocator + Copy>(alloc: A, name: Name8) -> Result<Packer<'a, A>, PackFault>
    ensures { IfOk result (λ packer. packer ≡ record { name = name; bytes = [] } ∷ []) }
{
    let mut packer = Packer::new(alloc);
    packer.add(name, &[])?;
    Ok(packer)
}

// Adds the lump of an entry under its name.
fn add_lump<'a, A: Allocator + Copy>(
    set: &Set<'a, A>,
    label: &LevelLabel,
    entry: usize,
    packer: &mut Packer<'a, A>,
) -> Result<(), CutFault>
    requires { entry < length (joined set.now) }
    ensures ok { OnOk result (AddsLump set.now entry packer.old packer.new) }
    ensures err { IfErr result (LacksLump set.now label.now entry) }
{
    let name = name_at(set, entry);
    let Ok(lump) = set.lump(entry) else {
        return Err(CutFault::Level(*label, Uncut::Outside(name)));
    };
    match packer.add(name, lump) {
        Ok(()) => Ok(()),
        Err(_) => Err(CutFault::Memory),
    }
}

// The name of an entry that is there.
fn name_at<A: Allocator>(set: &Set<'_, A>, entry: usize) -> Name8
    requires { entry < length (joined set.now) }
    ensures { slice_get (names set.now) entry ≡ Some result }
{
    match set.name(entry) {
        Some(name) => name,
        None => unreachable!(),
    }
}

/// Writes why a level isn't cut out, in words with a line's end, and the level's label before it if there is one. For `Write`
/// and `Memory` it writes nothing.
pub fn write_cut_fault<W: Sink>(fault: CutFault, out: &mut W) -> Result<(), IoFault>
    requires lump { HasLump fault }
    requires sound { (W.state out.old).failed ≡ false }
    ensures { Writes (W.state out.old) (W.state out.new) (cut_fault_text fault) result }
{
    match fault {
        CutFault::NoWad(why) => write_both(FileRefusal::NoWad(why).text(), b"\n", out),
        CutFault::NoLevel(entry) => write_no_level(entry, out),
        CutFault::Level(label, why) => write_uncut(&label, why, out),
        CutFault::Memory | CutFault::Write => emit(out, b""),
    }
}

// `no level starts at entry G`
fn write_no_level<W: Sink>(entry: u64, out: &mut W) -> Result<(), IoFault>
    requires { (W.state out.old).failed ≡ false }
    ensures { Writes (W.state out.old) (W.state out.new) (cut_fault_text (CutFault.NoLevel entry)) result }
{
    let mut line = TextLine::new();
    line.prepend_bytes(b"\n");
    line.prepend_natural(entry);
    line.prepend_bytes(b"no level starts at entry ");
    emit(out, line.as_bytes())
}

// `LEVEL: ` and why it isn't cut out.
fn write_uncut<W: Sink>(label: &LevelLabel, why: Uncut, out: &mut W) -> Result<(), IoFault>
    requires lump { HasPlace why }
    requires sound { (W.state out.old).failed ≡ false }
    ensures { Writes (W.state out.old) (W.state out.new) (cut_fault_text (CutFault.Level label.now why)) result }
{
    let mut line = TextLine::new();
    line.prepend_bytes(b": ");
    prepend_label(&mut line, label);
    emit(out, line.as_bytes())?;
    write_reason(why, out)
}

// Why a level isn't cut out.
fn write_reason<W: Sink>(why: Uncut, out: &mut W) -> Result<(), IoFault>
    requires lump { HasPlace why }
    requires sound { (W.state out.old).failed ≡ false }
    ensures { Writes (W.state out.old) (W.state out.new) (uncut_text why) result }
{
    match why {
        Uncut::Incomplete(k) => write_format_alone(Unread::Incomplete(k), out),
        Uncut::Outside(name) => write_outside(name, out),
        Uncut::NoEndMap => emit(out, b"udmf: no ENDMAP\n"),
        Uncut::TooLarge => emit(out, b"larger than 2147483647 bytes\n"),
    }
}

// `outside: NAME`
fn write_outside<W: Sink>(name: Name8, out: &mut W) -> Result<(), IoFault>
    requires { (W.state out.old).failed ≡ false }
    ensures { Writes (W.state out.old) (W.state out.new) (uncut_text (Uncut.Outside name)) result }
{
    let mut line = TextLine::new();
    line.prepend_bytes(b"\n");
    prepend_name(&mut line, name);
    line.prepend_bytes(b"outside: ");
    emit(out, line.as_bytes())
}
