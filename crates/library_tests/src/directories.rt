//! Directories and lumps of files of a few bytes.

use crate::compare::{check_bytes, check_same};
use le_rec::Name8;
use std::alloc::{Allocator, Global};
use std::process::Abort;
use std::test::Fail;
use test_refusals::Refusing;
use wad_dir::{AsBytes, LumpFault, MAX_FILES, PackFault, Packer, Set, SetFault};

// A name, and a lump under it.
type Lump = (&'static [u8], &'static [u8]);

const TWO: [Lump; 2] = [(b"A", b"xyz"), (b"B", b"")];

// The file of these lumps: a header, `xyz` from byte 12 on, and the directory from byte 15 on.
const TWO_PACKED: [u8; 47] = [
    80, 87, 65, 68, 2, 0, 0, 0, 15, 0, 0, 0, 120, 121, 122, 12, 0, 0, 0, 3, 0, 0, 0, 65, 0, 0, 0,
    0, 0, 0, 0, 15, 0, 0, 0, 0, 0, 0, 0, 66, 0, 0, 0, 0, 0, 0, 0,
];

fn packer_of<A: Allocator>(alloc: A, lumps: &[Lump]) -> Result<Packer<'static, A>, PackFault> {
    let mut packer = Packer::new(alloc);
    for (name, lump) in lumps {
        packer.add(Name8::query(name), lump)?;
    }
    Ok(packer)
}

#[test]
fn packed(rt: HostRuntime) -> Result<(), Fail> {
    let none = Packer::new(rt.alloc()).pack(rt.alloc())?;
    check_bytes(&rt, none.as_slice(), b"PWAD\0\0\0\0\x0c\0\0\0");
    Ok(())
}

// How long a file of so many lumps of these bytes is.
fn length_of_many<A: Allocator + Copy>(
    alloc: A,
    lump: &[u8],
    count: u32,
) -> Result<usize, PackFault> {
    let mut packer = Packer::new(alloc);
    for _ in 0..count {
        packer.add(Name8::query(b"LUMP"), lump)?;
    }
    Ok(packer.pack(alloc)?.len())
}

#[test]
fn many_lumps(rt: HostRuntime) {
    let heap = Refusing::new(rt.alloc(), 0);
    check_same(&rt, length_of_many(&heap, b"xyz", 1000), Ok(19_012));
}

#[test]
fn packed_too_large(rt: HostRuntime) -> Result<(), Fail> {
    let lump = vec![in rt.alloc(); 0; 16_777_216]?;
    check_same(
        &rt,
        length_of_many(rt.alloc(), &lump, 128),
        Err(PackFault::TooLarge),
    );
    Ok(())
}

// How many entries a set of these files has.
fn total_of<A: Allocator>(alloc: A, files: &[Vec<u8>]) -> Result<usize, SetFault> {
    if files.len() > MAX_FILES {
        return Ok(0);
    }
    Ok(Set::new(alloc, files)?.total())
}

// No entries, and a directory behind the file's end.
const EMPTY: &[u8] = b"PWAD\0\0\0\0\x0f\x27\0\0";

#[test]
fn empty_directory(rt: HostRuntime) -> Result<(), Fail> {
    let files = vec![in rt.alloc(); EMPTY.to_vec(rt.alloc())?]?;
    check_same(&rt, total_of(rt.alloc(), &files), Ok(0));
    check_same(&rt, total_of(rt.alloc(), &[]), Ok(0));
    Ok(())
}

// Directories of labels alone: one of one entry, and one of three.
const ONE_LABEL: &[u8] = b"PWAD\x01\0\0\0\x0c\0\0\0\0\0\0\0\0\0\0\0E1M1\0\0\0\0";

const THREE_LABELS: &[u8] = b"PWAD\x03\0\0\0\x0c\0\0\0\
\0\0\0\0\0\0\0\0E1M1\0\0\0\0\
\0\0\0\0\0\0\0\0E1M1\0\0\0\0\
\0\0\0\0\0\0\0\0e1m1\0\0\0\0";

// The entry that wins a name in these files.
fn winner<A: Allocator, F: AsBytes>(
    alloc: A,
    files: &[F],
    name: &[u8],
) -> Result<Option<usize>, SetFault> {
    if files.len() > MAX_FILES {
        return Ok(None);
    }
    Ok(Set::new(alloc, files)?.find(Name8::query(name)))
}

#[test]
fn last_label_wins(rt: HostRuntime) -> Result<(), Fail> {
    let first = ONE_LABEL.to_vec(rt.alloc())?;
    let files = vec![in rt.alloc(); first, THREE_LABELS.to_vec(rt.alloc())?]?;
    check_same(&rt, winner(rt.alloc(), &files, b"e1m1"), Ok(Some(2)));
    Ok(())
}

// The same of files that are lent.
#[test]
fn last_label_of_lent_files_wins(rt: HostRuntime) {
    let files: [&[u8]; 2] = [ONE_LABEL, THREE_LABELS];
    check_same(&rt, winner(rt.alloc(), &files, b"e1m1"), Ok(Some(2)));
    check_same(&rt, winner(rt.alloc(), &files, b"E1M2"), Ok(None));
}

// How many entries the file of one label and, behind it, that of three have together, and which of them wins their name.
fn label_behind<A: Allocator + Copy>(alloc: A) -> Result<(usize, Option<usize>), SetFault> {
    let base = Set::one(alloc, ONE_LABEL)?;
    let own = Set::one(alloc, THREE_LABELS)?;
    if base.files() + own.files() > MAX_FILES {
        return Ok((0, None));
    }
    let Ok(set) = own.after(alloc, base.wads()) else {
        return Err(SetFault::Memory);
    };
    Ok((set.total(), set.find(Name8::query(b"e1m1"))))
}

#[test]
fn set_behind_a_base(rt: HostRuntime) {
    check_same(&rt, label_behind(rt.alloc()), Ok((4, Some(2))));
}

#[test]
fn growth_refused_in_after(rt: HostRuntime) {
    for n in 1..4 {
        let refusing = Refusing::new(rt.alloc(), n);
        check_same(&rt, label_behind(&refusing), Err(SetFault::Memory));
    }
    let refusing = Refusing::new(rt.alloc(), 4);
    check_same(&rt, label_behind(&refusing), Ok((4, Some(2))));
}

// Three entries: one of no bytes before the file, one of a byte behind it, and one of fewer bytes than none.
const PLACES: &[u8] = b"PWAD\x03\0\0\0\x0c\0\0\0\
\xfb\xff\xff\xff\0\0\0\0A\0\0\0\0\0\0\0\
\x3c\0\0\0\x01\0\0\0B\0\0\0\0\0\0\0\
\x0c\0\0\0\xff\xff\xff\xffC\0\0\0\0\0\0\0";

fn check_lump(rt: &impl Abort, set: &Set<'_>, g: usize, expected: Result<&[u8], LumpFault>) {
    check_same(rt, set.lump(g), expected);
}

#[test]
fn lump_places(rt: HostRuntime) {
    let set = Set::one(rt.alloc(), PLACES).expect(&rt, "a set of the file");
    check_lump(&rt, &set, 0, Ok(&[]));
    check_same(&rt, set.find(Name8::query(b"B")), Some(1));
    check_lump(&rt, &set, 1, Err(LumpFault::Outside));
    check_lump(&rt, &set, 2, Err(LumpFault::Outside));
    check_lump(&rt, &set, 3, Err(LumpFault::NoSuch));
}

#[test]
fn growth_refused_in_new(rt: HostRuntime) -> Result<(), Fail> {
    let files = vec![in rt.alloc(); TWO_PACKED.to_vec(rt.alloc())?]?;
    let refusing = Refusing::new(rt.alloc(), 1);
    check_same(&rt, total_of(&refusing, &files), Err(SetFault::Memory));
    check_same(&rt, total_of(&refusing, &files), Ok(2));
    let refusing = Refusing::new(rt.alloc(), 2);
    check_same(&rt, total_of(&refusing, &files), Ok(2));
    assert!(rt; !refusing.has_refused());
    Ok(())
}

// How many entries a set of the one file has.
fn total_of_one<A: Allocator>(alloc: A) -> Result<usize, SetFault> {
    Ok(Set::one(alloc, &TWO_PACKED)?.total())
}

#[test]
fn growth_refused_in_one(rt: HostRuntime) {
    let refusing = Refusing::new(rt.alloc(), 1);
    check_same(&rt, total_of_one(&refusing), Err(SetFault::Memory));
    check_same(&rt, total_of_one(&refusing), Ok(2));
}

// Why so many lumps can't be added.
fn fault_of_adding<A: Allocator>(alloc: A) -> Option<PackFault> {
    let lump: Lump = (b"LUMP", b"x");
    packer_of(alloc, &[lump; 12]).err()
}

// Whether adding met growth `n` refused; then it has so failed, and doesn't fail again.
fn is_refused(rt: &(impl Abort + AllocGlobal), n: u64) -> bool {
    let refusing = Refusing::new(rt.alloc(), n);
    let fault = fault_of_adding(&refusing);
    if !refusing.has_refused() {
        return false;
    }
    check_same(rt, fault, Some(PackFault::Memory));
    check_same(rt, fault_of_adding(&refusing), None);
    true
}

#[test]
fn growth_refused_in_add(rt: HostRuntime) {
    let mut growths = 0;
    for n in 1..12 {
        if !is_refused(&rt, n) {
            break;
        }
        growths = n;
    }
    assert!(rt; growths > 0 && growths < 11);
}

// How long the packer's file is.
fn length_packed<A: Allocator>(alloc: A, packer: &Packer<'_, Global>) -> Result<usize, PackFault> {
    Ok(packer.pack(alloc)?.len())
}

#[test]
fn growth_refused_in_pack(rt: HostRuntime) -> Result<(), Fail> {
    let packer = packer_of(rt.alloc(), &TWO)?;
    let refusing = Refusing::new(rt.alloc(), 1);
    let length = length_packed(&refusing, &packer);
    check_same(&rt, length, Err(PackFault::Memory));
    check_same(&rt, length_packed(&refusing, &packer), Ok(TWO_PACKED.len()));
    let refusing = Refusing::new(rt.alloc(), 2);
    check_same(&rt, length_packed(&refusing, &packer), Ok(TWO_PACKED.len()));
    assert!(rt; !refusing.has_refused());
    Ok(())
}
