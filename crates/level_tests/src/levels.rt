//! Opening levels.

use crate::compare::{check_bytes, check_same};
use crate::sample::{base, lumps, pack};
use le_rec::{Name8, Seg, Vertex};
use map_level::{Level, LevelFault, Reading, link_findings};
use std::process::Abort;
use wad_dir::Set;

fn check_counts(rt: &impl Abort, level: &Level<'_>) {
    assert!(rt; level.things().len() == 1);
    assert!(rt; level.linedefs().len() == 1);
    assert!(rt; level.sidedefs().len() == 2);
    assert!(rt; level.vertexes().len() == 2);
    assert!(rt; level.segs().len() == 2);
}

fn check_later_counts(rt: &impl Abort, level: &Level<'_>) {
    assert!(rt; level.ssectors().len() == 2);
    assert!(rt; level.nodes().len() == 1);
    assert!(rt; level.sectors().len() == 2);
    assert!(rt; level.blockmap().len() == 16);
    check_bytes(rt, level.reject(), &[0]);
}

fn check_records(rt: &impl Abort, level: &Level<'_>) {
    check_same(rt, level.vertexes().get(1), Some(Vertex { x: 0, y: 64 }));
    let seg = Seg {
        v1: 1,
        v2: 0,
        angle: -16384,
        linedef: 0,
        side: 1,
        offset: 0,
    };
    check_same(rt, level.segs().get(1), Some(seg));
}

// A level is the sample at that label, in that reading.
fn check_level(rt: &impl Abort, level: &Level<'_>, label: usize, reading: Reading) {
    check_same(rt, level.label(), label);
    check_same(rt, level.reading(), reading);
    check_same(rt, level.name(0), Name8::query(b"E1M1"));
    check_same(rt, level.name(10), Name8::query(b"BLOCKMAP"));
    check_counts(rt, level);
    check_later_counts(rt, level);
    check_records(rt, level);
}

// The level of that name is the sample at that label.
fn check_open(rt: &impl Abort, set: &Set<'_>, name: &[u8], reading: Reading, label: usize) {
    let level = Level::open(set, Name8::query(name), reading).expect(rt, "a level");
    check_level(rt, &level, label, reading);
}

fn check_at(rt: &impl Abort, set: &Set<'_>, label: usize) {
    assert!(rt; label < set.total());
    let level = Level::at(set, label, Reading::Wide).expect(rt, "a level");
    check_level(rt, &level, label, Reading::Wide);
}

// The sector of an ssector of the level E1M1.
fn sector_of(rt: &(impl Abort + AllocGlobal), set: &Set<'_>, ssector: u32) -> u16 {
    let opened = Level::open(set, Name8::query(b"E1M1"), Reading::Signed);
    let level = opened.expect(rt, "a level");
    let found = link_findings(rt.alloc(), &level).expect(rt, "no memory for the findings");
    assert!(rt; level.is_linked(&found) && (ssector as usize) < level.ssectors().len());
    level.ssector_sector(ssector)
}

#[test]
fn level_opened(rt: HostRuntime) {
    let file = base(&rt);
    let set = Set::one(rt.alloc(), &file).expect(&rt, "a set of the file");
    check_open(&rt, &set, b"e1m1", Reading::Signed, 0);
    check_open(&rt, &set, b"e1m1", Reading::Wide, 0);
    check_same(&rt, sector_of(&rt, &set, 1), 1);
}

// Of two levels of one name each is opened at its label; by name only the second is.
#[test]
fn levels_of_one_name(rt: HostRuntime) {
    let files = vec![in rt.alloc(); base(&rt), base(&rt)].expect(&rt, "two files");
    let set = Set::new(rt.alloc(), &files).expect(&rt, "a set of the files");
    check_at(&rt, &set, 0);
    check_at(&rt, &set, 11);
    check_open(&rt, &set, b"E1M1", Reading::Signed, 11);
}

// Why there is no level at an entry.
fn check_fault(rt: &(impl Abort + AllocGlobal), file: &[u8], label: usize, fault: LevelFault) {
    let set = Set::one(rt.alloc(), file).expect(rt, "a set of the file");
    assert!(rt; label < set.total());
    check_same(
        rt,
        Level::at(&set, label, Reading::Signed).err(),
        Some(fault),
    );
}

// Of a whole level's entry 1 the ten lumps would be those from entry 2 on: the last is missing.
#[test]
fn lumps_missing_at(rt: HostRuntime) {
    let file = pack(&rt, &lumps()[..10]);
    check_fault(&rt, &file, 0, LevelFault::Missing(10));
    check_fault(&rt, &file, 9, LevelFault::Missing(1));
    check_fault(&rt, &base(&rt), 1, LevelFault::Missing(10));
}
