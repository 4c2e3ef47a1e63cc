//! What can be read of levels whatever their format, in numbers that were worked out by hand.

use crate::compare::check_same;
use crate::sample::{Lump, SECTORS, SIDEDEFS, base, lumps, pack, pack_both};
use map_sketch::sketch_numbers;
use std::process::Abort;
use test_refusals::Refusing;
use wad_dir::Set;

// What stands for a number that isn't there.
const NONE: i32 = i32::MIN;

// The sample's form and lumps, its linedef with the sectors 0 and 1, and its thing.
const SAMPLE: [i32; 26] = [
    0, 1, 1, 0, 2, 1, 0, 3, 2, 0, 4, 2, 0, 8, 2, 0, 0, 0, 0, 64, 0, 1, 8, 8, 0, 1,
];

// The numbers of the level at an entry are those that are wanted.
fn check(rt: &(impl Abort + AllocGlobal), file: &[u8], g: usize, wanted: &[i32]) {
    let set = Set::one(rt.alloc(), file).expect(rt, "a set of the file");
    assert!(rt; g < set.total());
    let numbers = sketch_numbers(rt.alloc(), &set, g).expect(rt, "numbers");
    check_same(rt, numbers.as_slice(), wanted);
}

#[test]
fn sketch_of_the_sample(rt: HostRuntime) {
    check(&rt, &base(&rt), 0, &SAMPLE);
}

// A level without nodes, whose sectors stand behind things. The level behind it has the missing lumps.
#[test]
fn sketch_of_an_unbuilt_level(rt: HostRuntime) {
    let unbuilt: [Lump<'static>; 6] = [
        (b"E1M2", &[]),
        (b"THINGS", &[]),
        (b"SECTORS", &SECTORS),
        (b"LINEDEFS", &[0, 0, 9, 0, 4, 0, 0, 0, 0, 0, 0, 0, 1, 0, 7]),
        (b"SIDEDEFS", &SIDEDEFS[..30]),
        (b"VERTEXES", &[0, 0, 0, 0]),
    ];
    let file = pack_both(&rt, &unbuilt, &lumps());
    let wanted = [
        0, 1, 0, 0, 3, 1, 1, 4, 1, 0, 5, 1, 0, 2, 2, 0, NONE, NONE, NONE, NONE, 0, -1,
    ];
    check(&rt, &file, 0, &wanted);
    check(&rt, &file, 6, &SAMPLE);
}

// Hexen's records: a linedef with a special and arguments, and a thing with an identifier and a height that looks north-east.
#[test]
fn sketch_of_hexen(rt: HostRuntime) {
    let hexen: [Lump<'static>; 5] = [
        (b"MAP01", &[]),
        (
            b"THINGS",
            &[
                7, 0, 8, 0, 248, 255, 16, 0, 100, 0, 1, 0, 7, 0, 80, 1, 2, 3, 4, 5,
            ],
        ),
        (
            b"LINEDEFS",
            &[1, 0, 0, 0, 4, 0, 12, 1, 2, 3, 4, 5, 255, 255, 0, 128],
        ),
        (b"VERTEXES", &[0, 0, 0, 0, 0, 0, 64, 0]),
        (b"BEHAVIOR", &[]),
    ];
    let wanted = [
        1, 1, 1, 0, 2, 1, 0, NONE, NONE, NONE, 3, 2, 0, NONE, NONE, NONE, 0, 64, 0, 0, NONE, -1, 8,
        -8, 90, 1,
    ];
    check(&rt, &pack(&rt, &hexen), 0, &wanted);
}

// Of an entry behind which no lump of a level stands nothing is told.
#[test]
fn sketch_of_no_level(rt: HostRuntime) {
    let wanted = [
        0, NONE, NONE, NONE, NONE, NONE, NONE, NONE, NONE, NONE, NONE, NONE, NONE, NONE, NONE, NONE,
    ];
    check(&rt, &base(&rt), 10, &wanted);
}

// Whether the set of the sample or its numbers met growth `n` refused.
fn is_refused(rt: &(impl Abort + AllocGlobal), file: &[u8], n: u64) -> bool {
    let heap = Refusing::new(rt.alloc(), n);
    let Ok(set) = Set::one(&heap, file) else {
        assert!(rt; heap.has_refused());
        return true;
    };
    assert!(rt; 0 < set.total());
    assert!(rt; sketch_numbers(&heap, &set, 0).is_err() == heap.has_refused());
    heap.has_refused()
}

// Each growth that is refused is told: one of the set, and more than one of the numbers.
#[test]
fn growths_of_a_sketch(rt: HostRuntime) {
    let file = base(&rt);
    let mut refused = 0;
    for n in 1..10 {
        if !is_refused(&rt, &file, n) {
            break;
        }
        refused = n;
    }
    assert!(rt; 2 < refused && refused < 9);
}
