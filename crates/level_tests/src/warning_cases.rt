//! Warnings of levels: the reports with memory, and with each growth refused in turn. W1 and W6 do without the lists that show
//! sooner if there is no warning.

use crate::compare::check_same;
use crate::growth_end::GrowthEnd;
use crate::opening::level_of;
use crate::sample::{
    Ends, base, base_with, base_with_lines, lumps, pack, pack_both, round, round_and,
};
use game_warnings::GameWarning;
use le_rec::Name8;
use level_codes::WarningCode;
use map_level::{Level, Reading};
use map_warnings::{Checks, Plane, Resources, SidePart, Warning};
use std::alloc::Allocator;
use std::process::Abort;
use test_refusals::Refusing;
use wad_dir::Set;

/// How many warnings of a code there are, and the first of them.
type CountAndFirst = (usize, Option<Warning>);

const NOTHING: CountAndFirst = (0, None);

// No textures and flats are known.
fn unknown<'s, 'a>() -> Option<Resources<'s, 'a>> {
    None
}

// The report on a code; None if a growth was refused.
fn told<A: Allocator + Copy>(
    alloc: A,
    checks: &Checks<'_, '_>,
    code: WarningCode,
) -> Option<CountAndFirst> {
    let told = checks.told(alloc, code, &None, 1).ok()?;
    Some((told.count(), told.first().first().copied()))
}

// How the call of a code ends if growth `n` is refused. What it returns is the true report.
fn end_of(
    rt: &(impl Abort + AllocGlobal),
    checks: &Checks<'_, '_>,
    code: WarningCode,
    expected: CountAndFirst,
    n: u64,
) -> GrowthEnd {
    let heap = Refusing::new(rt.alloc(), n);
    let answer = told(&heap, checks, code);
    let refused = heap.has_refused();
    if answer.is_none() {
        assert!(rt; refused);
        return GrowthEnd::Refused;
    }
    check_same(rt, answer, Some(expected));
    if refused {
        GrowthEnd::Spared
    } else {
        GrowthEnd::Granted
    }
}

// The report on a code, with memory and with each growth refused in turn, and how many of these growths the call does without.
fn check_code(
    rt: &(impl Abort + AllocGlobal),
    checks: &Checks<'_, '_>,
    code: WarningCode,
    expected: CountAndFirst,
    spared: u32,
) {
    check_same(rt, told(rt.alloc(), checks, code), Some(expected));
    let mut found = 0u32;
    let mut granted = false;
    for n in 1..60 {
        match end_of(rt, checks, code, expected, n) {
            GrowthEnd::Granted => {
                granted = true;
                break;
            }
            GrowthEnd::Refused => {}
            GrowthEnd::Spared => found = found.wrapping_add(1),
        }
    }
    assert!(rt; granted);
    check_same(rt, found, spared);
    check_same(rt, told(rt.alloc(), checks, code), Some(expected));
}

// The report on a code for the level of a file, and how many growths it does without.
fn check_file(
    rt: &(impl Abort + AllocGlobal),
    file: &[u8],
    code: WarningCode,
    expected: CountAndFirst,
    spared: u32,
) {
    let set = Set::one(rt.alloc(), file).expect(rt, "a set of the file");
    let opened = Level::open(&set, Name8::query(b"E1M1"), Reading::Wide);
    let level = opened.expect(rt, "a level");
    let checks = Checks::of(rt.alloc(), &level).expect(rt, "no memory for the tree");
    assert!(rt; checks.looks_for(code, &unknown()));
    check_code(rt, &checks, code, expected, spared);
}

// The same of linedefs over so many vertexes.
fn check_lines(
    rt: &(impl Abort + AllocGlobal),
    lines: &[Ends],
    count: u16,
    code: WarningCode,
    expected: CountAndFirst,
    spared: u32,
) {
    let file = base_with_lines(rt, lines, count);
    check_file(rt, &file, code, expected, spared);
}

// There is no warning of a code for so many linedefs round a sector.
fn check_round(rt: &(impl Abort + AllocGlobal), count: u16, code: WarningCode, spared: u32) {
    check_lines(rt, &round(rt, count), count, code, NOTHING, spared);
}

// Each linedef has two numbers, and three lists are made of 128 to 131,072 of them.
#[test]
fn closed(rt: HostRuntime) {
    check_round(&rt, 63, WarningCode::W1, 0);
    check_round(&rt, 64, WarningCode::W1, 3);
    check_round(&rt, 65535, WarningCode::W1, 3);
    let lines = round_and(&rt, 65535, &[(0, 1), (1, 0)]);
    check_lines(&rt, &lines, 65535, WarningCode::W1, NOTHING, 0);
}

// Two lists are made of 128 to 8,192 linedefs.
#[test]
fn apart(rt: HostRuntime) {
    check_round(&rt, 127, WarningCode::W6, 0);
    check_round(&rt, 128, WarningCode::W6, 2);
    check_round(&rt, 8192, WarningCode::W6, 2);
    check_round(&rt, 8193, WarningCode::W6, 0);
}

// A first vertex at which sector 0 isn't closed, and how many there are.
fn unclosed(count: usize, vertex: u32) -> CountAndFirst {
    (count, Some(Warning::Unclosed { sector: 0, vertex }))
}

// One linedef too many shows in the squares.
#[test]
fn open(rt: HostRuntime) {
    let lines = round_and(&rt, 200, &[(5, 13)]);
    check_lines(&rt, &lines, 200, WarningCode::W1, unclosed(2, 5), 0);
}

// Two whose squares add up to the same, 13 * 13 + 0 and 5 * 5 + 12 * 12, are found by counting.
#[test]
fn open_with_same_squares(rt: HostRuntime) {
    let lines = round_and(&rt, 200, &[(5, 13), (12, 0)]);
    check_lines(&rt, &lines, 200, WarningCode::W1, unclosed(4, 0), 3);
}

// The same linedefs once more close, and each lies on another.
#[test]
fn all_twice(rt: HostRuntime) {
    let lines = round_and(&rt, 70, &round(&rt, 70));
    let first = Warning::Twin {
        linedef: 70,
        earlier: 0,
    };
    check_lines(&rt, &lines, 70, WarningCode::W1, NOTHING, 3);
    check_lines(&rt, &lines, 70, WarningCode::W6, (70, Some(first)), 2);
}

// What the sample level is warned of by each code.
#[test]
fn sample(rt: HostRuntime) {
    let file = base(&rt);
    let no_start = Warning::NoStart { player: 2 };
    let few_starts = Warning::FewStarts { starts: 0 };
    check_file(&rt, &file, WarningCode::W1, unclosed(4, 0), 0);
    check_file(&rt, &file, WarningCode::W2, NOTHING, 0);
    check_file(&rt, &file, WarningCode::W3, NOTHING, 0);
    check_file(&rt, &file, WarningCode::W4, NOTHING, 0);
    check_file(&rt, &file, WarningCode::W5, NOTHING, 0);
    check_file(&rt, &file, WarningCode::W6, NOTHING, 0);
    check_file(&rt, &file, WarningCode::W7, (1, Some(no_start)), 0);
    check_file(&rt, &file, WarningCode::W8, (1, Some(few_starts)), 0);
    check_file(&rt, &file, WarningCode::W11, NOTHING, 0);
    check_game(&rt, &file);
}

// What the released game does with it.
fn check_game(rt: &(impl Abort + AllocGlobal), file: &[u8]) {
    let no_exit = Warning::Game(GameWarning::NoExit);
    check_file(rt, file, WarningCode::W14, NOTHING, 0);
    check_file(rt, file, WarningCode::W15, NOTHING, 0);
    check_file(rt, file, WarningCode::W16, NOTHING, 0);
    check_file(rt, file, WarningCode::W17, NOTHING, 0);
    check_file(rt, file, WarningCode::W18, NOTHING, 0);
    check_file(rt, file, WarningCode::W19, (1, Some(no_exit)), 0);
    check_file(rt, file, WarningCode::W21, NOTHING, 0);
    check_file(rt, file, WarningCode::W22, NOTHING, 0);
}

// A thing that the game has no kind for.
#[test]
fn stranger(rt: HostRuntime) {
    let file = base_with(&rt, &[(1, &[8, 0, 8, 0, 0, 0, 0, 125, 7, 0])]);
    let thing = Warning::UnknownThing { thing: 0 };
    check_file(&rt, &file, WarningCode::W11, (1, Some(thing)), 0);
}

// A TEXTURE1 with the texture STONE.
const STONE: [u8; 16] = [1, 0, 0, 0, 8, 0, 0, 0, 83, 84, 79, 78, 69, 0, 0, 0];

// Sidedefs of which the first has WOOD as its upper texture and `stone` as its middle one.
const WOOD: [u8; 60] = [
    0, 0, 0, 0, 87, 79, 79, 68, 0, 0, 0, 0, 45, 0, 0, 0, 0, 0, 0, 0, 115, 116, 111, 110, 101, 0, 0,
    0, 0, 0, 0, 0, 0, 0, 45, 0, 0, 0, 0, 0, 0, 0, 45, 0, 0, 0, 0, 0, 0, 0, 45, 0, 0, 0, 0, 0, 0, 0,
    1, 0,
];

// The report on a code for a file's level with the file's resources; None if a growth was refused.
fn told_in_file<A: Allocator + Copy>(
    alloc: A,
    file: &[u8],
    code: WarningCode,
) -> Option<CountAndFirst> {
    let set = Set::one(alloc, file).ok()?;
    let level = Level::open(&set, Name8::query(b"E1M1"), Reading::Signed).ok()?;
    let resources = Some(Resources::of(alloc, &set).ok()?);
    let checks = Checks::of(alloc, &level).ok()?;
    let told = checks.told(alloc, code, &resources, 1).ok()?;
    Some((told.count(), told.first().first().copied()))
}

// The same with memory, and with each growth refused in turn.
fn check_in_file(
    rt: &(impl Abort + AllocGlobal),
    file: &[u8],
    code: WarningCode,
    expected: CountAndFirst,
) {
    check_same(rt, told_in_file(rt.alloc(), file, code), Some(expected));
    let mut met = 0;
    for n in 1..60 {
        let heap = Refusing::new(rt.alloc(), n);
        let answer = told_in_file(&heap, file, code);
        if !heap.has_refused() {
            check_same(rt, answer, Some(expected));
            break;
        }
        check_same(rt, answer, None);
        met = n;
    }
    assert!(rt; 0 < met && met < 59);
}

// Textures and flats by what the level's own file lists.
#[test]
fn resources(rt: HostRuntime) {
    let mut level = lumps();
    level[3] = (b"SIDEDEFS", &WOOD);
    let file = pack_both(&rt, &level, &[(b"TEXTURE1", &STONE), (b"F_START", &[])]);
    let texture = Warning::UnknownTexture {
        sidedef: 0,
        part: SidePart::Upper,
    };
    let flat = Warning::UnknownFlat {
        sector: 0,
        plane: Plane::Floor,
    };
    check_in_file(&rt, &file, WarningCode::W9, (1, Some(texture)));
    check_in_file(&rt, &file, WarningCode::W10, (4, Some(flat)));
    let without = pack_both(&rt, &level, &[]);
    check_in_file(&rt, &without, WarningCode::W9, NOTHING);
    check_in_file(&rt, &without, WarningCode::W10, NOTHING);
}

// A TEXTURE1 or TEXTURE2 with two textures of one name.
const TWICE_STONE: [u8; 20] = [
    2, 0, 0, 0, 12, 0, 0, 0, 12, 0, 0, 0, 83, 84, 79, 78, 69, 0, 0, 0,
];

// Whether there is memory for what a file lists.
fn has_room<A: Allocator + Copy>(alloc: A, file: &[u8]) -> bool {
    match Set::one(alloc, file) {
        Ok(set) => Resources::of(alloc, &set).is_ok(),
        Err(_) => false,
    }
}

// Whether what a file lists asks for growth `n`. Growth 1 is its directory's, and the last that of the names of its entries.
fn asks_for(rt: &(impl Abort + AllocGlobal), file: &[u8], n: u64) -> bool {
    let heap = Refusing::new(rt.alloc(), n);
    assert!(rt; has_room(&heap, file) != heap.has_refused());
    heap.has_refused()
}

// Four names fill the memory of one growth, so each lump is listed once. One that isn't there takes none.
#[test]
fn textures_are_listed_once(rt: HostRuntime) {
    let both = pack(
        &rt,
        &[(b"TEXTURE1", &TWICE_STONE), (b"TEXTURE2", &TWICE_STONE)],
    );
    assert!(rt; asks_for(&rt, &both, 3));
    assert!(rt; !asks_for(&rt, &both, 4));
    let first = pack(&rt, &[(b"TEXTURE1", &TWICE_STONE)]);
    assert!(rt; asks_for(&rt, &first, 3));
    assert!(rt; !asks_for(&rt, &first, 4));
}

// Whether a level could be looked over with growth `n` refused. Then its soundness is right.
fn is_looked_over(rt: &(impl Abort + AllocGlobal), level: &Level<'_>, n: u64) -> bool {
    let heap = Refusing::new(rt.alloc(), n);
    let checks = Checks::of(&heap, level);
    assert!(rt; checks.is_err() == heap.has_refused());
    match checks {
        Ok(checks) => {
            assert!(rt; checks.looks_for(WarningCode::W3, &unknown()));
            true
        }
        Err(_) => false,
    }
}

// Each growth is refused in turn until none is.
fn check_growths(rt: &(impl Abort + AllocGlobal), level: &Level<'_>) {
    let mut met = 0;
    for n in 1..30 {
        if is_looked_over(rt, level, n) {
            break;
        }
        met = n;
    }
    assert!(rt; 0 < met && met < 29);
}

#[test]
fn looked_over(rt: HostRuntime) {
    let file = base(&rt);
    check_growths(&rt, &level_of(&rt, &file));
}
