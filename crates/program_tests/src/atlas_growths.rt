//! The rows and the page of an atlas, with each growth refused in turn.

use crate::compare::{check_bytes, check_same, contains};
use crate::sample::{UDMF, lumps, pack_three};
use atlas_page::{Origin, Page, PageHead, RefusedFile, Row, push_rows, write_page};
use le_rec::{Name8, Sink};
use lens_engines::{
    Base, FileRefusal, Judging, LevelCounts, Rules, Surveyed, Tables, Warnings, asked_resources,
    over_base,
};
use lens_texts::Unread;
use level_codes::{CodeSet, ReportCode};
use line_io::IoFault;
use map_level::Reading;
use map_level::search::CODE_COUNT;
use memory_streams::ToVec;
use std::alloc::{AllocError, Allocator, Global};
use std::process::Abort;
use test_refusals::Refusing;
use wad_dir::{Set, WadFault};

// The signed reading, with warnings asked for so.
fn judging<'b>(base: &'b Base<'b>, warnings: Warnings) -> Judging<'b> {
    let rules = Rules {
        reading: Reading::Signed,
        warnings,
        ignored: CodeSet::none(),
        failing: CodeSet::none(),
        game_ends: false,
    };
    rules.over(base)
}

// The sample level has one start and no exit, and its two sectors are open at both ends of its linedef.
const WARNED: [u64; 25] = [
    4, 0, 0, 0, 0, 0, 1, 1, 0, 0, 0, 0, 0, 0, 0, 0, 0, 0, 1, 0, 0, 0, 0, 0, 0,
];

const TABLES: Tables = Tables {
    things: 1,
    linedefs: 1,
    sidedefs: 2,
    vertexes: 2,
    segs: 2,
    ssectors: 2,
    nodes: 1,
    sectors: 2,
    reject: 1,
    blockmap: 16,
};

// The sample level, one of UDMF, and the sample level again.
fn three_levels(rt: &(impl Abort + AllocGlobal)) -> Vec<u8> {
    pack_three(rt, &lumps(), &UDMF, &lumps())
}

// The entries of their labels.
const ENTRIES: [u64; 3] = [0, 11, 14];

// Adds the rows of a file's levels, each with one message of a code at most. All memory but that of the messages is from one heap.
fn add_rows<'h, 'b>(
    heap: &'h Refusing,
    global: Global,
    base: &'b Base<'b>,
    file: &'b [u8],
    rows: &mut Vec<Row<'static>, &'h Refusing>,
) -> Result<(), AllocError> {
    let Ok(set) = Set::one(heap, file) else {
        return Err(AllocError);
    };
    if set.files() != 1 {
        return Err(AllocError);
    }
    let origin = Origin {
        file: 3,
        path: b"a.wad",
        judging: judging(base, Warnings::Told),
        most: 1,
    };
    let known = over_base(heap, origin.judging.base, &set)?;
    let resources = asked_resources(heap, &known, origin.judging.warnings)?;
    push_rows(heap, global, &origin, &set, &resources, rows)
}

fn check_judged(rt: &impl Abort, judged: &LevelCounts) {
    check_same(rt, judged.tables, TABLES);
    check_same(rt, (judged.counts.faults(), judged.counts.notes()), (0, 0));
    for k in 0..25 {
        let code = ReportCode::at(CODE_COUNT + k);
        check_same(rt, judged.counts.get(code), WARNED[k]);
    }
    check_same(rt, judged.counts.warnings(), 7);
    assert!(rt; judged.drawn);
}

// The first open corner is told within a link to it, and three more are left out.
fn check_messages(rt: &impl Abort, items: &[u8]) {
    assert!(rt;
        contains(
            items,
            b".svg#svgView(viewBox(-256,-256,512,512))\">W1 sector 0: isn't closed, at (0, 0)</a></li>\n"
        )
    );
    assert!(rt; contains(items, b"<li class=\"warning\">W1: 3 more</li>\n"));
    assert!(rt;
        contains(
            items,
            b"<li class=\"warning\">W7 level: no player 2 start</li>\n"
        )
    );
}

fn check_row(rt: &impl Abort, row: &Row<'_>, entry: u64) {
    check_same(rt, (row.file, row.entry), (3, entry));
    check_bytes(rt, row.path, b"a.wad");
    match &row.found {
        Surveyed::Judged(judged) => {
            check_same(rt, row.name, Name8::query(b"E1M1"));
            check_judged(rt, judged);
            check_messages(rt, row.messages.items());
        }
        Surveyed::Unjudged(unjudged) => {
            check_same(rt, (row.name, entry), (Name8::query(b"MAP01"), 11));
            check_same(rt, unjudged.unread(), Unread::Udmf);
            check_bytes(rt, row.messages.items(), b"");
        }
    }
}

// How many rows there are, each of which is as it has to be.
fn checked_rows<A: Allocator>(rt: &impl Abort, rows: &Vec<Row<'_>, A>) -> usize {
    for (row, entry) in rows.iter().zip(ENTRIES) {
        check_row(rt, row, entry);
    }
    assert!(rt; rows.len() <= 3);
    rows.len()
}

// How many rows were added where growth `n` was refused; None where none was.
fn rows_before(rt: &(impl Abort + AllocGlobal), file: &[u8], n: u64) -> Option<usize> {
    let heap = Refusing::new(rt.alloc(), n);
    let base = Base::none();
    let mut rows = Vec::new(&heap);
    let added = add_rows(&heap, rt.alloc(), &base, file, &mut rows);
    let count = checked_rows(rt, &rows);
    check_same(rt, added.is_err(), heap.has_refused());
    if added.is_err() {
        return Some(count);
    }
    check_same(rt, count, 3);
    None
}

// A growth is refused before the first row, and one while the third level is judged, where two rows stay.
#[test]
fn rows_refused(rt: HostRuntime) {
    let file = three_levels(&rt);
    let mut stopped_at = [0u32; 3];
    let mut granted = false;
    for n in 1..99 {
        let Some(count) = rows_before(&rt, &file, n) else {
            granted = true;
            break;
        };
        assert!(&rt; count < 3);
        stopped_at[count] = stopped_at[count].wrapping_add(1);
    }
    assert!(&rt; granted && stopped_at[0] > 0 && stopped_at[2] > 0);
}

// The page written into a vector whose growth `n` is refused, and whether it was.
fn page_before(rt: &(impl Abort + AllocGlobal), page: &Page<'_, '_>, whole: &[u8], n: u64) -> bool {
    let heap = Refusing::new(rt.alloc(), n);
    let mut out = ToVec::new(&heap);
    let fresh = !out.failed();
    assert!(rt; fresh);
    let written = write_page(page, &mut out);
    let refused = heap.has_refused();
    check_same(
        rt,
        written,
        if refused { Err(IoFault::Write) } else { Ok(()) },
    );
    assert!(rt; whole.starts_with(out.taken()));
    check_same(rt, out.taken().len() < whole.len(), refused);
    refused
}

// What a page shows of the three rows and of a refused file, told by its definitions.
const SHOWN: [&[u8]; 6] = [
    b"<title>Atlas: 3 levels in 2 files</title>\n",
    b"<li><b>b&lt;.wad</b> ",
    b"<a class=\"map\" href=\"3-0.svg\"><img loading=\"lazy\" src=\"3-0.svg\" alt=\"map of E1M1\"></a>\n",
    b"<p class=\"where\">a.wad <span>entry 11, udmf</span></p>\n",
    b"<li class=\"warning\">W1 &times; 4</li>\n",
    b"<ul class=\"messages\">\n<li class=\"warning\"><a href=\"3-0.svg#svgView(viewBox(-256,-256,512,512))\">W1 sector 0: ",
];

// The page, written with memory.
fn whole_page(rt: &(impl Abort + AllocGlobal), page: &Page<'_, '_>) -> ToVec<Global> {
    let mut out = ToVec::new(rt.alloc());
    let fresh = !out.failed();
    assert!(rt; fresh);
    check_same(rt, write_page(page, &mut out), Ok(()));
    out
}

fn check_page(rt: &(impl Abort + AllocGlobal), page: &Page<'_, '_>) {
    let whole = whole_page(rt, page);
    for shown in SHOWN {
        assert!(rt; contains(whole.taken(), shown));
    }
    let mut met = 0;
    for n in 1..99 {
        if !page_before(rt, page, whole.taken(), n) {
            break;
        }
        met = n;
    }
    assert!(rt; 0 < met && met < 98);
}

// The page takes no memory of its own: what it writes into does.
#[test]
fn page_refused(rt: HostRuntime) {
    let heap = Refusing::new(rt.alloc(), 0);
    let base = Base::none();
    let mut rows = Vec::new(&heap);
    let added = add_rows(&heap, rt.alloc(), &base, &three_levels(&rt), &mut rows);
    check_same(&rt, added, Ok(()));
    let refused = [RefusedFile {
        path: b"b<.wad",
        why: FileRefusal::NoWad(WadFault::Short),
    }];
    let page = Page {
        head: &PageHead {
            title: b"Atlas",
            day: b"",
        },
        files: 2,
        warnings: Warnings::Told,
        rows: &rows,
        refused: &refused,
    };
    check_page(&rt, &page);
}
