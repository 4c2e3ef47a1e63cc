//! Whole command lines over files in memory, where each growth and each write is refused in turn.

use crate::compare::{check_bytes, check_same};
use crate::demo_cases::{TEXT, TWO};
use crate::sample::{LINE_WITHOUT_SIDE_1, base, base_not_reached, base_with, pack};
use crate::texts::{LISTED, NOT_REACHED, SHOWN, SIDE_MISSING};
use le_rec::{Sink, Source};
use look_engines::{Job, RunFault, job, run, status};
use std::alloc::{AllocError, Allocator, Global};
use std::process::Abort;
use test_refusals::{Refusing, SliceSink, SliceSource};
use wad_dir::MAX_FILES;

// A command line, its input, and what it writes.
#[derive(Clone, Copy)]
struct Line<'a> {
    words: &'a str,
    input: &'a [u8],
    text: &'a [u8],
}

// The input of a command that reads none.
const UNREAD: &[u8] = b"unread";

// Command lines over the sample level's file.
const LINES: [Line<'static>; 8] = [
    Line {
        words: "lumps base.wad",
        input: UNREAD,
        text: LISTED,
    },
    Line {
        words: "levels base.wad",
        input: UNREAD,
        text: b"0 E1M1\n",
    },
    Line {
        words: "show E1M1 base.wad",
        input: UNREAD,
        text: SHOWN,
    },
    Line {
        words: "audit E1M1 base.wad",
        input: UNREAD,
        text: b"faults 0 notes 0\n",
    },
    Line {
        words: "points E1M1 base.wad",
        input: b"1 5\n0 5\n-1 5\n",
        text: b"1 5 sector 0 ssector 0\n0 5 sector 1 ssector 1\n-1 5 sector 1 ssector 1\n",
    },
    Line {
        words: "census E1M1 base.wad",
        input: b"-1 0 1 1\n0 0 0 0\n",
        text: b"-1 0 1 1 points 6 0:2 1:4\n0 0 0 0 points 1 1:1\n",
    },
    Line {
        words: "sight E1M1 base.wad",
        input: b"0 1\n1 0\nx\n",
        text: b"0 1 clear\n1 0 clear\nrefused: form\n",
    },
    Line {
        words: "blocks E1M1 base.wad",
        input: b"0 5\nx\n",
        text: b"0 5 block 0 0 lines 0 0\nrefused: form\n",
    },
];

// The words of a line.
fn words_of(alloc: Global, line: &str) -> Result<Vec<String>, AllocError> {
    let mut words = Vec::new(alloc);
    for word in line.split(' ') {
        words.push(String::from_str(alloc, word)?)?;
    }
    Ok(words)
}

// How a job over these files ends.
fn run_job<A: Allocator + Copy>(
    rt: &impl Abort,
    alloc: A,
    words: &[String],
    job: Job,
    files: &[Vec<u8>],
    input: &mut SliceSource<'_>,
    out: &mut SliceSink<'_>,
) -> Result<bool, RunFault> {
    let fresh = !input.failed() && !out.failed();
    let all = job.paths(words).len() == files.len();
    let few = files.len() <= MAX_FILES;
    assert!(rt; fresh && all && few);
    run(alloc, words, job, files, input, out)
}

// How a command line over these files ends.
fn run_line<A: Allocator + Copy>(
    rt: &(impl Abort + AllocGlobal),
    alloc: A,
    line: &str,
    files: &[Vec<u8>],
    input: &mut SliceSource<'_>,
    out: &mut SliceSink<'_>,
) -> Result<bool, RunFault> {
    let words = words_of(rt.alloc(), line).expect(rt, "no memory for the words");
    let job = job(&words).expect(rt, "no form of a command");
    run_job(rt, alloc, &words, job, files, input, out)
}

// A command that met a refused growth has read and written nothing, but `census` a front of its text.
fn check_stopped(
    rt: &impl Abort,
    line: Line<'_>,
    ended: Result<bool, RunFault>,
    left: &[u8],
    taken: &[u8],
) {
    check_same(rt, status(&ended), 3);
    assert!(rt; line.text.starts_with(taken));
    if !line.words.starts_with("census") {
        assert!(rt; taken.is_empty());
        check_bytes(rt, left, line.input);
    }
}

// Whether a command line met growth `n` refused.
fn is_refused(rt: &(impl Abort + AllocGlobal), line: Line<'_>, files: &[Vec<u8>], n: u64) -> bool {
    let heap = Refusing::new(rt.alloc(), n);
    let mut room = [0; 1024];
    let mut out = SliceSink::new(&mut room);
    let mut input = SliceSource::new(line.input);
    let ended = run_line(rt, &heap, line.words, files, &mut input, &mut out);
    if heap.has_refused() {
        check_stopped(rt, line, ended, input.left(), out.taken());
        return true;
    }
    assert!(rt; ended.is_ok());
    check_bytes(rt, out.taken(), line.text);
    false
}

// Each growth that a command line asks for is refused in turn, and after each one none.
fn check_growths(rt: &(impl Abort + AllocGlobal), line: Line<'_>, files: &[Vec<u8>]) {
    let mut met = 0;
    for n in 1..99 {
        if !is_refused(rt, line, files, n) {
            break;
        }
        assert!(rt; !is_refused(rt, line, files, 0));
        met = n;
    }
    assert!(rt; 0 < met && met < 98);
}

// The file, as the only one.
fn only(rt: &(impl Abort + AllocGlobal), file: Vec<u8>) -> Vec<Vec<u8>> {
    vec![in rt.alloc(); file].expect(rt, "no memory for the files")
}

// How `audit` of a file's level E1M1 meets refused growths.
fn check_audit(rt: &(impl Abort + AllocGlobal), file: Vec<u8>, text: &[u8]) {
    let line = Line {
        words: "audit E1M1 level.wad",
        input: UNREAD,
        text,
    };
    check_growths(rt, line, &only(rt, file));
}

// The line `extract` of the sample level, and what it writes.
fn extract(text: &[u8]) -> Line<'_> {
    Line {
        words: "extract E1M1 base.wad",
        input: UNREAD,
        text,
    }
}

#[test]
fn growth_refused(rt: HostRuntime) {
    let files = only(&rt, base(&rt));
    for line in LINES {
        check_growths(&rt, line, &files);
    }
    check_growths(&rt, extract(&base(&rt)), &files);
}

#[test]
fn growth_refused_in_two_files(rt: HostRuntime) {
    let files = vec![in rt.alloc(); base(&rt), base(&rt)].expect(&rt, "two files");
    let line = Line {
        words: "levels base.wad base.wad",
        input: UNREAD,
        text: b"0 E1M1 hidden\n11 E1M1\n",
    };
    check_growths(&rt, line, &files);
}

#[test]
fn growth_refused_with_findings(rt: HostRuntime) {
    check_audit(&rt, base_not_reached(&rt), NOT_REACHED);
    let side_missing = base_with(&rt, &[(2, &LINE_WITHOUT_SIDE_1)]);
    check_audit(&rt, side_missing, SIDE_MISSING);
    let sight_bits = base_with(&rt, &[(9, &[])]);
    check_audit(&rt, sight_bits, b"N8 0 REJECT size\nfaults 0 notes 1\n");
}

const DEMO: Line<'static> = Line {
    words: "demo demo1 demo.wad",
    input: UNREAD,
    text: TEXT,
};

#[test]
fn growth_refused_in_a_demo(rt: HostRuntime) {
    let files = only(&rt, pack(&rt, &[(b"DEMO1", &TWO)]));
    check_growths(&rt, DEMO, &files);
}

// How many bytes of an input, pulled one by one, are left by a command that stops behind that text.
fn left_behind(input: &[u8], text: &[u8]) -> usize {
    if input == UNREAD {
        return input.len();
    }
    let answered = text.iter().filter(|byte| **byte == b'\n').count();
    let mut lines: usize = 0;
    let mut left: usize = 0;
    for byte in input {
        if lines > answered {
            left = left.wrapping_add(1);
        }
        if *byte == b'\n' {
            lines = lines.wrapping_add(1);
        }
    }
    left
}

// A writer that takes a byte a call and fails behind so many: written are they alone, and no more is pulled.
fn fails_behind(rt: &(impl Abort + AllocGlobal), line: Line<'_>, files: &[Vec<u8>], count: u16) {
    let failing = u32::from(count) + 1;
    let mut room = [0; 1024];
    let mut out = SliceSink::new(&mut room).at_most(1).failing_at(failing);
    let mut input = SliceSource::new(line.input).at_most(1);
    let ended = run_line(rt, rt.alloc(), line.words, files, &mut input, &mut out);
    check_same(rt, ended, Err(RunFault::Write));
    check_same(rt, Some(out.taken()), line.text.get(..usize::from(count)));
    let left = left_behind(line.input, out.taken());
    check_same(rt, input.left().len(), left);
}

fn check_writes(rt: &(impl Abort + AllocGlobal), line: Line<'_>, files: &[Vec<u8>]) {
    assert!(rt; line.text.len() <= 1024);
    for count in 0..line.text.len() as u16 {
        fails_behind(rt, line, files, count);
    }
}

#[test]
fn writer_fails(rt: HostRuntime) {
    let files = only(&rt, base(&rt));
    for line in LINES {
        check_writes(&rt, line, &files);
    }
    check_writes(&rt, extract(&base(&rt)), &files);
}

#[test]
fn writer_fails_in_a_demo(rt: HostRuntime) {
    let files = only(&rt, pack(&rt, &[(b"DEMO1", &TWO)]));
    check_writes(&rt, DEMO, &files);
}
