//! Files that have a directory of no entries, and no files.

use crate::compare::{check_bytes, check_same};
use le_rec::Sink;
use look_engines::{RunFault, lumps};
use std::alloc::Global;
use std::process::Abort;
use test_refusals::SliceSink;
use wad_dir::MAX_FILES;

// What `lumps` answers of these files.
fn list<W: Sink>(
    rt: &impl Abort,
    alloc: Global,
    files: &[Vec<u8>],
    out: &mut W,
) -> Result<(), RunFault> {
    assert!(rt; files.len() <= MAX_FILES && !out.failed());
    lumps(alloc, files, out)
}

fn check_listed(rt: &(impl Abort + AllocGlobal), files: &[Vec<u8>], text: &[u8]) {
    let mut room = [0; 100];
    let mut out = SliceSink::new(&mut room);
    check_same(rt, list(rt, rt.alloc(), files, &mut out), Ok(()));
    check_bytes(rt, out.taken(), text);
}

// No entries, and a directory behind the file's end.
const EMPTY: &[u8] = b"PWAD\0\0\0\0\x0f\x27\0\0";

#[test]
fn empty_directory(rt: HostRuntime) {
    let file = EMPTY.to_vec(rt.alloc()).expect(&rt, "a file");
    let files = vec![in rt.alloc(); file].expect(&rt, "one file");
    check_listed(&rt, &files, b"file 1 PWAD 0\n");
    check_listed(&rt, &[], b"");
}
