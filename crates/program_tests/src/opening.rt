//! The level of a file.

use le_rec::Name8;
use map_level::{Level, Reading};
use std::process::Abort;
use wad_dir::Set;

/// The level E1M1 of a file, with signed indexes.
pub(crate) fn level_of<'f>(rt: &(impl Abort + AllocGlobal), file: &'f [u8]) -> Level<'f> {
    let set = Set::one(rt.alloc(), file).expect(rt, "a set of the file");
    let opened = Level::open(&set, Name8::query(b"E1M1"), Reading::Signed);
    opened.expect(rt, "a level")
}
