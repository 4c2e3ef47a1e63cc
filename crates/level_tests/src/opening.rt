//! The level of a file, and its tree.

use le_rec::Name8;
use map_level::{Level, Reading};
use map_tree::{SectorTree, Tree, is_sound};
use std::alloc::Global;
use std::process::Abort;
use wad_dir::Set;

/// The level E1M1 of a file, with signed indexes.
pub(crate) fn level_of<'f>(rt: &(impl Abort + AllocGlobal), file: &'f [u8]) -> Level<'f> {
    let set = Set::one(rt.alloc(), file).expect(rt, "a set of the file");
    let opened = Level::open(&set, Name8::query(b"E1M1"), Reading::Signed);
    opened.expect(rt, "a level")
}

/// The tree of a level that is sound.
pub(crate) fn tree_of<'l, 'f>(
    rt: &(impl Abort + AllocGlobal),
    level: &'l Level<'f>,
) -> Tree<'l, 'f> {
    assert!(rt; is_sound(rt.alloc(), level).expect(rt, "no memory for the tree"));
    Tree::of(level)
}

/// The same with its sectors listed.
pub(crate) fn sectors_of<'l, 'f>(
    rt: &(impl Abort + AllocGlobal),
    level: &'l Level<'f>,
) -> SectorTree<'l, 'f, Global> {
    SectorTree::of(rt.alloc(), tree_of(rt, level)).expect(rt, "no memory for the tree")
}
