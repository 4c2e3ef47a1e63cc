//! The arguments of `picture`.

use crate::arg_row::{ArgRow, Bound, Takes};
use crate::shared_rows::{CELLS, WIDE};

/// The arguments of `picture`.
pub const PICTURE: &[ArgRow] = &[
    WIDE,
    ArgRow {
        id: "map",
        value: None,
        takes: Takes::Flag,
        bound: Bound::Free,
        help: "Also mark likely mapping mistakes: open corners, bare sides, things in the void, twins, unknown things",
    },
    CELLS,
    ArgRow {
        id: "frame",
        value: Some("X0,Y0,X1,Y1"),
        takes: Takes::Hyphened,
        bound: Bound::Free,
        help: "Draw the cells of this part of the map alone",
    },
    ArgRow {
        id: "name",
        value: Some("NAME"),
        takes: Takes::Place,
        bound: Bound::Required,
        help: "The level's name, as E1M1",
    },
    ArgRow {
        id: "files",
        value: Some("FILE"),
        takes: Takes::Places,
        bound: Bound::Required,
        help: "The files, at most 64, in one set: a later one hides the names of those before it",
    },
];
