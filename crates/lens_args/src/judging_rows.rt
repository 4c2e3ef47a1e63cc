//! The arguments for how levels are judged.

use crate::arg_row::{ArgRow, Bound, Takes};
use crate::shared_rows::WIDE;

/// The option `--ignore`.
pub const IGNORE: &[ArgRow] = &[ArgRow {
    id: "ignore",
    value: Some("CODES"),
    takes: Takes::Codes,
    bound: Bound::Free,
    help: "Ignore these notes and warnings, as N2,W7-W8",
}];

/// The option `--fail`.
pub const FAIL: &[ArgRow] = &[ArgRow {
    id: "fail",
    value: Some("CODES"),
    takes: Takes::Codes,
    bound: Bound::Free,
    help: "End with status 1 at these, too, as N2,W9-W11; game, notes and warnings name many",
}];

/// The other arguments for how levels are judged.
pub const JUDGING: &[ArgRow] = &[
    WIDE,
    ArgRow {
        id: "map",
        value: None,
        takes: Takes::Flag,
        bound: Bound::Free,
        help: "Also report likely mapping mistakes: warnings",
    },
    // A warning ends a run as a fault does.
    ArgRow {
        id: "strict",
        value: None,
        takes: Takes::Flag,
        bound: Bound::With("map"),
        help: "End with status 1 at a warning, too",
    },
    ArgRow {
        id: "base",
        value: Some("FILE"),
        takes: Takes::Texts,
        bound: Bound::With("map"),
        help: "A file that every FILE stands on, as its game's: its textures and flats count, too",
    },
];
