//! The arguments of `atlas`.

use crate::arg_row::{ArgRow, Bound, Takes};
use crate::shared_rows::CELLS;

/// The arguments of `atlas`, without those for its files.
pub const ATLAS: &[ArgRow] = &[
    ArgRow {
        id: "out",
        value: Some("FOLDER"),
        takes: Takes::Text,
        bound: Bound::Required,
        help: "The folder to write into, which is made or is empty",
    },
    CELLS,
    ArgRow {
        id: "max",
        value: Some("N"),
        takes: Takes::Number,
        bound: Bound::Free,
        help: "Show at most N findings or warnings of one code on a level's card; 0 shows all [default: 3]",
    },
    ArgRow {
        id: "title",
        value: Some("TITLE"),
        takes: Takes::Text,
        bound: Bound::Free,
        help: "Head the page with this title [default: Atlas]",
    },
    ArgRow {
        id: "day",
        value: Some("DAY"),
        takes: Takes::Text,
        bound: Bound::Free,
        help: "Show this day on the page, as 2026-11-30; without it none is shown",
    },
];
