//! Arguments that several commands take.

use crate::arg_row::{ArgRow, Bound, Takes};

/// The option `--wide`: a level's indexes are read as numbers from 0 to 65535.
pub const WIDE: ArgRow = ArgRow {
    id: "wide",
    value: None,
    takes: Takes::Flag,
    bound: Bound::Free,
    help: "Read a level's indexes as numbers from 0 to 65535",
};

/// The option `--cells`: how many cells the longer side of a picture has at most.
pub const CELLS: ArgRow = ArgRow {
    id: "cells",
    value: Some("N"),
    takes: Takes::Cells,
    bound: Bound::Free,
    help: "Draw at most N cells along the longer side [default: 512]",
};
