//! Pictures of cells: what they show, with each growth refused in turn.

ghost use Rattle.map_tree.specs.Sound.{IsSound};

use crate::compare::check_same;
use crate::growth_end::GrowthEnd;
use crate::opening::level_of;
use crate::sample::{SEGS, base, base_with};
use map_cells::{Block, CellCount, Cells, Frame, Grid, Groups, SectorCounts, Shown};
use map_level::Level;
use map_tree::is_sound;
use std::alloc::{AllocError, Allocator};
use std::process::Abort;
use test_refusals::Refusing;

// A frame, and how many cells its longer side has.
type Drawing = ([i16; 4], u32);

fn grid_of(rt: &impl Abort, drawing: Drawing) -> Grid {
    let ([x0, y0, x1, y1], cells) = drawing;
    let frame = Frame::new(x0, y0, x1, y1).expect(rt, "a frame");
    let cells = CellCount::new(cells).expect(rt, "so many cells");
    Grid::new(frame, cells)
}

// The cells of a grid, which have all their memory from one heap.
fn cells_of<'h>(
    heap: &'h Refusing,
    level: &Level<'_>,
    grid: Grid,
) -> Result<Cells<&'h Refusing>, AllocError>
    requires { IsSound level.now }
{
    let shown = Shown::of(heap, level)?;
    Cells::of(heap, &shown, grid)
}

// Compares what each cell shows with what the level shows at its point.
fn check_cells<A: Allocator, B: Allocator>(
    rt: &impl Abort,
    cells: &Cells<A>,
    shown: &Shown<'_, '_, B>,
) {
    let grid = cells.grid();
    for j in 0..grid.rows() {
        for i in 0..grid.columns() {
            let told = cells.get(usize::from(i), usize::from(j));
            check_same(rt, (i, j, told), (i, j, shown.at(grid.x(i), grid.y(j))));
        }
    }
}

// What becomes of the cells of a grid where growth `n` is refused. Whatever is drawn is the same.
fn end_of(rt: &(impl Abort + AllocGlobal), level: &Level<'_>, grid: Grid, n: u64) -> GrowthEnd
    requires { IsSound level.now }
{
    let heap = Refusing::new(rt.alloc(), n);
    let Ok(cells) = cells_of(&heap, level, grid) else {
        assert!(rt; heap.has_refused());
        return GrowthEnd::Refused;
    };
    let shown = Shown::of(rt.alloc(), level).expect(rt, "no memory for the sectors");
    check_cells(rt, &cells, &shown);
    if heap.has_refused() {
        GrowthEnd::Spared
    } else {
        GrowthEnd::Granted
    }
}

// Compares the ends with growth 1, 2, .. refused, of a level that is sound.
fn check_level(
    rt: &(impl Abort + AllocGlobal),
    level: &Level<'_>,
    drawing: Drawing,
    expected: &[GrowthEnd],
) {
    assert!(rt; is_sound(rt.alloc(), level).expect(rt, "no memory for the tree"));
    let grid = grid_of(rt, drawing);
    for (i, one) in expected.iter().enumerate() {
        check_same(rt, (i, end_of(rt, level, grid, i as u64 + 1)), (i, *one));
    }
}

fn check_ends(
    rt: &(impl Abort + AllocGlobal),
    file: Vec<u8>,
    drawing: Drawing,
    expected: &[GrowthEnd],
) {
    check_level(rt, &level_of(rt, &file), drawing, expected);
}

// The sectors of the ssectors are listed, then there are the cells, and then the ends of the segs.
const WITH_LIST: [GrowthEnd; 4] = [
    GrowthEnd::Refused,
    GrowthEnd::Refused,
    GrowthEnd::Spared,
    GrowthEnd::Granted,
];

const WITHOUT_LIST: [GrowthEnd; 3] = [GrowthEnd::Refused, GrowthEnd::Refused, GrowthEnd::Granted];

// Sixteen by sixteen cells of eight map units: the line of the sample level is in their middle.
const SQUARE: Drawing = ([-64, 0, 63, 127], 16);

#[test]
fn growths_of_square(rt: HostRuntime) {
    check_ends(&rt, base(&rt), SQUARE, &WITH_LIST);
}

// The sample level's file with so many segs, the first two of them its own.
fn base_of_segs(rt: &(impl Abort + AllocGlobal), count: u32) -> Vec<u8> {
    let mut segs = Vec::new(rt.alloc());
    for _seg in 0..count / 2 {
        let added = segs.extend_from_slice(&SEGS);
        added.expect(rt, "no memory for the segs");
    }
    base_with(rt, &[(5, &segs)])
}

// Their ends are listed where there are four times as many cells.
#[test]
fn growths_by_segs(rt: HostRuntime) {
    check_ends(&rt, base_of_segs(&rt, 64), SQUARE, &WITH_LIST);
    check_ends(&rt, base_of_segs(&rt, 66), SQUARE, &WITHOUT_LIST);
}

// Rows go down together where they have eight columns and the picture has 256 cells.
#[test]
fn growths_by_cells(rt: HostRuntime) {
    check_ends(&rt, base(&rt), ([-32, 0, 31, 255], 32), &WITH_LIST);
    check_ends(&rt, base(&rt), ([-32, 0, 31, 247], 31), &WITHOUT_LIST);
    check_ends(&rt, base(&rt), ([-32, 0, 23, 319], 40), &WITHOUT_LIST);
}

// No point is in range, or those of one row alone: 256 of them, or 255.
#[test]
fn growths_out_of_range(rt: HostRuntime) {
    let (far, row, shorter_row) = (
        [20000, 0, 20127, 127],
        [-1024, 16376, 1023, 16391],
        [-1024, 16376, 1015, 16391],
    );
    check_ends(&rt, base(&rt), (far, 16), &WITHOUT_LIST);
    check_ends(&rt, base(&rt), (row, 256), &WITH_LIST);
    check_ends(&rt, base(&rt), (shorter_row, 255), &WITHOUT_LIST);
}

// Whether the groups of cells met growth `n` refused.
fn are_groups_refused(rt: &(impl Abort + AllocGlobal), cells: &Cells, n: u64) -> bool {
    let heap = Refusing::new(rt.alloc(), n);
    let Ok(groups) = Groups::of(&heap, cells) else {
        assert!(rt; heap.has_refused());
        return true;
    };
    assert!(rt; !heap.has_refused());
    check_groups(rt, &groups);
    false
}

// Each sector of the square has one block, that of its half.
fn check_groups<A: Allocator>(rt: &impl Abort, groups: &Groups<A>) {
    assert!(rt; groups.len() == 2);
    check_half(rt, groups.blocks(0), 8);
    check_half(rt, groups.blocks(1), 0);
}

fn check_half(rt: &impl Abort, blocks: &[Block], column: u16) {
    let half = Block {
        column,
        row: 0,
        width: 8,
        height: 16,
    };
    check_same(rt, blocks.len(), 1);
    check_same(rt, blocks.get(0).copied(), Some(half));
}

// Whether the counts of cells met growth `n` refused.
fn are_counts_refused(rt: &(impl Abort + AllocGlobal), cells: &Cells, n: u64) -> bool {
    let heap = Refusing::new(rt.alloc(), n);
    let Ok(counts) = SectorCounts::of(&heap, cells) else {
        assert!(rt; heap.has_refused());
        return true;
    };
    assert!(rt; !heap.has_refused());
    check_same(
        rt,
        [counts.get(0), counts.get(1), counts.get(2)],
        [128, 128, 0],
    );
    false
}

// A list of counts, one of sectors, and one of blocks for each of the two.
fn check_growths(rt: &(impl Abort + AllocGlobal), cells: &Cells) {
    for n in 1..5 {
        assert!(rt; are_groups_refused(rt, cells, n));
    }
    assert!(rt; !are_groups_refused(rt, cells, 5));
    assert!(rt; are_counts_refused(rt, cells, 1));
    assert!(rt; !are_counts_refused(rt, cells, 2));
}

fn check_square(rt: &(impl Abort + AllocGlobal), level: &Level<'_>) {
    assert!(rt; is_sound(rt.alloc(), level).expect(rt, "no memory for the tree"));
    let shown = Shown::of(rt.alloc(), level).expect(rt, "no memory for the sectors");
    let cells = Cells::of(rt.alloc(), &shown, grid_of(rt, SQUARE));
    check_growths(rt, &cells.expect(rt, "no memory for the cells"));
}

#[test]
fn growths_of_groups(rt: HostRuntime) {
    let file = base(&rt);
    check_square(&rt, &level_of(&rt, &file));
}
