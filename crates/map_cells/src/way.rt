//! The way of a row's points down the nodes: they go down together, until a partition separates them.

ghost use Rattle.std.specs.Prelude.{◌≡◌, ◌<◌, ◌≤◌, ℕ};
ghost use Rattle.map_geo.specs.Partition.{partition_of};
ghost use Rattle.map_geo.specs.Point.{IsInRange};
ghost use Rattle.map_geo.specs.Side.{other, side_of};
ghost use Rattle.map_geo.specs.Side.{side_of};
ghost use Rattle.map_tree.specs.Child.{place_of, root};
ghost use Rattle.map_tree.specs.Sound.{IsSound};
ghost use Rattle.map_cells.specs.Grid.{columns_of};
ghost use Rattle.map_cells.specs.Row.{point_of};
ghost use Rattle.map_cells.specs.Way.{AllCome, ArePending, IsParted};

use crate::change::ColumnTest;
use crate::row::Row;
use arrayvec::ArrayVec;
use le_rec::Node;
use map_geo::{Partition, Side, side};
use map_level::Level;
use map_tree::{NF_SUBSECTOR, root_word, word_at};

/// Columns of a row, up to an end that isn't one of them, and the child word of the place that their points have reached.
#[derive(Clone, Copy, Default)]
pub struct Stretch {
    pub word: u16,
    pub end: u16,
}

/// The parts of a row that haven't reached an ssector yet, the first part last. There are at most as many as the row has
/// cells.
pub type Pending = ArrayVec<Stretch, 1024>;

/// The whole row at the root.
pub fn start(level: &Level<'_>, row: Row) -> Stretch
    requires { IsSound level.now }
    ensures word { place_of result.word ≡ root level.now }
    ensures end { result.end ≡ columns_of row.grid }
{
    Stretch {
        word: root_word(level.nodes().len()),
        end: row.columns(),
    }
}

/// Takes the first of the columns in hand down to an ssector. Those that part from it are left pending.
pub fn go_down(
    level: &Level<'_>,
    row: Row,
    from: u16,
    hand: Stretch,
    pending: &mut Pending,
) -> Stretch
    requires sound { IsSound level.now }
    requires some { from < hand.end }
    requires within { hand.end ≤ columns_of row.grid }
    requires few { columns_of row.grid ≤ 1024 }
    requires come { AllCome level.now row from hand.end hand.word }
    requires pending { ArePending level.now row hand.end (columns_of row.grid) pending.old.items }
    ensures ssector { 32768 ≤ result.word }
    ensures some { from < result.end }
    ensures within { result.end ≤ columns_of row.grid }
    ensures come { AllCome level.now row from result.end result.word }
    ensures pending { ArePending level.now row result.end (columns_of row.grid) pending.new.items }
{
    let nodes = level.nodes();
    let mut hand = hand;
    'turns: for _turn in 0..nodes.len() {
        if hand.word >= NF_SUBSECTOR {
            break;
        }
        let parted = part_at(&nodes.at(usize::from(hand.word)), row, from, hand.end);
        if parted.near.end < hand.end {
            pending.push(Stretch {
                word: parted.far,
                end: hand.end,
            });
        }
        hand = parted.near;
    }
    hand
}

/// The first columns, and the word to which the others go, if there are some.
#[derive(Clone, Copy)]
pub struct Parted {
    pub near: Stretch,
    pub far: u16,
}

// Whether a point of a row lies on a side of a partition.
#[derive(Drop)]
struct OnSide {
    row: Row,
    partition: Partition,
    side: Side,
}

impl ColumnTest for OnSide {
    ghost use Rattle.std.specs.Prelude.{◌≡◌};
    ghost use Rattle.map_geo.specs.Side.{side_of};
    ghost use Rattle.map_cells.specs.Grid.{columns_of};
    ghost use Rattle.map_cells.specs.Row.{point_of};

    ghost columns = { λ test. columns_of test.row.grid };

    ghost holds = { λ test i. side_of test.partition (point_of test.row i) ≡ test.side };

    #[inline]
    fn holds(&self, i: u16) -> bool {
        side(self.row.point(i), self.partition) == self.side
    }
}

// Parts the columns of a row at a node: those on the side of the first go to one child, the others to the other one.
#[inline]
fn part_at(node: &Node, row: Row, from: u16, end: u16) -> Parted
    requires x_in { IsInRange node.now.x }
    requires y_in { IsInRange node.now.y }
    requires some { from < end }
    requires within { end ≤ columns_of row.grid }
    ensures { IsParted node.now row from end result }
{
    let partition = Partition::at(node);
    let first = side(row.point(from), partition);
    let test = OnSide {
        row,
        partition,
        side: first,
    };
    Parted {
        near: Stretch {
            word: word_at(node, first),
            end: near_end(&test, from, end),
        },
        far: word_at(node, first.other()),
    }
}

// The first column after `from` whose point isn't on the side, or the end. A single column needs no further test. Of two
// columns it is the second, if it isn't the end.
#[inline]
fn near_end(test: &OnSide, from: u16, end: u16) -> u16
    requires some { from < end }
    requires within { end ≤ columns_of test.now.row.grid }
    requires begins { side_of test.now.partition (point_of test.now.row from) ≡ test.now.side }
    ensures some { from < result }
    ensures within { result ≤ end }
    ensures near { (i : ℕ) → from ≤ i → i < result
        → side_of test.now.partition (point_of test.now.row i) ≡ test.now.side }
    ensures far { (i : ℕ) → result ≤ i → i < end
        → side_of test.now.partition (point_of test.now.row i) ≡ other test.now.side }
{
    let last = end - 1;
    if last == from || test.holds(last) {
        return end;
    }
    if last - from == 1 {
        return last;
    }
    met_end(test, from, last)
}

// The first column up to `last` that isn't on the side of `from`; `last` isn't. The line of the partition comes nearer by the
// same amount with each column, so a division finds where it is met.
#[inline]
fn met_end(test: &OnSide, from: u16, last: u16) -> u16
    requires ordered { from < last }
    requires within { last < columns_of test.now.row.grid }
    requires begins { side_of test.now.partition (point_of test.now.row from) ≡ test.now.side }
    requires ends { side_of test.now.partition (point_of test.now.row last) ≡ other test.now.side }
    ensures some { from < result }
    ensures within { result ≤ last }
    ensures near { (i : ℕ) → from ≤ i → i < result
        → side_of test.now.partition (point_of test.now.row i) ≡ test.now.side }
    ensures far { (i : ℕ) → result ≤ i → i ≤ last
        → side_of test.now.partition (point_of test.now.row i) ≡ other test.now.side }
{
    let here = test.partition.cross(test.row.point(from));
    let next = test.partition.cross(test.row.point(from + 1));
    let distance = here.unsigned_abs();
    let step = here.abs_diff(next);
    let met = from + (distance / step) as u16;
    // A point of the line itself may be on either side.
    if distance % step == 0 && !test.holds(met) {
        met
    } else {
        met + 1
    }
}
