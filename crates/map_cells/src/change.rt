//! The column of a row at which something stops to hold.

ghost use Rattle.std.specs.Prelude.{◌<◌, ◌≤◌, ◌-◌};

/// Something that holds of the points of some columns of a row.
pub trait ColumnTest {
    ghost use Rattle.std.specs.Prelude.{◌↔◌, ◌<◌, ℕ, IsTrue};

    /// How many columns there are.
    ghost columns: { Self → ℕ };

    /// What holds of a column.
    ghost holds: { Self → ℕ → Type 0 };

    /// Whether it holds of a column.
    fn holds(&self, i: u16) -> bool
        requires { i < columns self.now }
        ensures { IsTrue result ↔ holds self.now i };
}

/// A column after `from` at which something doesn't hold that holds at the one before it.
#[inline]
pub fn change<T: ColumnTest>(test: &T, from: u16, to: u16) -> u16
    requires ordered { from < to }
    requires within { to < T.columns test.now }
    requires from { T.holds test.now from }
    requires to { ¬ T.holds test.now to }
    ensures after { from < result }
    ensures to { result ≤ to }
    ensures before { T.holds test.now (result - 1) }
    ensures here { ¬ T.holds test.now result }
{
    let mut low = from;
    let mut high = to;
    while low + 1 < high {
        let middle = low + (high - low) / 2;
        if test.holds(middle) {
            low = middle;
        } else {
            high = middle;
        }
    }
    high
}
