//! Numbers of a list, by marks.

ghost use Rattle.std.specs.Prelude.{◌≡◌, ◌==◌, ℕ, slice_index_or};
ghost use Rattle.game_numbers.specs.Number.{is_marked};

// The byte of a number that is in the list.
const MARK: u8 = b'x';

/// Whether a number is marked.
#[inline]
pub fn is_marked(marks: &[u8], number: i16) -> bool
    ensures { result ≡ is_marked marks.now number }
{
    if number < 0 {
        return false;
    }
    is_marked_at(marks, number as usize)
}

#[inline]
fn is_marked_at(marks: &[u8], at: usize) -> bool
    ensures { result ≡ (slice_index_or marks.now at 46 == 120) }
{
    if at < marks.len() {
        return marks[at] == MARK;
    }
    false
}
