//! The list of a block as linuxdoom 1.10 walks it.

ghost use Rattle.std.specs.Prelude.{◌≡◌, ◌≤◌, negsuc, length, position};
ghost use Rattle.std.specs.Ordering.{int_eq};
ghost use Rattle.std.specs.Option.{option_map};
ghost use Rattle.released.specs.BlockLines.{is_outside, released_block_number, word_of, words_from, walked, released_block_list, released_list};

/// P_BlockLinesIterator of p_maputl.c, up to what it does with each word: those of the list of the block in column x and
/// row y, in the signed words of a BLOCKMAP of at least four. None where the game reads before the words or past them.
pub fn released_list(words: &[i16], x: i32, y: i32) -> Option<&[i16]>
    requires { 4 ≤ length words.now }
    ensures { option_map (λ list. list.now) result ≡ released_list words.now x y }
{
    let width = i32::from(words[2]);
    if is_outside(width, i32::from(words[3]), x, y) {
        return Some(&[]);
    }
    block_list(words, block_number(width, x, y))
}

// Whether there is no block in that column and row.
fn is_outside(width: i32, height: i32, x: i32, y: i32) -> bool
    ensures { result ≡ is_outside width height x y }
{
    x < 0 || y < 0 || x >= width || y >= height
}

// The number of the block.
fn block_number(width: i32, x: i32, y: i32) -> i32
    ensures { result ≡ released_block_number width x y }
{
    y.wrapping_mul(width).wrapping_add(x)
}

// The list from the offset of a block on.
fn block_list(words: &[i16], number: i32) -> Option<&[i16]>
    requires { 4 ≤ length words.now }
    ensures { option_map (λ list. list.now) result ≡ released_block_list words.now number }
{
    let offset = word_of(&words[4..], number)?;
    walked(words_from(words, offset)?)
}

// The word at an index, or None where there is none.
fn word_of(words: &[i16], index: i32) -> Option<i16>
    ensures { result ≡ word_of words.now index }
{
    if index < 0 {
        return None;
    }
    words.get(index as usize).copied()
}

// The words from an index on, none where it is past them; None where it is before them.
fn words_from(words: &[i16], index: i16) -> Option<&[i16]>
    ensures { option_map (λ list. list.now) result ≡ words_from words.now index }
{
    if index < 0 {
        return None;
    }
    Some(&words[words.len().min(index as usize)..])
}

// The words before the first -1.
fn walked(words: &[i16]) -> Option<&[i16]>
    ensures { option_map (λ list. list.now) result ≡ walked words.now }
{
    let end = end_of(words)?;
    Some(&words[..end])
}

// The place of the first -1.
fn end_of(words: &[i16]) -> Option<usize>
    ensures { result ≡ position (λ word. int_eq word (negsuc 0)) words.now }
{
    words.iter().position(|word| *word == -1)
}
