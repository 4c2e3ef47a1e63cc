//! Lists: of the blocks of a BLOCKMAP.

ghost use Rattle.std.specs.Prelude.{◌≤◌, ◌<◌};

use crate::random::Random;
use released::released_list;
use std::alloc::AllocError;

const HEAD: usize = 4;

const MOST_BLOCKS: usize = 36;

const LISTED: usize = 48;

const MOST_WORDS: usize = HEAD + MOST_BLOCKS + LISTED;

// A BLOCKMAP of so many columns and rows, and how many words it has.
#[derive(Drop)]
struct Grid {
    width: u32,
    height: u32,
    count: usize,
    words: [i16; MOST_WORDS],
    ghost some_columns: { 0 < width },
    ghost some_rows: { 0 < height },
    ghost head: { 4 ≤ count },
    ghost whole: { count ≤ 88 },
}

/// The lists of eight blocks of one BLOCKMAP.
pub fn add_lists(line: &mut String, random: &mut Random) -> Result<(), AllocError> {
    let grid = any_grid(random);
    line.push_str("lists")?;
    for _block in 0..8 {
        let chosen = random.choice();
        let x = any_place(random, chosen, grid.width);
        let y = any_place(random, chosen, grid.height);
        add_list(line, released_list(&grid.words[..grid.count], x, y))?;
    }
    Ok(())
}

// Each list ends at the last word at the latest. Some heads tell fewer blocks, or none.
fn any_grid(random: &mut Random) -> Grid {
    let width = 1 + random.below(6) as u32;
    let height = 1 + random.below(6) as u32;
    let chosen = random.choice();
    let blocks = (width.wrapping_mul(height) as usize).min(MOST_BLOCKS);
    let count = HEAD + blocks + LISTED;
    let mut words = [-1; MOST_WORDS];
    words[0] = random.half();
    words[1] = random.half();
    words[2] = if chosen == 0 {
        -(width as i16)
    } else {
        width as i16
    };
    words[3] = if chosen == 1 {
        height as i16 - 1
    } else {
        height as i16
    };
    for i in HEAD..HEAD + blocks {
        words[i] = any_offset(random, blocks);
    }
    for i in HEAD + blocks..count - 1 {
        words[i] = any_listed(random);
    }
    Grid {
        width,
        height,
        count,
        words,
    }
}

// An offset among the lists, or at times of any word.
fn any_offset(random: &mut Random, blocks: usize) -> i16
    requires { blocks ≤ 36 }
{
    let first = HEAD + blocks;
    if random.choice() == 0 {
        random.below(first + LISTED) as i16
    } else {
        (first + random.below(LISTED)) as i16
    }
}

// A word of a list: at times one that begins it, or one that ends it.
fn any_listed(random: &mut Random) -> i16 {
    match random.choice() {
        0 => 0,
        1 => -1,
        2 => random.half(),
        _ => random.near(0, 40),
    }
}

// A column or a row of so many, at times one beside them or any number.
fn any_place(random: &mut Random, chosen: usize, count: u32) -> i32
    requires { 0 < count }
{
    match chosen {
        0 => random.word(),
        1 => random.from(-2, 12),
        _ => random.from(0, count),
    }
}

fn add_list(line: &mut String, list: Option<&[i16]>) -> Result<(), AllocError> {
    let Some(list) = list else {
        return line.push_str(" none");
    };
    if list.is_empty() {
        return line.push_str(" empty");
    }
    let mut before = ' ';
    for word in list {
        write!(line, "{before}{word}")?;
        before = ',';
    }
    Ok(())
}
