//! Numbers: of the lumps of names.

ghost use Rattle.std.specs.Prelude.{◌≤◌, ◌<◌};

use crate::random::Random;
use released::released_number;
use std::alloc::AllocError;

// A name as it stands in a directory.
type Field = [u8; 8];

const MOST_NAMES: usize = 16;

// Capital letters, and what stands beside letters of both kinds.
const LETTERS: [u8; 8] = *b"ABZ1@[`{";

/// The numbers of eight names in one list of names.
pub fn add_numbers(line: &mut String, random: &mut Random) -> Result<(), AllocError> {
    let count = 1 + random.below(MOST_NAMES);
    let mut names = [[0; 8]; MOST_NAMES];
    for i in 0..count {
        let name = listed_name(random, &names[..i]);
        names[i] = name;
    }
    line.push_str("numbers")?;
    for _name in 0..8 {
        let name = names[random.below(count)];
        let asked = any_asked(random, name);
        write!(line, " {}", released_number(&names[..count], &asked))?;
    }
    Ok(())
}

fn any_letter(random: &mut Random) -> u8 {
    LETTERS[random.choice()]
}

// The name with another letter in its second half.
fn with_letter(random: &mut Random, mut name: Field) -> Field {
    let i = 4 + random.below(4);
    name[i] = any_letter(random);
    name
}

// Eight letters, at times with a small one, and often with a NUL.
fn any_name(random: &mut Random) -> Field {
    let mut name = [0; 8];
    for letter in name.iter_mut() {
        *letter = any_letter(random);
    }
    if random.choice() == 0 {
        name[random.below(8)] = b'a';
    }
    let end = random.below(9);
    if end < 8 {
        name[end] = 0;
    }
    name
}

// A name, or one from before: as it is, with another letter, or with a NUL.
fn listed_name(random: &mut Random, before: &[Field]) -> Field {
    let chosen = random.choice();
    if before.is_empty() || chosen > 2 {
        return any_name(random);
    }
    let mut name = before[random.below(before.len())];
    if chosen == 1 {
        return with_letter(random, name);
    }
    if chosen == 2 {
        name[random.below(8)] = 0;
    }
    name
}

// What is asked: a name with two letters behind it, as it is, or changed in one of several ways.
fn any_asked(random: &mut Random, name: Field) -> [u8; 10] {
    let chosen = random.choice();
    let behind = [any_letter(random), any_letter(random)];
    let name = match chosen {
        0 => any_name(random),
        1 => with_letter(random, name),
        _ => name,
    };
    let mut asked = [0; 10];
    asked[..8].copy_from_slice(&name);
    asked[8..].copy_from_slice(&behind);
    match chosen {
        2 => asked[random.below(9)] = 0,
        3 => asked = in_small_letters(asked),
        _ => {}
    }
    asked
}

fn in_small_letters(mut letters: [u8; 10]) -> [u8; 10] {
    letters.make_ascii_lowercase();
    letters
}
