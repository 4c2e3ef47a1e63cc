//! What the routines of `released` give on cases that a seed makes. `tests/released` compares that with the same routines in C.
//!
//! `SEED LINES [ROUTINE]` prints so many lines of a routine, or of each in turn. Each begins anew with the seed. A line tells
//!
//! - of `sides`: for 64 cases two letters each, `F` or `B` by `released_side` and then by `side` of `map_geo`, or `-` if that
//!   isn't asked;
//! - of `levels`: for one level the ssectors of eight points, by `released_leaf`, the sectors of its ssectors, by
//!   `released_sector`, and for each seg the sidedef behind it, by `released_back`, with that one's sector. It is -1 alone if there
//!   is no side, and `none` of a linedef that isn't two-sided;
//! - of `links`: for eight levels, some of whose links don't hold, `F` if one of F3 to F10 holds. Else it is `N` if the game follows
//!   -1 behind a seg, and `L` if it doesn't;
//! - of `sights`: eight bits of a REJECT, by `released_sight_bit`;
//! - of `blocks`: the blocks of eight points as the game computes them and, behind `=`, by `block_of` of `map_tables`: `none` past
//!   the BLOCKMAP, and `outside` if the point isn't in range;
//! - of `lists`: the words of eight blocks of a BLOCKMAP, by `released_list`;
//! - of `commands`: eight commands of a demo, by `released_ticcmd`, or `end` at the marker;
//! - of `recordings`: eight commands as they are written into a demo, by `released_written`, and the header of one that is played,
//!   by `released_header`, or `other` of another version;
//! - of `numbers`: the numbers of eight names in a list of names, by `released_number`.
#![tactic(auto)]

mod blocks;
mod commands;
mod fault;
mod levels;
mod links;
mod lists;
mod lumps;
mod numbers;
mod random;
mod recordings;
mod sides;
mod sights;
mod tables;

use blocks::add_blocks;
use commands::add_commands;
use fault::Fault;
use levels::add_levels;
use links::add_links;
use lists::add_lists;
use numbers::add_numbers;
use random::Random;
use recordings::add_recordings;
use sides::add_sides;
use sights::add_sights;
use std::alloc::Global;
use std::env;
use std::process::ExitCode;
use std::rt::Env;

// A routine, or what several are asked about.
#[derive(Clone, Copy, PartialEq, Eq)]
enum Routine {
    Sides,
    Levels,
    Links,
    Sights,
    Blocks,
    Lists,
    Commands,
    Recordings,
    Numbers,
}

const ALL: [Routine; 9] = [
    Routine::Sides,
    Routine::Levels,
    Routine::Links,
    Routine::Sights,
    Routine::Blocks,
    Routine::Lists,
    Routine::Commands,
    Routine::Recordings,
    Routine::Numbers,
];

// What the words ask for: no routine for all.
#[derive(Clone, Copy)]
struct Asked {
    seed: u64,
    lines: u32,
    routine: Option<Routine>,
}

fn main(rt: HostRuntime) -> ExitCode {
    let Some(asked) = read_words(&rt) else {
        // If standard error fails too, the message is lost.
        let _ = rt.eprintln(format_args!("usage: released_cases SEED LINES [ROUTINE]"));
        return ExitCode::from(2);
    };
    for routine in ALL {
        if asked.routine.is_none_or(|one| one == routine) && !prints(&rt, &asked, routine) {
            return ExitCode::FAILURE;
        }
    }
    ExitCode::SUCCESS
}

fn read_words<R: Env + AllocGlobal>(rt: &R) -> Option<Asked> {
    let words: Vec<String> = env::args(rt).ok()?.collect(rt.alloc()).ok()?;
    let (seed, lines, routine) = match words.as_slice() {
        [_, seed, lines] => (seed, lines, None),
        [_, seed, lines, routine] => (seed, lines, Some(routine_named(routine.as_str())?)),
        _ => return None,
    };
    Some(Asked {
        seed: seed.as_str().parse::<u64>().ok()?,
        lines: lines.as_str().parse::<u32>().ok()?,
        routine,
    })
}

fn routine_named(word: &str) -> Option<Routine> {
    match word.as_bytes() {
        b"sides" => Some(Routine::Sides),
        b"levels" => Some(Routine::Levels),
        b"links" => Some(Routine::Links),
        b"sights" => Some(Routine::Sights),
        b"blocks" => Some(Routine::Blocks),
        b"lists" => Some(Routine::Lists),
        b"commands" => Some(Routine::Commands),
        b"recordings" => Some(Routine::Recordings),
        b"numbers" => Some(Routine::Numbers),
        _ => None,
    }
}

// Prints the lines of a routine; whether all were made and printed.
fn prints<R: Print + AllocGlobal>(rt: &R, asked: &Asked, routine: Routine) -> bool {
    let mut random = Random::new(asked.seed);
    for _line in 0..asked.lines {
        let Ok(line) = line_of(rt.alloc(), routine, &mut random) else {
            return false;
        };
        if rt.println(format_args!("{line}")).is_err() {
            return false;
        }
    }
    true
}

// The next line of a routine.
fn line_of(alloc: Global, routine: Routine, random: &mut Random) -> Result<String, Fault> {
    let mut line = String::new(alloc);
    match routine {
        Routine::Sides => add_sides(&mut line, random)?,
        Routine::Levels => add_levels(&mut line, alloc, random)?,
        Routine::Links => add_links(&mut line, alloc, random)?,
        Routine::Sights => add_sights(&mut line, random)?,
        Routine::Blocks => add_blocks(&mut line, random)?,
        Routine::Lists => add_lists(&mut line, random)?,
        Routine::Commands => add_commands(&mut line, random)?,
        Routine::Recordings => add_recordings(&mut line, random)?,
        Routine::Numbers => add_numbers(&mut line, random)?,
    }
    Ok(line)
}
