//! Kinds of things, by what the game does with them.

ghost use Rattle.std.specs.Prelude.{◌≡◌};
ghost use Rattle.game_numbers.specs.Number.{is_between, is_one_of};
ghost use Rattle.game_numbers.specs.Kinds.{game_kinds, is_in_runs, second_game};

use crate::marks::is_marked;

// Marks of these kinds, from 0 on, a row for ten.
const SECOND_GAME: &[u8] = b"\
    ..........\
    ..........\
    ..........\
    ..........\
    ..........\
    ..........\
    ....xxxxxx\
    .x........\
    ....x...xx";

/// Whether a kind is one at which the first game ends the reading of a level's things.
#[inline]
#[tactic(auto, using(crate::proofs::MarkLemmas::second_game_marks))]
pub fn is_second_game(kind: i16) -> bool
    ensures { result ≡ is_one_of second_game kind }
{
    is_marked(SECOND_GAME, kind)
}

/// Whether a kind is one of the game's things that stand in levels.
#[inline]
#[tactic(auto, using(crate::proofs::KindLemmas::runs_are_kinds))]
pub fn is_of_the_game(kind: i16) -> bool
    ensures { result ≡ is_one_of game_kinds kind }
{
    is_in_runs(kind)
}

fn is_in_runs(kind: i16) -> bool
    ensures { result ≡ is_in_runs kind }
{
    is_between(5, 10, kind)
        | is_between(12, 89, kind)
        | is_between(2001, 2008, kind)
        | is_between(2010, 2015, kind)
        | is_between(2018, 2019, kind)
        | is_between(2022, 2026, kind)
        | is_between(2028, 2028, kind)
        | is_between(2035, 2035, kind)
        | is_between(2045, 2049, kind)
        | is_between(3001, 3006, kind)
}

// Whether a number stands from one up to another.
fn is_between(least: i16, greatest: i16, number: i16) -> bool
    ensures { result ≡ is_between least greatest number }
{
    (least <= number) & (number <= greatest)
}
