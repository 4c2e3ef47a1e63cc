//! Reads the header's line of a listing.

ghost use Rattle.std.specs.Prelude.{◌≡◌, ◌≢◌, ◌↔◌, ◌<◌, ◌++◌, ◌∷◌, ℕ, List, length, slice_index, IfSome, IfNone, IsTrue};
ghost use Rattle.demo_engines.specs.Parts.{FitsHeader, numbers_of};
ghost use Rattle.demo_lump.specs.Header.{IsVersion, players_in};
ghost use Rattle.demo_lump.specs.declared.header.Header.{Header};
ghost use Rattle.le_rec.specs.Bytes.{AreBytes};
ghost use Rattle.look_engines.specs.Listing.{header_line};

use crate::numbers::{guess_number, take_label};
use demo_lump::Header;
use line_io::TextLine;
use look_engines::prepend_header;

/// The numbers of a header.
const NUMBERS: usize = 13;

/// The header whose line stands at the front, and what follows the line.
pub fn take_header(text: &[u8]) -> Option<(Header, &[u8])>
    ensures some { IfSome result (λ found. text.now ≡ header_line found.0 ++ found.1.now) }
    ensures fits { IfSome result (λ found. FitsHeader found.0) }
    ensures none { IfNone result ((h : Header) (rest : List ℕ) → FitsHeader h → text.now ≢ header_line h ++ rest) }
{
    let header = guess_header(text);
    if !is_version(header.version) {
        return None;
    }
    if count_players(&header.players) == 0 {
        return None;
    }
    let mut line = TextLine::new();
    prepend_header(&mut line, &header);
    match take_label(text, line.as_bytes()) {
        Some(rest) => Some((header, rest)),
        None => None,
    }
}

// The header of which the line stands at the front. Where none does it is any header.
fn guess_header(text: &[u8]) -> Header
    ensures is { (h : Header) (rest : List ℕ) → FitsHeader h → text.now ≡ header_line h ++ rest → result ≡ h }
    ensures bytes { AreBytes (numbers_of result) }
    ensures long { length result.players ≡ 4 }
{
    let numbers = guess_numbers(text);
    Header {
        version: numbers[0],
        skill: numbers[1],
        episode: numbers[2],
        map: numbers[3],
        deathmatch: numbers[4],
        respawn: numbers[5],
        fast: numbers[6],
        no_monsters: numbers[7],
        viewpoint: numbers[8],
        players: [numbers[9], numbers[10], numbers[11], numbers[12]],
    }
}

// The first numbers in a text.
fn guess_numbers(text: &[u8]) -> [u8; NUMBERS]
    ensures is { (h : Header) (rest : List ℕ) → FitsHeader h → text.now ≡ header_line h ++ rest → result ≡ numbers_of h }
    ensures small { (i : ℕ) → slice_index result i < 256 }
{
    let mut numbers = [0; NUMBERS];
    let mut rest = text;
    for i in 0..NUMBERS {
        let (number, behind) = guess_number(rest);
        numbers[i] = number;
        rest = behind;
    }
    numbers
}

// Whether listings of this version are read.
fn is_version(version: u8) -> bool
    ensures { IsTrue result ↔ IsVersion version }
{
    (109..=111).contains(&version)
}

// How many players are in the game.
fn count_players(players: &[u8; 4]) -> usize
    ensures { result ≡ players_in players.now }
{
    players.iter().filter(|byte| **byte != 0).count()
}
