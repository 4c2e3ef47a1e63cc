//! What engines leave behind the marker of a demo.

ghost use Rattle.std.specs.Prelude.{◌≡◌, ◌≢◌, ◌↔◌, ◌<◌, ◌≤◌, ◌^◌, ℕ, pos, ◌<ℤ◌, List, length, IfNone, IfSome, IsTrue, Some};
ghost use Rattle.std.specs.List.{slice_get};
ghost use Rattle.std.specs.Option.{option_copied};
ghost use Rattle.le_rec.specs.Name.{name_of, query_of};
ghost use Rattle.wad_dir.specs.Entries.{names_in};
ghost use Rattle.wad_dir.specs.Slice.{IsSlice};
ghost use Rattle.wad_dir.specs.Standing.{StandsAt};
ghost use Rattle.later_demos.specs.Footer.{HoldsText, IsWinner, line_behind, line_end, lines_footer, spaces_behind, text_of, trimmed, without_newline};

use crate::numbers::byte_at;
use le_rec::{Entry, Name8};
use std::marker::Model;
use wad_dir::Wad;

/// What the bytes behind a marker tell of the recording. It borrows them.
#[derive(Drop)]
pub struct Footer<'a> {
    port: Option<&'a [u8]>,
    words: Option<&'a [u8]>,
}

impl<'a> Model for Footer<'a> {
    ghost use Rattle.std.specs.Option.{option_copied};
    ghost use Rattle.later_demos.specs.Footer as footer;

    ghost Value = { footer.Footer };

    ghost view = { λ f. record { port = option_copied f.port; words = option_copied f.words } };
}

impl<'a> Footer<'a> {
    ghost use Rattle.later_demos.specs.Footer.{IsFooter};

    /// What the bytes behind a marker tell: a WAD file with the lumps `PORTNAME` and `CMDLINE`, as DSDA-Doom writes it, or
    /// lines of text, as Woof does. Of any other bytes it tells nothing.
    pub fn read(rest: &'a [u8]) -> Footer<'a>
        ensures { IsFooter rest.now result }
    {
        match Wad::read(rest) {
            Ok(file) => Footer {
                port: text_named(&file, rest, b"PORTNAME"),
                words: text_named(&file, rest, b"CMDLINE"),
            },
            Err(_) => read_lines(rest),
        }
    }

    /// The engine that recorded the demo, with its version.
    pub fn port(&self) -> Option<&'a [u8]>
        ensures { option_copied result ≡ self.now.port }
    {
        self.port
    }

    /// The words of its command line.
    pub fn words(&self) -> Option<&'a [u8]>
        ensures { option_copied result ≡ self.now.words }
    {
        self.words
    }
}

// What a text tells.
fn read_lines(text: &[u8]) -> Footer<'_>
    ensures { result ≡ lines_footer text.now }
{
    if !text.starts_with(b"Woof ") {
        return Footer {
            port: None,
            words: None,
        };
    }
    let end = line_end(text);
    Footer {
        port: Some(&text[..end]),
        words: line_behind(&text[end..]),
    }
}

// Where the first line ends.
fn line_end(text: &[u8]) -> usize
    ensures end { result ≡ line_end text.now }
    ensures within { result ≤ length text.now }
{
    text.iter()
        .position(|byte| *byte == b'\n')
        .unwrap_or(text.len())
}

// The line behind the end of another, where there is such an end.
fn line_behind(text: &[u8]) -> Option<&[u8]>
    ensures { option_copied result ≡ line_behind text.now }
{
    match text.split_first() {
        Some((_, line)) => Some(trimmed(&line[..line_end(line)])),
        None => None,
    }
}

// The text without the spaces at its end.
fn trimmed(text: &[u8]) -> &[u8]
    ensures { result.now ≡ trimmed text.now }
{
    &text[..text.len() - spaces_behind(text)]
}

// How many spaces stand at its end.
fn spaces_behind(text: &[u8]) -> usize
    ensures spaces { result ≡ spaces_behind text.now }
    ensures within { result ≤ length text.now }
{
    text.iter()
        .rev()
        .position(|byte| *byte != b' ')
        .unwrap_or(text.len())
}

// The text of a lump.
fn text_of(lump: &[u8]) -> &[u8]
    ensures { result.now ≡ text_of lump.now }
{
    trimmed(without_newline(lump))
}

fn without_newline(lump: &[u8]) -> &[u8]
    ensures { result.now ≡ without_newline lump.now }
{
    let last = lump.len().saturating_sub(1);
    if byte_at(lump, last) == b'\n' {
        &lump[..last]
    } else {
        lump
    }
}

// The text of the lump of a name in a file of these bytes.
fn text_named<'a>(file: &Wad<'a>, bytes: &'a [u8], name: &[u8]) -> Option<&'a [u8]>
    requires { file.now.bytes ≡ bytes.now }
    ensures { HoldsText file.now (query_of name.now) (option_copied result) }
{
    let entry = last_named(file, Name8::query(name))?;
    let lump = lump_of(bytes, &entry)?;
    Some(text_of(lump))
}

// The last entry of a name.
fn last_named(file: &Wad<'_>, name: Name8) -> Option<Entry>
    ensures some { IfSome result (IsWinner file.now name) }
    ensures none { IfNone result ((at : ℕ) → slice_get (names_in file.now) at ≢ Some name) }
{
    let entries = file.entries();
    for i in (0..entries.len()).rev() {
        let entry = entries.at(i);
        if is_named(&entry, name) {
            return Some(entry);
        }
    }
    None
}

fn is_named(entry: &Entry, name: Name8) -> bool
    ensures { IsTrue result ↔ (name_of entry.now.name ≡ name) }
{
    Name8::stored(entry.name) == name
}

// The bytes of an entry's lump, where all of them are in the file. Of an empty one the place isn't looked at.
fn lump_of<'a>(bytes: &'a [u8], entry: &Entry) -> Option<&'a [u8]>
    ensures some { IfSome result (λ lump. IsSlice bytes.now entry.now lump.now) }
    ensures none { IfNone result ((lump : List ℕ) → ¬ IsSlice bytes.now entry.now lump) }
{
    if entry.size == 0 {
        return Some(&bytes[..0]);
    }
    standing_at(bytes, entry.filepos, natural(entry.size)?)
}

// So many bytes from a place on, where all of them are there.
fn standing_at(bytes: &[u8], place: i32, size: usize) -> Option<&[u8]>
    ensures some { IfSome result (λ stretch. (length stretch.now ≡ size) × StandsAt bytes.now place stretch.now) }
    ensures none { IfNone result ((stretch : List ℕ) → length stretch ≡ size → ¬ StandsAt bytes.now place stretch) }
{
    let start = natural(place)?;
    if start > bytes.len() || size > bytes.len() - start {
        return None;
    }
    Some(&bytes[start..start + size])
}

// The number, where it isn't negative.
fn natural(number: i32) -> Option<usize>
    ensures value { IfSome result (λ n. number ≡ pos n) }
    ensures bound { IfSome result (λ n. n < 2 ^ 31) }
    ensures negative { IfNone result (number <ℤ pos 0) }
{
    if number < 0 {
        return None;
    }
    Some(number as usize)
}
