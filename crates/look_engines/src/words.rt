//! The words of a command line.

ghost use Rattle.std.specs.Prelude.{◌≡◌, ◌-◌, ◌<◌, ◌≤◌, ◌↔◌, ◌≢◌, ◌++◌, IsTrue, Some, true, false, length, map, string_bytes, All, codes, slice_index_or, []};
ghost use Rattle.wad_dir.specs.declared.set.TheConstants.{MAX_FILES};
ghost use Rattle.look_engines.specs.Command.{word_of};
ghost use Rattle.look_engines.specs.Words.{IsJob, IsPlain, form_of, name_of, paths_of, wide_words};

use crate::command::{Cmd, Job};
use std::alloc::Allocator;
use wad_dir::MAX_FILES;

/// The form of the words after a command's own.
#[derive(Clone, Copy)]
struct WordForm {
    /// Whether `--wide` may come first.
    wide: bool,
    /// How many names come before the files.
    names: usize,
    /// How many files there may be.
    files: usize,
}

impl Cmd {
    fn named(word: &str) -> Option<Cmd>
        ensures { (command : Cmd) → (result ≡ Some command) ↔ (word.now ≡ word_of command) }
    {
        match word {
            "lumps" => Some(Cmd::Lumps),
            "levels" => Some(Cmd::Levels),
            "show" => Some(Cmd::Show),
            "audit" => Some(Cmd::Audit),
            "points" => Some(Cmd::Points),
            "census" => Some(Cmd::Census),
            "sight" => Some(Cmd::Sight),
            "blocks" => Some(Cmd::Blocks),
            "extract" => Some(Cmd::Extract),
            "demo" => Some(Cmd::Demo),
            "lmp" => Some(Cmd::Lmp),
            _ => None,
        }
    }

    fn form(self) -> WordForm
        ensures is { result ≡ form_of self }
        ensures few { result.files ≤ MAX_FILES }
    {
        match self {
            Cmd::Lumps | Cmd::Levels => WordForm {
                wide: false,
                names: 0,
                files: MAX_FILES,
            },
            Cmd::Show | Cmd::Audit | Cmd::Points | Cmd::Census | Cmd::Blocks => WordForm {
                wide: true,
                names: 1,
                files: MAX_FILES,
            },
            Cmd::Sight | Cmd::Extract | Cmd::Demo => WordForm {
                wide: false,
                names: 1,
                files: MAX_FILES,
            },
            Cmd::Lmp => WordForm {
                wide: false,
                names: 0,
                files: 1,
            },
        }
    }
}

impl WordForm {
    // Whether the words can be the names and the files.
    fn takes<F: Allocator>(self, operands: &[String<F>]) -> bool
        ensures { IsTrue result
            ↔ ((self.names < length operands.now) × (length operands.now - self.names ≤ self.files)
            × All (λ word. IsPlain (string_bytes word)) operands.now) }
    {
        self.names < operands.len()
            && operands.len() - self.names <= self.files
            && operands.iter().all(|word| is_plain(word.as_str()))
    }
}

impl Job {
    /// The NAME among the words, the word before the first file; no bytes if the command takes none.
    pub fn name<F: Allocator>(self, words: &[String<F>]) -> &[u8]
        ensures { result.now ≡ name_of (map string_bytes words.now) self }
    {
        if self.command.form().names == 0 {
            return b"";
        }
        match words.get(self.first.saturating_sub(1)) {
            Some(name) => name.as_str().as_bytes(),
            None => b"",
        }
    }

    /// The paths of the files among the words.
    pub fn paths<F: Allocator>(self, words: &[String<F>]) -> &[String<F>]
        ensures { map string_bytes result.now ≡ paths_of (map string_bytes words.now) self }
    {
        &words[self.first.min(words.len())..]
    }
}

fn is_plain(word: &str) -> bool
    ensures { IsTrue result ↔ IsPlain word.now }
{
    word.as_bytes().first() != Some(&b'-')
}

/// Whether `--wide` comes first, where it is allowed, and the words after it.
pub fn after_wide<F: Allocator>(allowed: bool, words: &[String<F>]) -> (bool, &[String<F>])
    ensures spelled { map string_bytes words.now ≡ wide_words result.0 ++ map string_bytes result.1.now }
    ensures allowed { IsTrue result.0 → IsTrue allowed }
    ensures absent { result.0 ≡ false → allowed ≡ true → slice_index_or (map string_bytes words.now) 0 [] ≢ codes "--wide" }
{
    match words.split_first() {
        Some((word, rest)) if allowed && word.as_str() == "--wide" => (true, rest),
        _ => (false, words),
    }
}

/// What the words of a command line ask for, without the program's name. None if they are no form of a command.
pub fn job<F: Allocator>(words: &[String<F>]) -> Option<Job>
    ensures { (job : Job) → (result ≡ Some job) ↔ IsJob (map string_bytes words.now) job }
{
    let (word, rest) = words.split_first()?;
    let command = Cmd::named(word.as_str())?;
    let form = command.form();
    let (wide, operands) = after_wide(form.wide, rest);
    if !form.takes(operands) {
        return None;
    }
    Some(Job {
        command,
        first: words.len() - operands.len() + form.names,
        wide,
    })
}
