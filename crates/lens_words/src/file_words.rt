//! The files that a command's arguments name.

ghost use Rattle.std.specs.Prelude.{◌<◌, vec_len};
ghost use Rattle.wad_dir.specs.declared.set.TheConstants.{MAX_FILES};

use crate::mistake::Mistake;
use crate::shared_words::texts_of;
use clap::ArgMatches;
use std::alloc::Global;
use wad_dir::MAX_FILES;

/// The files that a command's arguments name.
#[derive(Drop)]
pub struct FileWords<'a> {
    /// The paths of the base files: at most 63.
    pub bases: Vec<&'a str>,
    /// The paths of the words, in order.
    pub files: Vec<&'a str>,
    /// The path of a list of more, `-` for standard input.
    pub list: Option<&'a str>,
    /// The byte that ends a path of the list.
    pub list_end: u8,
    ghost few: { vec_len bases < MAX_FILES },
}

impl<'a> FileWords<'a> {
    /// Reads a command's arguments for files.
    pub(crate) fn of(alloc: Global, matches: &ArgMatches<'a>) -> Result<FileWords<'a>, Mistake> {
        let bases = texts_of(alloc, matches, "base")?;
        if bases.len() >= MAX_FILES {
            return Err(Mistake::Told("--base names at most 63 files"));
        }
        let files = texts_of(alloc, matches, "files")?;
        Ok(FileWords {
            bases,
            files,
            list: matches.get_str("files-from"),
            list_end: if matches.get_flag("null") { 0 } else { b'\n' },
        })
    }
}
