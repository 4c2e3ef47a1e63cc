//! Levels by the entries of their labels.

ghost use Rattle.std.specs.Prelude.{◌≡◌, Some};
ghost use Rattle.std.specs.List.{slice_get};
ghost use Rattle.level_starts.specs.Format.{IsFormat};
ghost use Rattle.level_starts.specs.Starts.{LevelStartsAt};
ghost use Rattle.level_starts.specs.declared.format.Format.TheVariants as format;
ghost use Rattle.map_level.specs.Opening.{IsLevelAt};
ghost use Rattle.wad_dir.specs.Entries.{names};

use le_rec::Name8;
use map_level::{Level, Reading};
use std::alloc::Allocator;
use wad_dir::Set;

/// The name of an entry at which a level starts.
pub fn label_of<A: Allocator>(set: &Set<'_, A>, g: usize) -> Name8
    requires { LevelStartsAt (names set.now) g }
    ensures { slice_get (names set.now) g ≡ Some result }
{
    match set.name(g) {
        Some(name) => name,
        None => unreachable!(),
    }
}

/// The level whose label is an entry, where its format is Doom's.
pub fn level_at<'a, A: Allocator>(set: &Set<'a, A>, g: usize, reading: Reading) -> Level<'a>
    requires { IsFormat set.now g format.Doom }
    ensures { IsLevelAt set.now g reading result }
{
    match Level::at(set, g, reading) {
        Ok(level) => level,
        Err(_) => unreachable!(),
    }
}
