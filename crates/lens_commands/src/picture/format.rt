//! What is told of a level whose label wins a name, where it isn't drawn.

ghost use Rattle.std.specs.Prelude.{◌↔◌, IfNone, IfSome, IsTrue};
ghost use Rattle.lens_commands.specs.PictureFormat.{IsDoomAt, IsUnreadAt};
ghost use Rattle.level_starts.specs.Starts.{LevelStartsAt};
ghost use Rattle.wad_dir.specs.Entries.{names};
ghost use Rattle.lens_texts.specs.Unread.{NamesLump};

use lens_engines::unread_at;
use lens_texts::Unread;
use level_starts::next_start;
use std::alloc::Allocator;
use wad_dir::Set;

/// What is told of the level whose label is an entry, if it isn't judged; None of a level of Doom's format. If no level
/// starts there, its first lump is the one that it lacks.
pub fn undrawn_at<A: Allocator>(set: &Set<'_, A>, g: usize) -> Option<Unread>
    ensures doom { IfNone result (IsDoomAt set.now g) }
    ensures unread { IfSome result (IsUnreadAt set.now g) }
    ensures lump { IfSome result NamesLump }
{
    if starts_at(set, g) {
        unread_at(set, g)
    } else {
        Some(Unread::Incomplete(1))
    }
}

// Whether a level starts at an entry.
fn starts_at<A: Allocator>(set: &Set<'_, A>, g: usize) -> bool
    ensures { IsTrue result ↔ LevelStartsAt (names set.now) g }
{
    match next_start(set, g) {
        Some(start) => start == g,
        None => false,
    }
}
