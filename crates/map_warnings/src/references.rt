//! Whether the references of a level hold.

ghost use Rattle.std.specs.Prelude.{◌↔◌, ℕ, IsTrue};
ghost use Rattle.map_level.specs.LinkFaults.{LinkHolds};
ghost use Rattle.map_warnings.specs.References.{HasReferences, HoldsNowhere};

use map_level::search::Search;
use map_level::{Code, Level, Links};

/// Whether all references of a level hold, so that it has no fault F3 to F9. Most warnings need this.
pub fn has_references(level: &Level<'_>) -> bool
    ensures { IsTrue result ↔ HasReferences level.now }
{
    let links = Links::of(level);
    if !has_none(&links, Code::F3) {
        return false;
    }
    if !has_none(&links, Code::F4) {
        return false;
    }
    if !has_none(&links, Code::F5) {
        return false;
    }
    if !has_none(&links, Code::F6) {
        return false;
    }
    if !has_none(&links, Code::F7) {
        return false;
    }
    if !has_none(&links, Code::F8) {
        return false;
    }
    has_none(&links, Code::F9)
}

// Whether a code holds nowhere.
fn has_none(links: &Links<'_, '_>, code: Code) -> bool
    ensures { IsTrue result ↔ HoldsNowhere links.now code }
{
    links.first(code, 0).is_none()
}
