//! The base files of a run.

ghost use Rattle.std.specs.Prelude.{◌≡◌, ◌++◌, ◌+◌, ◌≤◌, length, IfOk};
ghost use Rattle.wad_dir.specs.declared.set.TheConstants.{MAX_FILES};

use std::alloc::{AllocError, Allocator};
use std::marker::Model;
use wad_dir::{MAX_FILES, Set, Wad};

/// The base files, such as a game's own: every other file is judged over them. They are at most 63, so that
/// one more file makes a set with them.
#[derive(Drop)]
pub struct Base<'b> {
    wads: &'b [Wad<'b>],
}

impl<'b> Model for Base<'b> {
    ghost use Rattle.std.specs.Prelude.{List, ◌<◌, length};
    ghost use Rattle.wad_dir.specs.Wad.{Wad};
    ghost use Rattle.wad_dir.specs.declared.set.TheConstants.{MAX_FILES};

    ghost Value = { List Wad };

    ghost view = { λ base. base.wads.now };

    ghost invariant = { λ base. length base.wads.now < MAX_FILES };
}

impl<'b> Base<'b> {
    ghost use Rattle.std.specs.Prelude.{◌≡◌, ◌↔◌, ◌<◌, [], List, Some, length};
    ghost use Rattle.wad_dir.specs.Wad.{Wad};
    ghost use Rattle.wad_dir.specs.declared.set.TheConstants.{MAX_FILES};

    /// No files.
    pub fn none() -> Base<'b>
        ensures { result ≡ [] }
    {
        Base { wads: &[] }
    }

    /// These files, or None where they are 64 or more.
    pub fn of(wads: &'b [Wad<'b>]) -> Option<Base<'b>>
        ensures { (base : List Wad) → (result ≡ Some base) ↔ ((base ≡ wads.now) × (length base < MAX_FILES)) }
    {
        if wads.len() >= MAX_FILES {
            return None;
        }
        Some(Base { wads })
    }

    // The files.
    fn wads(&self) -> &[Wad<'b>]
        ensures files { result.now ≡ self.now }
        ensures few { length result.now < MAX_FILES }
    {
        self.wads
    }
}

/// The set of the base files and, behind them, one file.
pub fn over_base<'a, A: Allocator>(
    alloc: A,
    base: &Base<'a>,
    set: &Set<'a, A>,
) -> Result<Set<'a, A>, AllocError>
    requires { length set.now ≡ 1 }
    ensures { IfOk result (λ all. all ≡ base.now ++ set.now) }
{
    set.after(alloc, base.wads())
}
