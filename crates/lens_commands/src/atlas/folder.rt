//! The folder that an atlas is written into.

use crate::atlas::fault::KeepFault;
use lens_texts::HandOn;

/// Why a folder is refused.
#[derive(Clone, Copy, Debug, PartialEq, Eq)]
pub enum FolderRefusal {
    /// It isn't empty.
    NotEmpty,
    /// There is something of that name, and it isn't a folder.
    NoFolder,
    /// Its contents can't be read.
    Unread,
    /// The folder above it doesn't exist.
    NoParent,
    /// It can't be made.
    Unmade,
}

impl FolderRefusal {
    ghost use Rattle.std.specs.Prelude.{◌≡◌};
    ghost use Rattle.lens_commands.specs.AtlasTold.{refusal_text};

    /// The reason in words.
    pub fn text(self) -> &'static [u8]
        ensures { result.now ≡ refusal_text self }
    {
        match self {
            FolderRefusal::NotEmpty => b"it isn't empty",
            FolderRefusal::NoFolder => b"it isn't a folder",
            FolderRefusal::Unread => b"it can't be read",
            FolderRefusal::NoParent => b"the folder above it isn't there",
            FolderRefusal::Unmade => b"it can't be made",
        }
    }
}

/// Why a folder isn't taken.
#[derive(Clone, Copy, Debug, PartialEq, Eq)]
pub enum FolderFault {
    /// It is refused.
    Refused(FolderRefusal),
    /// A growth was refused.
    Memory,
}

/// A folder whose files appear whole: each is written under another name, and takes its own at the end.
pub trait Folder {
    ghost use Rattle.std.specs.Prelude.{◌≡◌, Bool, true, List, [], Option, IfErr, IfOk, IfSome, OnOk};
    ghost use Rattle.lens_commands.specs.Folder.{IsBegun, IsWhy, Kept, KeepsFile};
    ghost use Rattle.lens_commands.specs.declared.atlas.folder.FolderRefusal as refusal;

    type File: HandOn + Drop;

    /// Its files, by their names and in the order in which they came, if they are known.
    ghost kept: { Self → Option (List Kept) };

    /// Why it isn't taken.
    ghost refuses: { Self → refusal.FolderRefusal → Type 0 };

    /// Whether it was taken: no file is begun in one that wasn't.
    ghost taken: { Self → Bool };

    /// Takes the folder. One that doesn't exist is created, in a folder that does. One that exists must be empty, and
    /// stays unchanged.
    fn make(&mut self) -> Result<(), FolderFault>
        ensures kept { kept self.new ≡ kept self.old }
        ensures taken { OnOk result (taken self.new ≡ true) }
        ensures empty { OnOk result (IfSome (kept self.new) (λ files. files ≡ [])) }
        ensures refused { IfErr result (IsWhy (refuses self.old)) };

    /// Begins a file for `name`. It is empty, and has another name so far.
    fn begin(&mut self, name: &[u8]) -> Result<Self::File, KeepFault>
        requires { taken self.old ≡ true }
        ensures taken { taken self.new ≡ true }
        ensures kept { kept self.new ≡ kept self.old }
        ensures begun { IfOk result (λ file. IsBegun (kept self.old) (Self.File.state file)) };

    /// Gives a file its name. On Err there is no file of this name.
    fn keep(&mut self, file: Self::File, name: &[u8]) -> Result<(), KeepFault>
        requires { taken self.old ≡ true }
        ensures taken { taken self.new ≡ true }
        ensures kept { KeepsFile (kept self.old) (kept self.new) (Self.File.state file) name.now result };

    /// Leaves the folder, which has no file. It is removed if it was made.
    fn leave(&mut self)
        requires { taken self.old ≡ true }
        ensures kept { kept self.new ≡ kept self.old };

    /// Discards a file that isn't whole.
    fn discard(&mut self, file: Self::File, name: &[u8])
        requires { taken self.old ≡ true }
        ensures taken { taken self.new ≡ true }
        ensures kept { kept self.new ≡ kept self.old };
}
