//! The header of a WAD file.

ghost use Rattle.std.specs.Prelude.{◌≡◌, ◌≢◌, IfSome, IfNone};
ghost use Rattle.std.proofs.Common.{lit<, refl};
ghost use Rattle.wad_dir.specs.Header.{magic_of};

use le_rec::Record;
use le_rec::number::{i32_at, magic_bytes_at, put_i32, put_magic};

/// What a file says it is: a whole game's, or a patch's.
#[derive(Clone, Copy, Debug, PartialEq, Eq)]
pub enum Kind {
    /// `IWAD`: a whole game's.
    Iwad,
    /// `PWAD`: a patch's.
    Pwad,
}

/// A file's header (`wadinfo_t` of w_wad.h): the four bytes that tell its kind, the number of its
/// entries, and the place of their table in bytes.
#[derive(Clone, Copy, Debug, PartialEq, Eq)]
pub struct Header {
    pub magic: [u8; 4],
    pub count: i32,
    pub offset: i32,
}

impl Record for Header {
    ghost use Rattle.wad_dir.specs.Header.{header_layout, header_size};

    ghost SIZE = { header_size };

    ghost layout = { header_layout };

    const SIZE: usize = 12;

    #[inline]
    fn read(bytes: &[u8]) -> Header {
        Header {
            magic: magic_bytes_at(bytes, 0),
            count: i32_at(bytes, 4),
            offset: i32_at(bytes, 8),
        }
    }

    fn write(&self, bytes: &mut [u8]) {
        put_magic(bytes, 0, &self.magic);
        put_i32(bytes, 4, self.count);
        put_i32(bytes, 8, self.offset);
    }

    ghost size_above_zero = { lit< tt };

    ghost sized = { refl };
}

/// The kind whose files begin with these bytes.
pub fn kind_of(magic: &[u8; 4]) -> Option<Kind>
    ensures some { IfSome result (λ kind. magic.now ≡ magic_of kind) }
    ensures none { IfNone result ((kind : _) → magic.now ≢ magic_of kind) }
{
    if magic == b"IWAD" {
        Some(Kind::Iwad)
    } else if magic == b"PWAD" {
        Some(Kind::Pwad)
    } else {
        None
    }
}
