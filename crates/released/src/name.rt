//! The number of the lump of a name as linuxdoom 1.10 looks it up: by two numbers of 32 bits, from the last entry back.

ghost use Rattle.std.specs.Prelude.{◌≡◌, ◌<◌, ◌≤◌, ◌^◌, ◌==◌, length};
ghost use Rattle.std.specs.List.{position_or_len};
ghost use Rattle.le_rec.specs.Name.{name_of, padded};
ghost use Rattle.released.specs.CheckName.{copied, asked_name, word_at, has_words, released_number};

/// W_CheckNumForName of w_wad.c, for the names in the directories of the files, one file after another: the number of
/// the lump, or -1.
pub fn released_number(names: &[[u8; 8]], asked: &[u8]) -> i32
    requires { length names.now < 2 ^ 31 }
    ensures { result ≡ released_number names.now asked.now }
{
    let name = asked_name(asked);
    for i in (0..names.len()).rev() {
        if has_words(&copied(&names[i]), &name) {
            return i as i32;
        }
    }
    -1
}

// The name that is asked for, as strncpy and strupr leave it.
fn asked_name(asked: &[u8]) -> [u8; 8]
    ensures { result ≡ asked_name asked.now }
{
    let mut name = copied(asked);
    name.make_ascii_uppercase();
    name
}

// What strncpy leaves in eight bytes.
fn copied(bytes: &[u8]) -> [u8; 8]
    ensures { result ≡ copied bytes.now }
{
    until_nul(&bytes[..bytes.len().min(8)])
}

// The bytes before the first NUL, followed by NULs.
fn until_nul(bytes: &[u8]) -> [u8; 8]
    requires { length bytes.now ≤ 8 }
    ensures { result ≡ padded (name_of bytes.now) }
{
    let mut kept = [0; 8];
    let end = name_end(bytes);
    kept[..end].copy_from_slice(&bytes[..end]);
    kept
}

// The place of the first NUL, or the length.
fn name_end(bytes: &[u8]) -> usize
    ensures end { result ≡ position_or_len (λ b. b == 0) bytes.now }
    ensures within { result ≤ length bytes.now }
{
    bytes.iter().position(|b| *b == 0).unwrap_or(bytes.len())
}

// Whether both numbers of a stored name are those of the one that is asked for.
fn has_words(stored: &[u8; 8], asked: &[u8; 8]) -> bool
    ensures { result ≡ has_words stored.now asked.now }
{
    word_at(stored, 0) == word_at(asked, 0) && word_at(stored, 4) == word_at(asked, 4)
}

// Four bytes from a place on as a number of 32 bits.
fn word_at(name: &[u8; 8], k: usize) -> u32
    requires { k ≤ 4 }
    ensures { result ≡ word_at name.now k }
{
    u32::from_le_bytes([name[k], name[k + 1], name[k + 2], name[k + 3]])
}
