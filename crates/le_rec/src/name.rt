//! Names of at most eight bytes.

ghost use Rattle.std.specs.Prelude.{◌≡◌, ◌<◌, ◌≤◌, ◌++◌, ◌==◌, length, drop, take};
ghost use Rattle.std.specs.List.{position_or_len};
ghost use Rattle.le_rec.specs.Name.{name_of, padded, query_of};
ghost use Rattle.le_rec.specs.Name.{hex_digit, shown_byte, shown_name};

use std::marker::Model;

/// The name of a lump, a flat or a texture: at most eight bytes, none of them NUL.
#[derive(Clone, Copy, Debug, PartialEq, Eq)]
pub struct Name8 {
    bytes: [u8; 8],
}

impl Model for Name8 {
    ghost use Rattle.std.specs.Prelude.{◌≡◌, ℕ, List};
    ghost use Rattle.std.proofs.Common.{sym, ap};
    ghost use Rattle.le_rec.specs.Name.{name_of, padded};

    ghost Value = { List ℕ };

    ghost view = { λ a. name_of a.bytes };

    ghost invariant = { λ a. a.bytes ≡ padded (name_of a.bytes) };

    ghost inverse = { λ name. record { bytes = padded name } };

    ghost inverse_ok = { λ a h. ap (λ bytes. record { bytes = bytes }) (sym h) };
}

impl Name8 {
    /// The name in a record's eight bytes: it ends before the first NUL, where there is one.
    pub fn stored(bytes: [u8; 8]) -> Name8
        ensures { result ≡ name_of bytes }
    {
        Name8 {
            bytes: until_nul(&bytes),
        }
    }

    /// The name to look up for what was asked: at most its first eight bytes, up to the first NUL,
    /// with ASCII small letters as capital ones (`W_CheckNumForName`).
    pub fn query(asked: &[u8]) -> Name8
        ensures { result ≡ query_of asked.now }
    {
        let mut bytes = until_nul(&asked[..asked.len().min(8)]);
        bytes.make_ascii_uppercase();
        Name8 { bytes }
    }

    /// The name and NULs after it, as a record holds it.
    pub fn bytes(&self) -> [u8; 8]
        ensures padded { result ≡ padded self.now }
        ensures name { name_of result ≡ self.now }
    {
        self.bytes
    }

    /// Writes the name as it is shown to the front of `text`, and returns how many bytes that
    /// takes. A visible ASCII character but `\` is written unchanged, any other byte as `\x` with
    /// its two hexadecimal digits in lower case.
    pub fn shown(&self, text: &mut [u8; 32]) -> usize
        ensures len { result ≡ length (shown_name self.now) }
        ensures text { text.new ≡ shown_name self.now ++ drop result text.old }
    {
        let mut len = 0;
        for byte in &self.bytes[..name_end(&self.bytes)] {
            len += put_shown(&mut text[len..], *byte);
        }
        len
    }
}

// The bytes before the first NUL, followed by NULs.
fn until_nul(bytes: &[u8]) -> [u8; 8]
    requires { length bytes.now ≤ 8 }
    ensures { result ≡ padded (name_of bytes.now) }
{
    let mut kept = [0; 8];
    let end = name_end(bytes);
    kept[..end].copy_from_slice(&bytes[..end]);
    kept
}

// The place of the first NUL, or the length.
fn name_end(bytes: &[u8]) -> usize
    ensures end { result ≡ position_or_len (λ b. b == 0) bytes.now }
    ensures within { result ≤ length bytes.now }
{
    bytes.iter().position(|b| *b == 0).unwrap_or(bytes.len())
}

fn put_shown(text: &mut [u8], byte: u8) -> usize
    requires { 4 ≤ length text.old }
    ensures len { result ≡ length (shown_byte byte) }
    ensures text { text.new ≡ shown_byte byte ++ drop result text.old }
{
    if (b'!'..=b'~').contains(&byte) && byte != b'\\' {
        text[0] = byte;
        return 1;
    }
    text[0] = b'\\';
    text[1] = b'x';
    text[2] = hex_digit(byte / 16);
    text[3] = hex_digit(byte % 16);
    4
}

/// The lower-case hexadecimal digit of a number below 16.
#[inline]
pub fn hex_digit(digit: u8) -> u8
    requires { digit < 16 }
    ensures { result ≡ hex_digit digit }
{
    if digit < 10 {
        b'0' + digit
    } else {
        b'a' + (digit - 10)
    }
}
