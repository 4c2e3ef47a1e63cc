//! Files that are too large.

ghost use Rattle.std.specs.Prelude.{map, IfNone, IfSome};
ghost use Rattle.lens_calls.specs.Large.{AreSmall, IsFirstLarge};

use line_io::MAX_READ;

/// The place of the first file with more bytes than a run reads.
pub fn first_large(files: &[&[u8]]) -> Option<usize>
    ensures some { IfSome result (IsFirstLarge (map (λ file. file.now) files.now)) }
    ensures none { IfNone result (AreSmall (map (λ file. file.now) files.now)) }
{
    for i in 0..files.len() {
        if files[i].len() as u64 > MAX_READ {
            return Some(i);
        }
    }
    None
}
