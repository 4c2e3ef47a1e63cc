//! A text at the front of a caller's slice.
ghost use Rattle.std.specs.Prelude.{◌≡◌, ◌<◌, IfNone, IfSome, drop, length, take};

/// Copies a text to the front of a slice, and returns how many bytes it has. If the slice has no room for it, copies nothing
/// and returns None.
pub fn hand_out(text: &[u8], to: &mut [u8]) -> Option<usize>
    ensures count { IfSome result (λ n. n ≡ length text.now) }
    ensures front { IfSome result (λ n. take n to.new ≡ text.now) }
    ensures rest { IfSome result (λ n. drop n to.new ≡ drop n to.old) }
    ensures full { IfNone result (length to.old < length text.now) }
    ensures untouched { IfNone result (to.new ≡ to.old) }
{
    let count = text.len();
    if count > to.len() {
        return None;
    }
    to[..count].copy_from_slice(text);
    Some(count)
}
