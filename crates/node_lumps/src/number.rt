//! Unsigned numbers of four bytes.

ghost use Rattle.std.specs.Prelude.{◌≡◌, ◌+◌, ◌≤◌, length};
ghost use Rattle.node_lumps.specs.Number.{unsigned32_at};

/// The unsigned number of the four bytes at `at`, the lowest first.
#[inline]
#[tactic(auto, unfolding(le_rec::specs::Number::unsigned32))]
pub(crate) fn u32_at(bytes: &[u8], at: usize) -> u32
    requires { at + 4 ≤ length bytes.now }
    ensures { result ≡ unsigned32_at bytes.now at }
{
    u32::from_le_bytes([bytes[at], bytes[at + 1], bytes[at + 2], bytes[at + 3]])
}
