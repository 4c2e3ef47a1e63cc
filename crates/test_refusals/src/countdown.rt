//! Which call of an end fails.
ghost use Rattle.std.specs.Prelude.{◌≡◌, ◌-◌, ◌==◌};

/// Counts a call down and returns whether it is the one that fails. At 0 none is.
pub fn is_failing_call(calls: &mut u32) -> bool
    ensures answer { result ≡ (calls.old == 1) }
    ensures counted { calls.new ≡ calls.old - 1 }
{
    let fails = *calls == 1;
    *calls = calls.saturating_sub(1);
    fails
}
