//! The numbers of the calls that fail.
ghost use Rattle.std.specs.Prelude.{◌≡◌};
ghost use Rattle.go_outside.specs.Failing.{fails_next};
ghost use Rattle.go_outside.specs.Faults.{one_more};

// Counts a call. Its number, from 1, is among those that fail.
pub(crate) fn count_call(fail: &[u64], calls: &mut u64) -> bool
    ensures fails { result ≡ fails_next fail.now calls.old }
    ensures counted { calls.new ≡ one_more calls.old }
{
    *calls = calls.saturating_add(1);
    fail.contains(calls)
}
