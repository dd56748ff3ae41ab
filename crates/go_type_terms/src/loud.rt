//! Flags of several trees.
ghost use Rattle.std.specs.Prelude.{◌≡◌, ◌||◌};

/// Whether either flag holds.
pub fn either(first: bool, second: bool) -> bool
    ensures { result ≡ (first || second) }
{
    first || second
}
