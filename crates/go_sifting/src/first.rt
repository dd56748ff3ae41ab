//! The first number that is flagged.
ghost use Rattle.std.specs.Prelude.{◌≡◌, ◌<◌, ℕ, true, false, length, IfNone, IfSome};
ghost use Rattle.go_graphs.specs.Flags.{is_flagged};

/// The number of the first flag that is set.
pub fn first_flagged(flags: &[bool]) -> Option<usize>
    ensures some { IfSome result (λ n. (n < length flags.now) × (is_flagged flags.now n ≡ true) × ((m : ℕ) → m < n → is_flagged flags.now m ≡ false)) }
    ensures none { IfNone result ((n : ℕ) → is_flagged flags.now n ≡ false) }
{
    for (number, found) in flags.iter().enumerate() {
        if *found {
            return Some(number);
        }
    }
    None
}
