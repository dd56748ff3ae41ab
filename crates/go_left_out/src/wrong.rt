//! The first lost declaration that may not be left out.
ghost use Rattle.std.specs.Prelude.{◌≡◌, ◌<◌, ◌⊎◌, ℕ, true, false, length, IfNone, IfSome};
ghost use Rattle.go_graphs.specs.Flags.{is_flagged};
ghost use Rattle.go_left_out.specs.WrongFlags.{is_wrong};

use go_graphs::flags::flag;

// Whether a number is lost, and seen or not beyond the profile.
fn is_wrong(lost: &[bool], seen: &[bool], beyond: &[bool], number: usize) -> bool
    ensures { result ≡ is_wrong lost.now seen.now beyond.now number }
{
    if !flag(lost, number) {
        return false;
    }
    if flag(seen, number) {
        return true;
    }
    !flag(beyond, number)
}

/// The number of the first declaration that is lost, and seen or not beyond the profile.
pub fn first_wrong(lost: &[bool], seen: &[bool], beyond: &[bool]) -> Option<usize>
    ensures some { IfSome result (λ n. (n < length lost.now) × (is_wrong lost.now seen.now beyond.now n ≡ true) × ((m : ℕ) → m < n → is_wrong lost.now seen.now beyond.now m ≡ false)) }
    ensures none { IfNone result ((n : ℕ) → n < length lost.now → is_wrong lost.now seen.now beyond.now n ≡ false) }
{
    for number in 0..lost.len() {
        if is_wrong(lost, seen, beyond, number) {
            return Some(number);
        }
    }
    None
}
