//! The entries of the declarations that are kept.
ghost use Rattle.std.specs.Prelude.{◌≡◌, ◌<◌, ◌&&◌, ℕ, None, length, if◌then◌else◌, nat_eq};
ghost use Rattle.go_packages.specs.go_entries.HadEntries.{entries_at};
ghost use Rattle.go_graphs.specs.Flags.{is_flagged};

use go_graphs::flags::flag;
use go_packages::go_entries::had::HadEntries;

// Takes the entry of a declaration away, where it is lost.
fn leave(had: &mut HadEntries, lost: &[bool], number: usize)
    requires { number < length had.old }
    ensures count { length had.new ≡ length had.old }
    ensures kept { (n : ℕ) → entries_at had.new n ≡ (if nat_eq n number && is_flagged lost.now number then None else entries_at had.old n) }
{
    let is_lost = flag(lost, number);
    if !is_lost {
        return;
    }
    had.remove(number);
}

/// Takes the entries away of the declarations that are lost.
pub(crate) fn leave_only(had: &mut HadEntries, lost: &[bool])
    ensures count { length had.new ≡ length had.old }
    ensures kept { (n : ℕ) → n < length had.old → entries_at had.new n ≡ (if is_flagged lost.now n then None else entries_at had.old n) }
{
    let count = had.count();
    for number in 0..count {
        leave(had, lost, number);
    }
}
