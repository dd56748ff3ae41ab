//! Flags numbers by their rows, until no row lets one more be flagged.
ghost use Rattle.std.specs.Prelude.{◌≡◌, ◌||◌, ℕ, Bool, true, false, List as Sequence, length};
ghost use Rattle.go_graphs.specs.inner.Marking.{Applies, Follows, IsClosure, Passed};

use crate::rows::row;
use go_base::list::List;

/// When a row lets its number be flagged.
pub trait Rule {
    /// What has to hold of the flags and the row.
    ghost why: { Sequence Bool → Sequence ℕ → Type 0 };

    /// Whether it does.
    fn holds(&self, flags: &[bool], row: &[u32]) -> bool
        ensures yes { result ≡ true → why flags.now row.now }
        ensures no { result ≡ false → why flags.now row.now → ⊥ };
}

// Flags a number, where its row lets it be; says whether it has.
fn apply<R: Rule>(rule: &R, rows: &[List<u32>], flags: &mut [bool], number: usize) -> bool
    ensures { Applies R.why rows.now flags.old number flags.new result }
{
    if number >= flags.len() {
        return false;
    }
    if flags[number] {
        return false;
    }
    if !rule.holds(flags, row(rows, number)) {
        return false;
    }
    flags[number] = true;
    true
}

fn apply_hinted<R: Rule>(rule: &R, rows: &[List<u32>], flags: &mut [bool], hints: &[u32])
    ensures { Follows R.why rows.now flags.old flags.new }
{
    for hint in hints {
        apply(rule, rows, flags, *hint as usize);
    }
}

fn either(left: bool, right: bool) -> bool
    ensures { result ≡ (left || right) }
{
    left || right
}

fn apply_each<R: Rule>(rule: &R, rows: &[List<u32>], flags: &mut [bool]) -> bool
    ensures follows { Follows R.why rows.now flags.old flags.new }
    ensures passed { Passed R.why rows.now flags.old (length flags.old) flags.new result }
{
    let mut moved = false;
    for number in 0..flags.len() {
        let applied = apply(rule, rows, flags, number);
        moved = either(moved, applied);
    }
    moved
}

/// Flags numbers as long as rows let one more be flagged: first those that are hinted, in order, and then in passes over all.
/// The hints make it fast.
pub fn close<R: Rule>(rule: &R, rows: &[List<u32>], flags: &mut [bool], hints: &[u32])
    ensures { IsClosure R.why rows.now flags.old flags.new }
{
    apply_hinted(rule, rows, flags, hints);
    'passes: while apply_each(rule, rows, flags) {}
}
