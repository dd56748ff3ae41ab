//! Lines with a sign, and their report in the order of bytes.
ghost use Rattle.std.specs.Prelude.{◌≡◌, [], map, IfOk, OnOk, Some, refl, bytes_eq};
ghost use Rattle.std.specs.Ordering.{nat_cmp, on};
ghost use Rattle.std.specs.Cmp.{partial_equiv_from_equiv, on_equiv, on_po, on_total};
ghost use Rattle.std.specs.Cmp.Lexicographic.{slice_cmp, nat_list_eq_equiv, nat_list_cmp_total, texts_po, texts_ties};
ghost use Rattle.go_base.specs.Growing.{Grows};
ghost use Rattle.api_frozen.specs.inner.SignedLines.{ArrangesLines};

use go_base::list::List;
use go_base::memory::NoMemory;
use go_base::text::Text;
use std::alloc::Global;
use std::cmp::Ordering;
use std::marker::Model;

/// A line with its sign: lost, or new.
pub struct Signed {
    pub lost: bool,
    pub line: Text,
}

impl Drop for Signed {
    fn drop(self) {
        let Signed { lost: _, line: _ } = self;
    }
}

/// The lost and the new lines, each once, ordered by line.
pub struct FrozenReport {
    pub lines: List<Signed>,
}

impl Drop for FrozenReport {
    fn drop(self) {
        let FrozenReport { lines: _ } = self;
    }
}

// A signed line, ordered by its line.
struct ByLine {
    signed: Signed,
}

impl Drop for ByLine {
    fn drop(self) {
        let ByLine { signed: _ } = self;
    }
}

impl ByLine {
    fn into_signed(self) -> Signed
        ensures { result ≡ self.signed }
    {
        let ByLine { signed } = self;
        signed
    }
}

impl PartialEq for ByLine {
    ghost eq = { on (λ s. s.signed.line) bytes_eq };

    ghost laws = { partial_equiv_from_equiv (on_equiv (λ s. s.signed.line) nat_list_eq_equiv) };

    fn eq(&self, other: &ByLine) -> bool {
        self.signed.line == other.signed.line
    }
}

impl Eq for ByLine {
    ghost laws = { on_equiv (λ s. s.signed.line) nat_list_eq_equiv };
}

impl PartialOrd for ByLine {
    ghost partial_cmp = { λ a b. Some (slice_cmp nat_cmp a.signed.line b.signed.line) };

    ghost laws = { on_po (λ s. s.signed.line) texts_po };

    fn partial_cmp(&self, other: &ByLine) -> Option<Ordering> {
        Some(self.cmp(other))
    }
}

impl Ord for ByLine {
    ghost cmp = { λ a b. slice_cmp nat_cmp a.signed.line b.signed.line };

    ghost total = { on_total (λ s. s.signed.line) nat_list_cmp_total };

    ghost matches_partial_cmp = { λ a b. refl };

    ghost matches_eq = { λ a b. texts_ties a.signed.line b.signed.line };

    fn cmp(&self, other: &ByLine) -> Ordering {
        self.signed.line.cmp(&other.signed.line)
    }
}

/// Signed lines that are gathered.
pub(crate) struct SignedLines {
    all: Vec<ByLine>,
}

impl Drop for SignedLines {
    fn drop(self) {
        let SignedLines { all: _ } = self;
    }
}

impl Model for SignedLines {
    ghost use Rattle.std.specs.Prelude.{List as Sequence, map};
    ghost use Rattle.api_frozen.specs.declared.signed.Signed.{Signed as SignedLine};

    ghost Value = { Sequence SignedLine };

    ghost view = { λ l. map (λ s. s.signed) l.all.items };
}

fn push(all: &mut Vec<ByLine>, signed: Signed) -> Result<(), NoMemory>
    ensures { OnOk result (Grows (λ s. signed ≡ s) (map (λ s. s.signed) all.old.items) (map (λ s. s.signed) all.new.items)) }
{
    all.push(ByLine { signed })?;
    Ok(())
}

// The signed lines as they stand.
fn unwrapped(alloc: Global, all: Vec<ByLine>) -> Result<Vec<Signed>, NoMemory>
    ensures { IfOk result (λ lines. lines.items ≡ map (λ s. s.signed) all.items) }
{
    let lines = all.into_iter().map(|s| s.into_signed()).collect(alloc)?;
    Ok(lines)
}

fn in_order(alloc: Global, mut all: Vec<ByLine>) -> Result<List<Signed>, NoMemory>
    ensures { IfOk result (ArrangesLines (map (λ s. s.signed) all.items)) }
{
    all.sort_unstable();
    all.dedup();
    let lines = unwrapped(alloc, all)?;
    Ok(List::from_vec(lines))
}

impl SignedLines {
    /// No line.
    pub(crate) fn new(alloc: Global) -> SignedLines
        ensures { result ≡ [] }
    {
        SignedLines {
            all: Vec::new(alloc),
        }
    }

    /// Adds a line.
    pub(crate) fn add(&mut self, signed: Signed) -> Result<(), NoMemory>
        ensures { OnOk result (Grows (λ s. signed ≡ s) self.old self.new) }
    {
        push(&mut self.all, signed)
    }

    /// The lines, each text once, in the order of bytes.
    pub(crate) fn into_list(self, alloc: Global) -> Result<List<Signed>, NoMemory>
        ensures { IfOk result (ArrangesLines self) }
    {
        let SignedLines { all } = self;
        in_order(alloc, all)
    }
}
