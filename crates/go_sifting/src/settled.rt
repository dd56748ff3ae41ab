//! Packages of which no declaration is lost, told from an order of the declarations.
ghost use Rattle.std.specs.Prelude.{◌≡◌, ◌<◌, ℕ, true, false, length, IfNone, IfOk, IfSome};
ghost use Rattle.go_base.specs.Lists.{Has};
ghost use Rattle.go_graphs.specs.Flags.{AreFlagsOf, is_flagged};
ghost use Rattle.go_graphs.specs.Ranks.{HasRank};
ghost use Rattle.go_graphs.specs.Walks.{LeadsBack, row_of};
ghost use Rattle.go_typings.specs.Declarations.{declarations};
ghost use Rattle.go_typings.specs.PackageEnvironments.{Entries};
ghost use Rattle.go_typings.specs.Sources.{PackageSource, Setting};
ghost use Rattle.go_soundness.specs.Settled.{AreSifted};
ghost use Rattle.go_sifting.specs.Graphs.{Stands};
ghost use Rattle.go_sifting.specs.Orders.{AllFlagged, AreAmong, AreStraight, IsOrderOf, IsSettled};

use crate::order::DeclarationOrder;
use go_base::list::List;
use go_base::memory::NoMemory;
use go_graphs::circles::leading_back;
use go_graphs::flags::{flag, flags_of};
use go_graphs::ranks::ranked;
use go_graphs::rows::row;
use std::alloc::Global;

/// Whether all are flagged.
pub fn all_flagged(flags: &[bool]) -> bool
    ensures yes { result ≡ true → AllFlagged flags.now }
    ensures no { result ≡ false → AllFlagged flags.now → ⊥ }
{
    for number in 0..flags.len() {
        if !flag(flags, number) {
            return false;
        }
    }
    true
}

fn none_flagged(flags: &[bool]) -> bool
    ensures yes { result ≡ true → (n : ℕ) → is_flagged flags.now n ≡ false }
    ensures no { result ≡ false → (n : ℕ) × (is_flagged flags.now n ≡ true) }
{
    for number in 0..flags.len() {
        if flag(flags, number) {
            return false;
        }
    }
    true
}

// Whether each number of a row is flagged.
fn is_among(flags: &[bool], row: &[u32]) -> bool
    ensures yes { result ≡ true → (m : ℕ) → Has row.now m → is_flagged flags.now m ≡ true }
    ensures no { result ≡ false → ((m : ℕ) → Has row.now m → is_flagged flags.now m ≡ true) → ⊥ }
{
    for number in row {
        if !flag(flags, *number as usize) {
            return false;
        }
    }
    true
}

fn are_among(flags: &[bool], rows: &[List<u32>]) -> bool
    ensures yes { result ≡ true → AreAmong flags.now rows.now }
    ensures no { result ≡ false → AreAmong flags.now rows.now → ⊥ }
{
    for number in 0..rows.len() {
        if !is_among(flags, row(rows, number)) {
            return false;
        }
    }
    true
}

// Whether each has a rank.
fn all_ranked(alloc: Global, rows: &[List<u32>]) -> Result<bool, NoMemory>
    ensures yes { IfOk result (λ all. all ≡ true → (n : ℕ) → n < length rows.now → HasRank rows.now n) }
    ensures no { IfOk result (λ all. all ≡ false → ((n : ℕ) → n < length rows.now → HasRank rows.now n) → ⊥) }
{
    let flags = ranked(alloc, rows)?;
    Ok(all_flagged(&flags))
}

// Whether there is no number in any row.
fn are_empty(rows: &[List<u32>]) -> bool
    ensures { result ≡ true → (n m : ℕ) → Has (row_of rows.now n) m → ⊥ }
{
    for number in 0..rows.len() {
        if !row(rows, number).is_empty() {
            return false;
        }
    }
    true
}

// Whether none leads back along the first rows to the number in whose second row it stands, where their numbers are `u32`.
fn none_back(alloc: Global, leads: &[List<u32>], lengths: &[List<u32>]) -> Result<bool, NoMemory>
    ensures yes { IfOk result (λ none. none ≡ true → (n : ℕ) → n < length leads.now → LeadsBack leads.now lengths.now n → ⊥) }
    ensures no { IfOk result (λ none. none ≡ false → ((n : ℕ) → n < length leads.now → LeadsBack leads.now lengths.now n → ⊥) → ⊥) }
{
    if u32::try_from(leads.len()).is_err() {
        return Err(NoMemory);
    }
    // Few packages name a constant of their own in a length.
    if are_empty(lengths) {
        return Ok(true);
    }
    let back = leading_back(alloc, leads, lengths)?;
    Ok(none_flagged(&back))
}

// Whether it is told where lengths lead, and none leads back.
fn are_straight(alloc: Global, order: &DeclarationOrder) -> Result<bool, NoMemory>
    ensures yes { IfOk result (λ straight. straight ≡ true → AreStraight order.now) }
    ensures no { IfOk result (λ straight. straight ≡ false → AreStraight order.now → ⊥) }
{
    let lengths = order.lengths.items();
    if !are_among(&order.reached, lengths) {
        return Ok(false);
    }
    if !are_among(&order.reached, &order.leads) {
        return Ok(false);
    }
    let straight = none_back(alloc, &order.leads, lengths)?;
    Ok(straight)
}

fn is_settled(alloc: Global, order: &DeclarationOrder, standing: &[bool]) -> Result<bool, NoMemory>
    ensures yes { IfOk result (λ settled. settled ≡ true → IsSettled order.now standing.now) }
    ensures no { IfOk result (λ settled. settled ≡ false → IsSettled order.now standing.now → ⊥) }
{
    if !all_flagged(standing) {
        return Ok(false);
    }
    let ranked = all_ranked(alloc, order.after.items())?;
    if !ranked {
        return Ok(false);
    }
    let straight = are_straight(alloc, order)?;
    Ok(straight)
}

/// Flags of the lost declarations, all unset, where these are flags of those that have an entry and meet what they are
/// asked, and all are flagged and have a rank, and it is told where the names in lengths lead, and none leads back. None
/// where one of this fails. `NoMemory` may come at any time, and comes for more than 2^32 - 1 declarations.
pub fn none_lost(
    alloc: Global,
    order: &DeclarationOrder,
    standing: &[bool],
) -> Result<Option<Vec<bool>>, NoMemory>
    ensures some { (s : Setting) (u : PackageSource) (a : Entries) → IsOrderOf s u a order.now → AreFlagsOf (length (declarations u)) (Stands s u a) standing.now → IfOk result (λ found. IfSome found (λ lost. (length lost.items ≡ length (declarations u)) × AreSifted s u a (is_flagged lost.items))) }
    ensures settled { IfOk result (λ found. IfSome found (λ lost. IsSettled order.now standing.now)) }
    ensures none { IfOk result (λ found. IfNone found (IsSettled order.now standing.now → ⊥)) }
{
    let settled = is_settled(alloc, order, standing)?;
    if !settled {
        return Ok(None);
    }
    let lost = flags_of(alloc, standing.len(), &[])?;
    Ok(Some(lost))
}
