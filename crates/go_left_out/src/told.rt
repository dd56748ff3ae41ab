//! Which declarations of a package are beyond the profile.
ghost use Rattle.std.specs.Prelude.{◌≡◌, ℕ, Bool, length, IfOk};
ghost use Rattle.go_declarations.specs.Listings.{declarations_of};
ghost use Rattle.go_exposed.specs.Causes.{IsOfMissing, IsOfNumber, IsToldInexact};
ghost use Rattle.go_exposed.specs.ToldBeyond.{IsToldBeyond};
ghost use Rattle.go_graphs.specs.Flags.{AreFlagsOf};
ghost use Rattle.go_left_out.specs.Told.{AreTold};
ghost use Rattle.go_sifting.specs.Graphs.{AreRows};
ghost use Rattle.go_soundness.specs.LostDeclarations.{Depends};
ghost use Rattle.go_import_uses.specs.go_sources.UnitSources.{source_of};
ghost use Rattle.go_typings.specs.Declarations.{declarations as all_declarations};
ghost use Rattle.go_typings.specs.PackageEnvironments.{Entries};
ghost use Rattle.go_typings.specs.Sources.{PackageSource, Setting};

use go_base::list::List;
use go_base::memory::NoMemory;
use go_declarations::listing::Declaration;
use go_graphs::marks::leading;
use go_import_uses::go_beyond::numbers::having_numbers;
use go_import_uses::missing::selecting_missing;
use go_reach::any::any_of;
use go_reach::numbers::flagged_numbers;
use go_units::unit::Unit;
use std::alloc::Global;

/// Flags of the declarations of a package that are beyond the profile by themselves: for a number in them, for inexact constants, for an
/// import that isn't found; and of all that are beyond it, by themselves or for one on which they depend.
#[derive(Drop)]
pub struct Told {
    pub numbers: Vec<bool>,
    pub inexact: Vec<bool>,
    pub missing: Vec<bool>,
    pub beyond: Vec<bool>,
}

// Flags of those that depend, in whatever number of steps, on one that is beyond the profile by itself.
fn depending(
    alloc: Global,
    depends: &[List<u32>],
    numbers: &[bool],
    inexact: &[bool],
    missing: &[bool],
) -> Result<Vec<bool>, NoMemory>
    ensures { (s : Setting) (u : PackageSource) (a : Entries) (lost : ℕ → Bool) → AreRows s u a (Depends s u a) depends.now
        → AreFlagsOf (length (all_declarations u)) (IsOfNumber u (IsToldInexact s u a lost) (IsToldBeyond s u a lost)) numbers.now
        → AreFlagsOf (length (all_declarations u)) (IsToldInexact s u a lost) inexact.now
        → AreFlagsOf (length (all_declarations u)) (IsOfMissing u (IsToldInexact s u a lost) (IsToldBeyond s u a lost)) missing.now
        → IfOk result (λ flags. AreFlagsOf (length (all_declarations u)) (IsToldBeyond s u a lost) flags.items) }
{
    let alone = any_of(alloc, depends.len(), numbers, inexact, missing)?;
    let ends = flagged_numbers(alloc, &alone, depends.len())?;
    leading(alloc, depends, &ends)
}

/// Which declarations of a package are beyond the profile, where flags tell of which constants are inexact, and the rows have those on
/// which each depends.
pub fn tell(
    alloc: Global,
    unit: &Unit,
    declarations: &[Declaration<'_>],
    depends: &[List<u32>],
    inexact: Vec<bool>,
) -> Result<Told, NoMemory>
    requires { declarations_of declarations.now ≡ all_declarations (source_of unit.now) }
    ensures { (s : Setting) (a : Entries) (lost : ℕ → Bool) → AreRows s (source_of unit.now) a (Depends s (source_of unit.now) a) depends.now
        → AreFlagsOf (length (all_declarations (source_of unit.now))) (IsToldInexact s (source_of unit.now) a lost) inexact.items → IfOk result (AreTold s (source_of unit.now) a lost) }
{
    let numbers = having_numbers(alloc, declarations)?;
    let missing = selecting_missing(alloc, unit, declarations)?;
    let beyond = depending(alloc, depends, &numbers, &inexact, &missing)?;
    Ok(Told {
        numbers,
        inexact,
        missing,
        beyond,
    })
}
