//! What is answered of a package whose entries are all had, and of which declarations may be left out.
ghost use Rattle.std.specs.Prelude.{◌≡◌, ◌≢◌, [], ℕ, false, length, IfOk, Ok};
ghost use Rattle.go_check.specs.Answers.{Answers};
ghost use Rattle.go_declarations.specs.Listings.{declarations_of};
ghost use Rattle.go_declared.specs.PackageTables.{AreTables};
ghost use Rattle.go_packages.specs.go_entries.HadEntries.{entries_at};
ghost use Rattle.go_exposed.specs.Refusals.{IsMissing};
ghost use Rattle.go_exposed.specs.SkippedValues.{all_skipped};
ghost use Rattle.go_exposed.specs.SkippedWorlds.{IsSkipped};
ghost use Rattle.go_graphs.specs.Flags.{is_flagged};
ghost use Rattle.go_left_out.specs.Kept.{LeavesOnly};
ghost use Rattle.go_left_out.specs.Told.{AreTold};
ghost use Rattle.go_package_scopes.specs.PackageScopes.{IsScopeOf};
ghost use Rattle.go_sifting.specs.Graphs.{AreRows};
ghost use Rattle.go_soundness.specs.Apart.{IsApart};
ghost use Rattle.go_soundness.specs.LostDeclarations.{Depends};
ghost use Rattle.go_soundness.specs.Settled.{AreAll, AreSifted};
ghost use Rattle.go_sources.specs.UnitSources.{source_of};
ghost use Rattle.go_syntax.specs.declared.name.Place.{Place as Spot};
ghost use Rattle.go_typings.specs.Declarations.{declarations as all_declarations};
ghost use Rattle.go_typings.specs.Redeclarations.{IsRedeclared};
ghost use Rattle.go_typings.specs.Sources.{Setting};

use crate::checked::CheckedPackage;
use crate::error::CheckError;
use crate::kept::leave_only;
use go_base::list::List;
use go_base::memory::NoMemory;
use go_declaration_graph::graph::graph;
use go_declared::package::PackageTables;
use go_exposed::laws::{beyond_of_sieve, offered_or_refused, sieve_of_kept, whole_package};
use go_inexact::constants::inexact_constants;
use go_left_out::places::place_of;
use go_left_out::skipped::skipped;
use go_left_out::told::{Told, tell};
use go_left_out::wrong::first_wrong;
use go_packages::go_entries::had::HadEntries;
use go_packages::package::package;
use go_rules::env::Env;
use go_seen::seen::seen;
use go_sifting::first::first_flagged;
use go_soundness::laws::typed_or_first_unsound;
use go_units::unit::Unit;
use std::alloc::Global;

// The package of these entries, where no declaration is lost.
fn complete(
    alloc: Global,
    unit: &Unit,
    tables: &PackageTables<'_>,
    had: &HadEntries,
    lost: &[bool],
) -> Result<CheckedPackage, CheckError>
    requires listed { declarations_of tables.now.declarations.now ≡ all_declarations (source_of unit.now) }
    requires tables { AreTables tables.now }
    requires once { (q : Spot) → IsRedeclared (source_of unit.now) q → ⊥ }
    requires found { (q : Spot) → IsMissing (source_of unit.now) q → ⊥ }
    requires none { (n : ℕ) → is_flagged lost.now n ≡ false }
    ensures answers { (s : Setting) → IsApart s (source_of unit.now) → AreAll s (source_of unit.now) (entries_at had.now)
        → AreSifted s (source_of unit.now) (entries_at had.now) (is_flagged lost.now) → Answers s (source_of unit.now) result }
    ensures skipped { (s : Setting) → IsApart s (source_of unit.now) → AreAll s (source_of unit.now) (entries_at had.now)
        → AreSifted s (source_of unit.now) (entries_at had.now) (is_flagged lost.now) → IfOk result (λ c. IsSkipped s (source_of unit.now) (all_skipped c.skipped)) }
{
    typed_or_first_unsound();
    whole_package();
    let skipped = List::new(alloc);
    match package(alloc, unit, tables, had) {
        Ok(package) => Ok(CheckedPackage { package, skipped }),
        Err(NoMemory) => Err(CheckError::NoMemory),
    }
}

// The package of the declarations that aren't lost, where the others may be left out, with these.
fn incomplete(
    alloc: Global,
    unit: &Unit,
    tables: &PackageTables<'_>,
    mut had: HadEntries,
    lost: &[bool],
    depends: &[List<u32>],
    told: &Told,
) -> Result<CheckedPackage, NoMemory>
    requires listed { declarations_of tables.now.declarations.now ≡ all_declarations (source_of unit.now) }
    requires tables { AreTables tables.now }
    requires flags { length lost.now ≡ length (all_declarations (source_of unit.now)) }
    requires count { length had ≡ length (all_declarations (source_of unit.now)) }
    requires once { (q : Spot) → IsRedeclared (source_of unit.now) q → ⊥ }
    requires found { (q : Spot) → IsMissing (source_of unit.now) q → ⊥ }
    ensures answers { (s : Setting) → IsApart s (source_of unit.now) → AreAll s (source_of unit.now) (entries_at had) → AreSifted s (source_of unit.now) (entries_at had) (is_flagged lost.now)
        → LeavesOnly s (source_of unit.now) (is_flagged lost.now) → IfOk result (λ c. Answers s (source_of unit.now) (Ok c)) }
    ensures skipped { (s : Setting) → IsApart s (source_of unit.now) → AreAll s (source_of unit.now) (entries_at had) → AreSifted s (source_of unit.now) (entries_at had) (is_flagged lost.now)
        → LeavesOnly s (source_of unit.now) (is_flagged lost.now) → AreRows s (source_of unit.now) (entries_at had) (Depends s (source_of unit.now) (entries_at had)) depends.now
        → AreTold s (source_of unit.now) (entries_at had) (is_flagged lost.now) told.now → IfOk result (λ c. IsSkipped s (source_of unit.now) (all_skipped c.skipped)) }
{
    offered_or_refused();
    sieve_of_kept();
    leave_only(&mut had, lost);
    let package = package(alloc, unit, tables, &had)?;
    let skipped = skipped(alloc, tables.declarations, depends, lost, told)?;
    Ok(CheckedPackage { package, skipped })
}

// The same where some are lost, or the refusal at the first of these that is seen or isn't beyond the profile.
fn sifted(
    alloc: Global,
    env: &mut Env<'_>,
    unit: &Unit,
    tables: &PackageTables<'_>,
    had: HadEntries,
    lost: &[bool],
) -> Result<CheckedPackage, CheckError>
    requires listed { declarations_of tables.now.declarations.now ≡ all_declarations (source_of unit.now) }
    requires tables { AreTables tables.now }
    requires flags { length lost.now ≡ length (all_declarations (source_of unit.now)) }
    requires count { length had ≡ length (all_declarations (source_of unit.now)) }
    requires pathed { unit.now.path ≢ [] }
    requires once { (q : Spot) → IsRedeclared (source_of unit.now) q → ⊥ }
    requires found { (q : Spot) → IsMissing (source_of unit.now) q → ⊥ }
    ensures answers { (s : Setting) → IsApart s (source_of unit.now) → IsScopeOf s (source_of unit.now) (entries_at had) env.old → AreAll s (source_of unit.now) (entries_at had)
        → AreSifted s (source_of unit.now) (entries_at had) (is_flagged lost.now) → Answers s (source_of unit.now) result }
    ensures skipped { (s : Setting) → IsApart s (source_of unit.now) → IsScopeOf s (source_of unit.now) (entries_at had) env.old → AreAll s (source_of unit.now) (entries_at had)
        → AreSifted s (source_of unit.now) (entries_at had) (is_flagged lost.now) → IfOk result (λ c. IsSkipped s (source_of unit.now) (all_skipped c.skipped)) }
{
    offered_or_refused();
    beyond_of_sieve();
    let graph = graph(alloc, env, tables)?;
    let depends = graph.depends.items();
    let seen = seen(alloc, unit, tables.declarations, depends)?;
    let inexact = inexact_constants(alloc, env, tables.declarations, depends, lost)?;
    let told = tell(alloc, unit, tables.declarations, depends, inexact)?;
    match first_wrong(lost, &seen, &told.beyond) {
        Some(number) => Err(CheckError::Unsound(place_of(&tables.declarations[number]))),
        None => match incomplete(alloc, unit, tables, had, lost, depends, &told) {
            Ok(checked) => Ok(checked),
            Err(NoMemory) => Err(CheckError::NoMemory),
        },
    }
}

/// The package of the declarations that are kept, with those that are left out; or its refusal at the first that is lost and is seen or
/// isn't beyond the profile. Where none is lost the scopes are given up first, so that they don't stand in memory beside the package.
pub(crate) fn answer(
    alloc: Global,
    mut env: Env<'_>,
    unit: &Unit,
    tables: &PackageTables<'_>,
    had: HadEntries,
    lost: &[bool],
) -> Result<CheckedPackage, CheckError>
    requires listed { declarations_of tables.now.declarations.now ≡ all_declarations (source_of unit.now) }
    requires tables { AreTables tables.now }
    requires flags { length lost.now ≡ length (all_declarations (source_of unit.now)) }
    requires count { length had ≡ length (all_declarations (source_of unit.now)) }
    requires pathed { unit.now.path ≢ [] }
    requires once { (q : Spot) → IsRedeclared (source_of unit.now) q → ⊥ }
    requires found { (q : Spot) → IsMissing (source_of unit.now) q → ⊥ }
    ensures answers { (s : Setting) → IsApart s (source_of unit.now) → IsScopeOf s (source_of unit.now) (entries_at had) env.entry → AreAll s (source_of unit.now) (entries_at had)
        → AreSifted s (source_of unit.now) (entries_at had) (is_flagged lost.now) → Answers s (source_of unit.now) result }
    ensures skipped { (s : Setting) → IsApart s (source_of unit.now) → IsScopeOf s (source_of unit.now) (entries_at had) env.entry → AreAll s (source_of unit.now) (entries_at had)
        → AreSifted s (source_of unit.now) (entries_at had) (is_flagged lost.now) → IfOk result (λ c. IsSkipped s (source_of unit.now) (all_skipped c.skipped)) }
{
    match first_flagged(lost) {
        None => {
            drop(env);
            complete(alloc, unit, tables, &had, lost)
        }
        Some(_) => sifted(alloc, &mut env, unit, tables, had, lost),
    }
}
