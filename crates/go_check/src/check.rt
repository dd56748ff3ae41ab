//! The check of a package.
ghost use Rattle.std.specs.Prelude.{◌≡◌, ◌≢◌, ◌⊎◌, ◌+◌, ◌-◌, ◌^◌, [], false, min, None, IfNone, IfOk, IfSome};
ghost use Rattle.go_base.specs.Keys.{first_with};
ghost use Rattle.go_check.specs.Answers.{Answers, WholeAnswers, setting};
ghost use Rattle.go_check.specs.inner.SettledIn.{IsSettledIn};
ghost use Rattle.go_declarations.specs.Listings.{declarations_of};
ghost use Rattle.go_declared.specs.PackageTables.{AreTables};
ghost use Rattle.go_exposed.specs.Refusals as offered;
ghost use Rattle.go_exposed.specs.SkippedValues.{all_skipped};
ghost use Rattle.go_exposed.specs.SkippedWorlds.{IsSkipped};
ghost use Rattle.go_model.specs.worlds.Worlds.{path_of};
ghost use Rattle.go_sources.specs.UnitSources.{source_of};
ghost use Rattle.go_syntax.specs.declared.name.Place.{Place as Spot};
ghost use Rattle.go_typings.specs.Declarations.{declarations as all_declarations};
ghost use Rattle.go_typings.specs.Redeclarations.{IsRedeclared};
ghost use Rattle.go_typings.specs.Refusals.{IsMissing};

use crate::answer::answer;
use crate::checked::CheckedPackage;
use crate::declarations::declarations_in;
use crate::error::CheckError;
use crate::lost::lost;
use crate::whole::whole;
use go_base::memory::NoMemory;
use go_base::steps::Steps;
use go_declaration_graph::dependencies::dependencies;
use go_declared::methods::DeclaredMethods;
use go_declared::names::DeclaredNames;
use go_declared::package::PackageTables;
use go_left_out::go_import_uses::needed::first_needed;
use go_model::types::package::Package;
use go_model::types::world::World;
use go_new_scopes::scopes::new_scopes;
use go_package_entries::entries::entries;
use go_package_entries::hints::hints;
use go_package_scopes::laws::kept_scopes;
use go_packages::go_entries::had::HadEntries;
use go_rules::env::Env;
use go_seen::seen::seen;
use go_soundness::laws::apart_from_world;
use go_sources::missing_imports::missing_import;
use go_sources::redeclared::redeclared;
use go_syntax::name::Place;
use go_units::unit::Unit;
use std::alloc::Global;

// Entries of a package's declarations with the scopes that have them, and flags of the declarations that are lost.
#[derive(Drop)]
struct Settled<'w> {
    env: Env<'w>,
    had: HadEntries,
    lost: Vec<bool>,
}

// The entries of a package's declarations, and which are lost.
fn settle<'w>(
    alloc: Global,
    unit: &Unit,
    imports: &'w World,
    bits: u32,
    profile: bool,
    tables: &PackageTables<'_>,
    hints: &[u32],
) -> Result<Settled<'w>, NoMemory>
    requires bits { (bits ≡ 32) ⊎ (bits ≡ 64) }
    requires pathed { unit.now.path ≢ [] }
    requires absent { first_with path_of imports.now.packages unit.now.path ≡ None }
    requires listed { declarations_of tables.now.declarations.now ≡ all_declarations (source_of unit.now) }
    requires tables { AreTables tables.now }
    ensures { IfOk result (λ r. IsSettledIn (setting imports.now bits profile) (source_of unit.now) r.env r.had r.lost.items) }
{
    kept_scopes();
    let env = new_scopes(alloc, imports, bits, profile, unit, tables)?;
    let settled = entries(alloc, env, unit, tables, hints)?;
    let (mut env, had) = settled.into_parts();
    let lost = lost(alloc, &mut env, unit, tables, &had)?;
    Ok(Settled { env, had, lost })
}

// The package as which a unit is offered, or its first declaration that is lost and may not be left out, where no name is declared twice
// and each import is found that is needed.
fn offer_declarations(
    alloc: Global,
    unit: &Unit,
    imports: &World,
    bits: u32,
    profile: bool,
) -> Result<CheckedPackage, CheckError>
    requires bits { (bits ≡ 32) ⊎ (bits ≡ 64) }
    requires pathed { unit.now.path ≢ [] }
    requires absent { first_with path_of imports.now.packages unit.now.path ≡ None }
    requires once { (q : Spot) → IsRedeclared (source_of unit.now) q → ⊥ }
    requires found { (q : Spot) → offered.IsMissing (source_of unit.now) q → ⊥ }
    ensures answers { Answers (setting imports.now bits profile) (source_of unit.now) result }
    ensures skipped { IfOk result (λ c. IsSkipped (setting imports.now bits profile) (source_of unit.now) (all_skipped c.skipped)) }
{
    apart_from_world();
    // What a world keeps is told by its packages.
    let _packages = imports.packages();
    let declarations = declarations_in(alloc, unit)?;
    let names = DeclaredNames::of(alloc, declarations.items())?;
    let methods = DeclaredMethods::of(alloc, declarations.items(), &names)?;
    let hints = hints(alloc, declarations.items(), &names)?;
    let tables = PackageTables {
        declarations: declarations.items(),
        names: &names,
        methods: &methods,
    };
    let settled = settle(alloc, unit, imports, bits, profile, &tables, &hints)?;
    let Settled { env, had, lost } = settled;
    answer(alloc, env, unit, &tables, had, &lost)
}

// The package as which a unit is typed, or its first unsound declaration, where no name is declared twice and each import is found.
fn type_declarations(
    alloc: Global,
    unit: &Unit,
    imports: &World,
    bits: u32,
    profile: bool,
) -> Result<Package, CheckError>
    requires bits { (bits ≡ 32) ⊎ (bits ≡ 64) }
    requires pathed { unit.now.path ≢ [] }
    requires absent { first_with path_of imports.now.packages unit.now.path ≡ None }
    requires once { (q : Spot) → IsRedeclared (source_of unit.now) q → ⊥ }
    requires found { (q : Spot) → IsMissing (source_of unit.now) q → ⊥ }
    ensures { WholeAnswers (setting imports.now bits profile) (source_of unit.now) result }
{
    apart_from_world();
    // What a world keeps is told by its packages.
    let _packages = imports.packages();
    let declarations = declarations_in(alloc, unit)?;
    let names = DeclaredNames::of(alloc, declarations.items())?;
    let methods = DeclaredMethods::of(alloc, declarations.items(), &names)?;
    let hints = hints(alloc, declarations.items(), &names)?;
    let tables = PackageTables {
        declarations: declarations.items(),
        names: &names,
        methods: &methods,
    };
    let settled = settle(alloc, unit, imports, bits, profile, &tables, &hints)?;
    whole(alloc, unit, &tables, &settled.had, &settled.lost)
}

// The first import that isn't found and from which a declaration that is seen selects, where these are the package's tables.
fn needed_by(
    alloc: Global,
    unit: &Unit,
    tables: &PackageTables<'_>,
) -> Result<Option<Place>, NoMemory>
    requires listed { declarations_of tables.now.declarations.now ≡ all_declarations (source_of unit.now) }
    requires tables { AreTables tables.now }
    ensures some { IfOk result (λ found. IfSome found (offered.IsMissing (source_of unit.now))) }
    ensures none { IfOk result (λ found. IfNone found ((q : Spot) → offered.IsMissing (source_of unit.now) q → ⊥)) }
{
    let depends = dependencies(alloc, tables)?;
    let rows = depends.items();
    let seen = seen(alloc, unit, tables.declarations, rows)?;
    first_needed(alloc, unit, tables.declarations, &seen)
}

// The same, told from the unit alone.
fn needed_of_all(alloc: Global, unit: &Unit) -> Result<Option<Place>, NoMemory>
    ensures some { IfOk result (λ found. IfSome found (offered.IsMissing (source_of unit.now))) }
    ensures none { IfOk result (λ found. IfNone found ((q : Spot) → offered.IsMissing (source_of unit.now) q → ⊥)) }
{
    let declarations = declarations_in(alloc, unit)?;
    let names = DeclaredNames::of(alloc, declarations.items())?;
    let methods = DeclaredMethods::of(alloc, declarations.items(), &names)?;
    let tables = PackageTables {
        declarations: declarations.items(),
        names: &names,
        methods: &methods,
    };
    needed_by(alloc, unit, &tables)
}

// The same, told without the declarations where each import is found.
fn needed_import(alloc: Global, unit: &Unit) -> Result<Option<Place>, NoMemory>
    ensures some { IfOk result (λ found. IfSome found (offered.IsMissing (source_of unit.now))) }
    ensures none { IfOk result (λ found. IfNone found ((q : Spot) → offered.IsMissing (source_of unit.now) q → ⊥)) }
{
    match missing_import(unit) {
        None => Ok(None),
        Some(_) => needed_of_all(alloc, unit),
    }
}

// The package as which a unit is offered, with what is left out, or the first thing for which it is refused.
fn check(
    alloc: Global,
    unit: &Unit,
    imports: &World,
    bits: u32,
) -> Result<CheckedPackage, CheckError>
    requires bits { (bits ≡ 32) ⊎ (bits ≡ 64) }
    requires pathed { unit.now.path ≢ [] }
    requires absent { first_with path_of imports.now.packages unit.now.path ≡ None }
    ensures answers { Answers (setting imports.now bits false) (source_of unit.now) result }
    ensures skipped { IfOk result (λ c. IsSkipped (setting imports.now bits false) (source_of unit.now) (all_skipped c.skipped)) }
{
    match redeclared(alloc, unit) {
        Err(NoMemory) => Err(CheckError::NoMemory),
        Ok(Some(place)) => Err(CheckError::Redeclared(place)),
        Ok(None) => match needed_import(alloc, unit) {
            Err(NoMemory) => Err(CheckError::NoMemory),
            Ok(Some(place)) => Err(CheckError::MissingImport(place)),
            Ok(None) => offer_declarations(alloc, unit, imports, bits, false),
        },
    }
}

/// The package as which a unit is offered over its imports, where `int`, `uint` and `uintptr` have so many bits, and what is left out
/// of it, or the first thing for which it is refused: the place of a name that it declared before, else of an import that isn't found
/// and from which a seen declaration selects, else of the first declaration without a typing that is seen or isn't beyond the profile.
/// The imports don't have its path. The counter rises by one.
pub fn check_package<L: Copy>(
    alloc: Global,
    unit: &Unit,
    imports: &World,
    bits: u32,
    steps: &mut Steps<L>,
) -> Result<CheckedPackage, CheckError>
    requires bits { (bits ≡ 32) ⊎ (bits ≡ 64) }
    requires pathed { unit.now.path ≢ [] }
    requires absent { first_with path_of imports.now.packages unit.now.path ≡ None }
    ensures answers { Answers (setting imports.now bits false) (source_of unit.now) result }
    ensures skipped { IfOk result (λ c. IsSkipped (setting imports.now bits false) (source_of unit.now) (all_skipped c.skipped)) }
    ensures steps { steps.new ≡ min (steps.old + 1) (2 ^ 64 - 1) }
{
    steps.tick();
    check(alloc, unit, imports, bits)
}

/// The package as which a client is typed over its imports, with the profile's flag or without, or the first thing for which it is
/// refused: a name that it declared before, else a used import that isn't found, else a declaration without a typing. Nothing is left
/// out of it.
pub fn check_client(
    alloc: Global,
    unit: &Unit,
    imports: &World,
    bits: u32,
    profile: bool,
) -> Result<Package, CheckError>
    requires bits { (bits ≡ 32) ⊎ (bits ≡ 64) }
    requires pathed { unit.now.path ≢ [] }
    requires absent { first_with path_of imports.now.packages unit.now.path ≡ None }
    ensures { WholeAnswers (setting imports.now bits profile) (source_of unit.now) result }
{
    match redeclared(alloc, unit) {
        Err(NoMemory) => Err(CheckError::NoMemory),
        Ok(Some(place)) => Err(CheckError::Redeclared(place)),
        Ok(None) => match missing_import(unit) {
            Some(place) => Err(CheckError::MissingImport(place)),
            None => type_declarations(alloc, unit, imports, bits, profile),
        },
    }
}
