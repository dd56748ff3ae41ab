//! Which declarations of a package are lost, where all entries are had.
ghost use Rattle.std.specs.Prelude.{◌≡◌, ◌≢◌, [], length, IfOk};
ghost use Rattle.go_declarations.specs.Listings.{declarations_of};
ghost use Rattle.go_declared.specs.PackageTables.{AreTables};
ghost use Rattle.go_graphs.specs.Flags.{AreFlagsOf, is_flagged};
ghost use Rattle.go_packages.specs.go_entries.HadEntries.{entries_at};
ghost use Rattle.go_package_scopes.specs.KeptScopes.{IsMoved};
ghost use Rattle.go_package_scopes.specs.PackageScopes.{IsScopeOf};
ghost use Rattle.go_sifting.specs.Graphs.{Stands};
ghost use Rattle.go_soundness.specs.Settled.{AreSifted};
ghost use Rattle.go_sources.specs.UnitSources.{source_of};
ghost use Rattle.go_typings.specs.Declarations.{declarations as all_declarations};
ghost use Rattle.go_typings.specs.PackageEnvironments.{Entries};
ghost use Rattle.go_typings.specs.Sources.{PackageSource, Setting};

use crate::entered::entered;
use go_base::memory::NoMemory;
use go_declaration_graph::graph::graph;
use go_declaration_graph::order::order;
use go_declared::package::PackageTables;
use go_met::met::met;
use go_packages::go_entries::had::HadEntries;
use go_rules::env::Env;
use go_sifting::settled::{all_flagged, none_lost};
use go_sifting::sift::sift;
use go_sifting::standing::standing;
use go_units::unit::Unit;
use std::alloc::Global;

// Flags of the lost declarations, told from all that they have to do with one another.
fn sifted(
    alloc: Global,
    env: &mut Env<'_>,
    tables: &PackageTables<'_>,
    standing: &[bool],
) -> Result<Vec<bool>, NoMemory>
    requires { AreTables tables.now }
    ensures lost { (s : Setting) (u : PackageSource) (a : Entries) → all_declarations u ≡ declarations_of tables.now.declarations.now → u.path ≢ [] → IsScopeOf s u a env.old
        → AreFlagsOf (length (all_declarations u)) (Stands s u a) standing.now → IfOk result (λ lost. (length lost.items ≡ length (all_declarations u)) × AreSifted s u a (is_flagged lost.items)) }
    ensures moved { IsMoved env.old env.new }
{
    let graph = graph(alloc, env, tables)?;
    sift(alloc, &graph, standing)
}

// The same, told from their order alone where that tells that none is lost.
fn lost_of(
    alloc: Global,
    env: &mut Env<'_>,
    tables: &PackageTables<'_>,
    standing: &[bool],
) -> Result<Vec<bool>, NoMemory>
    requires { AreTables tables.now }
    ensures lost { (s : Setting) (u : PackageSource) (a : Entries) → all_declarations u ≡ declarations_of tables.now.declarations.now → u.path ≢ [] → IsScopeOf s u a env.old
        → AreFlagsOf (length (all_declarations u)) (Stands s u a) standing.now → IfOk result (λ lost. (length lost.items ≡ length (all_declarations u)) × AreSifted s u a (is_flagged lost.items)) }
    ensures moved { IsMoved env.old env.new }
{
    if !all_flagged(standing) {
        return sifted(alloc, env, tables, standing);
    }
    let order = order(alloc, env, tables)?;
    match none_lost(alloc, &order, standing)? {
        Some(lost) => Ok(lost),
        None => sifted(alloc, env, tables, standing),
    }
}

/// Flags of the lost declarations of a package, in scopes that have what is had of it. The file in turn and the value of `iota` change.
pub(crate) fn lost(
    alloc: Global,
    env: &mut Env<'_>,
    unit: &Unit,
    tables: &PackageTables<'_>,
    had: &HadEntries,
) -> Result<Vec<bool>, NoMemory>
    requires listed { declarations_of tables.now.declarations.now ≡ all_declarations (source_of unit.now) }
    requires tables { AreTables tables.now }
    requires count { length had.now ≡ length tables.now.declarations.now }
    requires pathed { unit.now.path ≢ [] }
    ensures lost { (s : Setting) → IsScopeOf s (source_of unit.now) (entries_at had.now) env.old
        → IfOk result (λ lost. (length lost.items ≡ length (all_declarations (source_of unit.now))) × AreSifted s (source_of unit.now) (entries_at had.now) (is_flagged lost.items)) }
    ensures moved { IsMoved env.old env.new }
{
    let met = met(alloc, env, unit.name.bytes(), tables)?;
    let entered = entered(alloc, had)?;
    let standing = standing(alloc, &entered, &met)?;
    lost_of(alloc, env, tables, &standing)
}
