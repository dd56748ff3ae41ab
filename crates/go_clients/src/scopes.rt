//! The scopes of a package that is typed.
ghost use Rattle.std.specs.Prelude.{◌≡◌, ◌≢◌, ◌⊎◌, [], None, IfOk};
ghost use Rattle.go_base.specs.Keys.{first_with};
ghost use Rattle.go_client_typings.specs.Clients.{setting};
ghost use Rattle.go_clients.specs.inner.Scopes.{KeepsTyping};
ghost use Rattle.go_declarations.specs.Listings.{declarations_of};
ghost use Rattle.go_declared.specs.PackageTables.{AreTables};
ghost use Rattle.go_model.specs.worlds.Worlds.{path_of};
ghost use Rattle.go_sources.specs.UnitSources.{source_of};
ghost use Rattle.go_typings.specs.Declarations.{declarations as all_declarations};

use go_base::memory::NoMemory;
use go_check::go_new_scopes::scopes::new_scopes;
use go_check::go_package_entries::entries::entries;
use go_declared::package::PackageTables;
use go_model::types::world::World;
use go_package_scopes::laws::kept_scopes;
use go_rules::env::Env;
use go_soundness::laws::{entries_of_all, sieve_of_typing};
use go_units::unit::Unit;
use std::alloc::Global;

/// The scopes of a package, which keep its typing, where it has one. No scope is open in them inside of the package's.
pub(crate) fn typed_scopes<'w>(
    alloc: Global,
    unit: &Unit,
    imports: &'w World,
    bits: u32,
    profile: bool,
    tables: &PackageTables<'_>,
    hints: &[u32],
) -> Result<Env<'w>, NoMemory>
    requires bits { (bits ≡ 32) ⊎ (bits ≡ 64) }
    requires pathed { unit.now.path ≢ [] }
    requires absent { first_with path_of imports.now.packages unit.now.path ≡ None }
    requires listed { declarations_of tables.now.declarations.now ≡ all_declarations (source_of unit.now) }
    requires tables { AreTables tables.now }
    ensures keeps { IfOk result (KeepsTyping (setting imports.now bits profile) (source_of unit.now)) }
    ensures opened { IfOk result (λ env. env.opened ≡ []) }
{
    kept_scopes();
    sieve_of_typing();
    entries_of_all();
    let env = new_scopes(alloc, imports, bits, profile, unit, tables)?;
    let settled = entries(alloc, env, unit, tables, hints)?;
    let (env, _had) = settled.into_parts();
    Ok(env)
}
