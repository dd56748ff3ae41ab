//! The scopes of a package of which no entry is had yet.
ghost use Rattle.std.specs.Prelude.{◌≡◌, ◌⊎◌, IfOk, None};
ghost use Rattle.go_declarations.specs.Listings.{declarations_of};
ghost use Rattle.go_declared.specs.PackageTables.{AreTables};
ghost use Rattle.go_package_scopes.specs.KeptScopes.{Keeps};
ghost use Rattle.go_sources.specs.UnitSources.{source_of};
ghost use Rattle.go_typings.specs.Declarations as declared;

use crate::announced::announce;
use crate::awaited_methods::await_methods;
use crate::file_imports::add_files;
use crate::own_types::declare_types;
use go_base::memory::NoMemory;
use go_declared::package::PackageTables;
use go_model::types::world::World;
use go_rules::env::Env;
use go_units::unit::Unit;
use std::alloc::Global;

/// The scopes of a package before any of its declarations is settled, over the world of its imports, where `int`, `uint` and
/// `uintptr` have so many bits, in a client of the profile or not. They have the imports of each file, of which the first of a
/// name counts, and none that is named `init`; they know which names the package declares, and have its defined types as
/// objects; and they await the methods that its types have. The tables are those of the package's declarations.
pub fn new_scopes<'w>(
    alloc: Global,
    world: &'w World,
    bits: u32,
    profile: bool,
    unit: &Unit,
    tables: &PackageTables<'_>,
) -> Result<Env<'w>, NoMemory>
    requires bits { (bits ≡ 32) ⊎ (bits ≡ 64) }
    requires listed { declarations_of tables.now.declarations.now ≡ declared.declarations (source_of unit.now) }
    requires tables { AreTables tables.now }
    ensures { IfOk result (Keeps (record { world = world.now; bits = bits; profile = profile }) (source_of unit.now) (λ number. None)) }
{
    let path = unit.path.copy()?;
    let mut env = Env::new(alloc, world, path, bits, profile);
    add_files(&mut env, alloc, unit.files.items())?;
    announce(&mut env, alloc, tables.names)?;
    declare_types(&mut env, alloc, tables.names, tables.declarations)?;
    await_methods(&mut env, tables.names, tables.methods, tables.declarations)?;
    Ok(env)
}
