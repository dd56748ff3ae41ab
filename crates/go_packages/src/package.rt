//! The package of a unit.
ghost use Rattle.std.specs.Prelude.{◌≡◌, ℕ, Bool, IfOk};
ghost use Rattle.go_declarations.specs.Listings.{declarations_of};
ghost use Rattle.go_declared.specs.PackageTables.{AreTables};
ghost use Rattle.go_entries.specs.HadEntries.{entries_at};
ghost use Rattle.go_exposed.specs.OfferedPackages.{IsPackageOf};
ghost use Rattle.go_sources.specs.UnitSources.{source_of};
ghost use Rattle.go_typings.specs.Declarations.{declarations as all_declarations};
ghost use Rattle.go_typings.specs.Sources.{Setting};
ghost use Rattle.go_typings.specs.Typings.{Typing};

use crate::defined::defined_types;
use crate::objects::objects;
use go_base::memory::NoMemory;
use go_base::shared::Shared;
use go_declared::package::PackageTables;
use go_entries::had::HadEntries;
use go_model::types::package::Package;
use go_units::unit::Unit;
use std::alloc::Global;

/// The package of a unit of whose declarations some have these entries: what each name denotes whose declaration has one, and each
/// defined type that has one with the methods that a selector can find, all in order. In any setting of which the entries are a
/// typing of some declarations it is the one package that they make.
pub fn package(
    alloc: Global,
    unit: &Unit,
    tables: &PackageTables<'_>,
    had: &HadEntries,
) -> Result<Package, NoMemory>
    requires listed { declarations_of tables.now.declarations.now ≡ all_declarations (source_of unit.now) }
    requires tables { AreTables tables.now }
    ensures { (s : Setting) (within : ℕ → Bool) → Typing s (source_of unit.now) within (entries_at had.now) → IfOk result (IsPackageOf (source_of unit.now) (entries_at had.now)) }
{
    let listed = tables.names.in_order(alloc)?;
    let objects = objects(alloc, &unit.path, tables.declarations, listed.items(), had)?;
    let defined = defined_types(
        alloc,
        unit,
        tables.declarations,
        tables.methods,
        listed.items(),
        had,
    )?;
    let shared_objects = Shared::new(alloc, objects)?;
    let shared_defined = Shared::new(alloc, defined)?;
    Ok(Package {
        path: unit.path.copy()?,
        name: unit.name.copy()?,
        from_std: unit.from_std,
        objects: shared_objects,
        defined: shared_defined,
    })
}
