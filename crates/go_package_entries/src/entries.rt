//! All entries that the declarations of a package have.
ghost use Rattle.std.specs.Prelude.{◌≡◌, ◌≢◌, [], length, IfOk};
ghost use Rattle.go_declarations.specs.Listings.{declarations_of};
ghost use Rattle.go_declared.specs.PackageTables.{AreTables};
ghost use Rattle.go_entries.specs.HadEntries.{entries_at};
ghost use Rattle.go_package_scopes.specs.KeptScopes.{Keeps};
ghost use Rattle.go_settling.specs.Settling.{no_entries};
ghost use Rattle.go_soundness.specs.Settled.{AreAll};
ghost use Rattle.go_sources.specs.UnitSources.{source_of};
ghost use Rattle.go_typings.specs.Declarations.{declarations as declared_in};
ghost use Rattle.go_package_entries.specs.PackageStates.{IsKept, entries_in, had_in, scopes_in, setting_in, source_in};
ghost use Rattle.go_package_entries.specs.Settings.{setting_of};

use crate::giver::PackageEntries;
use crate::tables::Tables;
use go_base::memory::NoMemory;
use go_declared::aliases::alias_ends;
use go_declared::namesakes::Namesakes;
use go_declared::package::PackageTables;
use go_entries::had::HadEntries;
use go_rules::env::Env;
use go_selectors::lookup::error_type;
use go_settling::laws::nothing_had;
use go_settling::settle::settle_all;
use go_units::unit::Unit;
use std::alloc::Global;

// The package, of which nothing is had.
fn nothing_of<'w, 'a>(
    alloc: Global,
    env: Env<'w>,
    unit: &'a Unit,
    tables: &PackageTables<'a>,
) -> Result<PackageEntries<'w, 'a>, NoMemory>
    requires kept { Keeps (setting_of env) (source_of unit.now) no_entries env }
    requires listed { declared_in (source_of unit.now) ≡ declarations_of tables.now.declarations.now }
    requires tables { AreTables tables.now }
    requires pathed { unit.now.path ≢ [] }
    ensures kept { IfOk result IsKept }
    ensures none { IfOk result (λ p. entries_in p ≡ no_entries) }
    ensures setting { IfOk result (λ p. setting_in p ≡ setting_of env.entry) }
    ensures source { IfOk result (λ p. source_in p ≡ source_of unit.now) }
{
    let ends = alias_ends(alloc, tables.declarations, tables.names)?;
    let namesakes = Namesakes::of(alloc, tables.declarations, tables.names)?;
    let had = HadEntries::new(alloc, tables.declarations.len())?;
    let error = error_type(alloc)?;
    Ok(PackageEntries {
        alloc,
        env,
        error,
        unit,
        tables: Tables {
            declarations: tables.declarations,
            names: tables.names,
            ends,
            methods: tables.methods,
            namesakes,
        },
        had,
    })
}

/// All entries that the declarations of a package have, and the scopes that keep them, over scopes of the package that know what
/// it declares and keep none of it.
///
/// Those that are hinted are tried first, in order, which makes it fast; what is had doesn't depend on them.
pub fn entries<'w, 'a>(
    alloc: Global,
    env: Env<'w>,
    unit: &'a Unit,
    tables: &PackageTables<'a>,
    hints: &[u32],
) -> Result<PackageEntries<'w, 'a>, NoMemory>
    requires kept { Keeps (setting_of env) (source_of unit.now) no_entries env }
    requires listed { declared_in (source_of unit.now) ≡ declarations_of tables.now.declarations.now }
    requires tables { AreTables tables.now }
    requires pathed { unit.now.path ≢ [] }
    ensures all { IfOk result (λ p. AreAll (setting_of env.entry) (source_of unit.now) (entries_at (had_in p))) }
    ensures count { IfOk result (λ p. length (had_in p) ≡ length tables.now.declarations.now) }
    ensures kept { IfOk result (λ p. Keeps (setting_of env.entry) (source_of unit.now) (entries_at (had_in p)) (scopes_in p)) }
    ensures setting { IfOk result (λ p. setting_in p ≡ setting_of env.entry) }
    ensures source { IfOk result (λ p. source_in p ≡ source_of unit.now) }
{
    nothing_had();
    let mut entries = nothing_of(alloc, env, unit, tables)?;
    if let Err(error) = settle_all(&mut entries, hints) {
        return Err(error);
    }
    Ok(entries)
}
