//! The imports of a file, found by their names.
ghost use Rattle.std.specs.Prelude.{◌≡◌, map, IfOk, OnOk};
ghost use Rattle.go_import_uses.specs.Selecting.{borrowed, import_in};
ghost use Rattle.go_import_uses.specs.inner.NamedImports.{Names};
ghost use Rattle.go_sources.specs.UnitSources.{import_of};
ghost use Rattle.go_typings.specs.Declarations.{is_init};

use go_base::memory::NoMemory;
use go_base::text::Text;
use go_units::unit::UsedImport;
use std::alloc::Global;
use std::collections::BTreeMap;
use std::marker::Model;

/// The imports of a file, of which the first of each name is found by the name.
pub(crate) struct NamedImports<'u> {
    imports: &'u [UsedImport],
    by_name: BTreeMap<Text, &'u UsedImport>,
}

impl Drop for NamedImports<'_> {
    fn drop(self) {
        let NamedImports {
            imports: _,
            by_name: _,
        } = self;
    }
}

impl<'u> Model for NamedImports<'u> {
    ghost use Rattle.std.specs.Coded.{coded_list};
    ghost use Rattle.std.specs.Prelude.{List};
    ghost use Rattle.go_import_uses.specs.inner.NamedImports.{AreNamed};
    ghost use Rattle.go_units.specs.contracts.unit.UsedImport as used;
    ghost use Rattle.go_units.specs.declared.unit.UsedImport.{UsedImport};

    ghost Value = { List UsedImport };

    ghost coded = { coded_list used.the_row.coded };

    ghost view = { λ n. n.imports.now };

    ghost invariant = { λ n. AreNamed n.imports.now n.by_name.entries };
}

fn is_init(name: &Text) -> bool
    ensures { result ≡ is_init name.now }
{
    name.bytes() == b"init".as_slice()
}

// Gives the name of an import to it, in place of another import.
fn put<'u>(
    by_name: &mut BTreeMap<Text, &'u UsedImport>,
    import: &'u UsedImport,
) -> Result<(), NoMemory>
    ensures { OnOk result (Names import.now by_name.old.entries by_name.new.entries) }
{
    by_name.insert(import.name.copy()?, import)?;
    Ok(())
}

/// These imports of a file by their names.
pub(crate) fn named_imports<'u>(
    alloc: Global,
    imports: &'u [UsedImport],
) -> Result<NamedImports<'u>, NoMemory>
    ensures { IfOk result (λ named. named ≡ imports.now) }
{
    let mut by_name = BTreeMap::new(alloc);
    for done in 0..imports.len() {
        put(&mut by_name, &imports[imports.len() - 1 - done])?;
    }
    Ok(NamedImports { imports, by_name })
}

/// The import that a name means in a file with these imports.
pub(crate) fn import_named<'u>(imports: &NamedImports<'u>, name: &Text) -> Option<&'u UsedImport>
    ensures { borrowed result ≡ import_in (map import_of imports.now) name.now }
{
    if is_init(name) {
        return None;
    }
    match imports.by_name.get(name) {
        Some(import) => Some(*import),
        None => None,
    }
}
