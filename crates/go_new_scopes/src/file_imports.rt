//! The imports of files.
ghost use Rattle.std.specs.Prelude.{◌≡◌, ◌<◌, length, map, IfOk, OnOk};
ghost use Rattle.go_new_scopes.specs.inner.FileImports.{with_files, with_import, with_imports};
ghost use Rattle.go_sources.specs.UnitSources.{file_of, import_of};
ghost use Rattle.go_typings.specs.Declarations.{is_init};
ghost use Rattle.go_typings.specs.PackageEnvironments.{had_path};

use go_base::memory::NoMemory;
use go_base::text::Text;
use go_rules::env::{DeclareError, Env};
use go_units::unit::{UnitFile, UsedImport};
use std::alloc::Global;

fn is_init(name: &Text) -> bool
    ensures { result ≡ is_init name.now }
{
    name.bytes() == b"init".as_slice()
}

// The path under which an import is had.
fn had_path(alloc: Global, import: &UsedImport) -> Result<Text, NoMemory>
    ensures { IfOk result (λ path. path ≡ had_path (import_of import.now)) }
{
    if import.found {
        import.path.copy()
    } else {
        Text::of(alloc, b"".as_slice())
    }
}

// Adds an import to a file, unless it is named `init` or the file has one of its name.
fn add_import(
    env: &mut Env<'_>,
    alloc: Global,
    file: u32,
    import: &UsedImport,
) -> Result<(), NoMemory>
    ensures { OnOk result (env.new ≡ record env.old { imports = with_import file env.old.imports (import_of import.now) }) }
{
    if is_init(&import.name) {
        return Ok(());
    }
    let name = import.name.copy()?;
    let path = had_path(alloc, import)?;
    match env.import(file, name, path) {
        Ok(()) => Ok(()),
        Err(DeclareError::Already) => Ok(()),
        Err(DeclareError::NoMemory) => Err(NoMemory),
    }
}

fn add_imports(
    env: &mut Env<'_>,
    alloc: Global,
    file: u32,
    imports: &[UsedImport],
) -> Result<(), NoMemory>
    ensures { OnOk result (env.new ≡ record env.old { imports = with_imports file env.old.imports (map import_of imports.now) }) }
{
    for import in imports {
        add_import(env, alloc, file, import)?;
    }
    Ok(())
}

/// Adds the imports of files, which are numbered from 0 on.
pub(crate) fn add_files(
    env: &mut Env<'_>,
    alloc: Global,
    files: &[UnitFile],
) -> Result<(), NoMemory>
    requires { length files.now < 4294967296 }
    ensures { OnOk result (env.new ≡ record env.old { imports = with_files 0 env.old.imports (map file_of files.now) }) }
{
    let mut number = 0u32;
    for file in files {
        add_imports(env, alloc, number, file.imports.items())?;
        number += 1;
    }
    Ok(())
}
