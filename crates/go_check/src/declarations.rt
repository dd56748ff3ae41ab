//! The declarations of a package, file by file.
ghost use Rattle.std.specs.Prelude.{◌≡◌, ◌++◌, ◌<◌, length, map, IfOk, OnOk};
ghost use Rattle.go_declarations.specs.Listings.{declarations_of};
ghost use Rattle.go_sources.specs.UnitSources.{file_of, source_of};
ghost use Rattle.go_typings.specs.Declarations.{declarations, declarations_from};

use go_base::list::List;
use go_base::memory::NoMemory;
use go_declarations::listing::{Declaration, push_file};
use go_units::unit::{Unit, UnitFile};
use std::alloc::Global;

// Adds the declarations of files, which are numbered from 0 on.
fn push_files<'a>(listed: &mut List<Declaration<'a>>, files: &'a [UnitFile]) -> Result<(), NoMemory>
    requires { length files.now < 4294967296 }
    ensures { OnOk result (declarations_of listed.new ≡ declarations_of listed.old ++ declarations_from 0 (map file_of files.now)) }
{
    for file in 0..files.len() {
        push_file(
            listed,
            file as u32,
            files[file].outline.value().decls.items(),
        )?;
    }
    Ok(())
}

/// The declarations of a package, in the order of its files and then of their places.
pub fn declarations_in<'a>(alloc: Global, unit: &'a Unit) -> Result<List<Declaration<'a>>, NoMemory>
    ensures { IfOk result (λ listed. declarations_of listed ≡ declarations (source_of unit.now)) }
{
    let mut listed = List::new(alloc);
    push_files(&mut listed, unit.files.items())?;
    Ok(listed)
}
