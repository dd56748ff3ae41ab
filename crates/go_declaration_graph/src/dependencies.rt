//! On which others the declarations of a package depend.
ghost use Rattle.std.specs.Prelude.{◌≡◌, IfOk};
ghost use Rattle.go_declaration_graph.specs.inner.DependencyRows.{HasDependencies};
ghost use Rattle.go_declaration_graph.specs.inner.NamedNumbers.{dependencies};
ghost use Rattle.go_declarations.specs.Forms.{form_of};
ghost use Rattle.go_declarations.specs.Listings.{declarations_of};
ghost use Rattle.go_declared.specs.PackageTables.{AreTables};
ghost use Rattle.go_sifting.specs.Graphs.{AreRows};
ghost use Rattle.go_soundness.specs.LostDeclarations.{Depends};
ghost use Rattle.go_typings.specs.Declarations.{declarations as declarations_in};
ghost use Rattle.go_typings.specs.PackageEnvironments.{Entries};
ghost use Rattle.go_typings.specs.Sources.{PackageSource, Setting};

use crate::references::all_references;
use crate::rows::depends_by;
use go_base::list::List;
use go_base::memory::NoMemory;
use go_declarations::form::Form;
use go_declarations::listing::Declaration;
use go_declared::methods::DeclaredMethods;
use go_declared::names::DeclaredNames;
use go_declared::package::PackageTables;
use std::alloc::Global;

fn dependencies_of(
    alloc: Global,
    names: &DeclaredNames,
    methods: &DeclaredMethods,
    form: Form<'_>,
) -> Result<List<u32>, NoMemory>
    ensures { IfOk result (λ row. row ≡ dependencies names.now methods.now (form_of form.entry)) }
{
    let references = all_references(alloc, form)?;
    depends_by(alloc, names, methods, form, references.items())
}

fn rows_of(
    alloc: Global,
    names: &DeclaredNames,
    methods: &DeclaredMethods,
    declarations: &[Declaration<'_>],
) -> Result<List<List<u32>>, NoMemory>
    ensures { IfOk result (HasDependencies names.now methods.now (declarations_of declarations.now)) }
{
    let mut rows = List::new(alloc);
    for declaration in declarations {
        let row = dependencies_of(alloc, names, methods, declaration.form)?;
        rows.push(row)?;
    }
    Ok(rows)
}

/// For each declaration of a package, by number, those on which it depends, told from the names in it alone: the ones of these names and,
/// for a defined type, those of its methods. For numbers past 32 bits there is no memory.
pub fn dependencies(alloc: Global, tables: &PackageTables<'_>) -> Result<List<List<u32>>, NoMemory>
    requires { AreTables tables.now }
    ensures { (s : Setting) (u : PackageSource) (a : Entries) → declarations_in u ≡ declarations_of tables.now.declarations.now → IfOk result (AreRows s u a (Depends s u a)) }
{
    rows_of(alloc, tables.names, tables.methods, tables.declarations)
}
