//! The first name of a package that was declared before.
ghost use Rattle.std.specs.Prelude.{◌≡◌, IfOk, IfSome, IfNone};
ghost use Rattle.go_base.specs.Gathered.{gather};
ghost use Rattle.go_syntax.specs.declared.name.Place.{Place};
ghost use Rattle.go_typings.specs.Redeclarations.{form_sites, import_site, method_site, name_site, IsRedeclared};
ghost use Rattle.go_typings.specs.Declarations.{func_form};
ghost use Rattle.go_sources.specs.UnitSources.{import_of, source_of};
ghost use Rattle.go_sources.specs.inner.DeclarationSites.{const_sites, decl_sites, type_sites, unit_file_sites, var_sites};
ghost use Rattle.go_sources.specs.inner.KnownNames.{keys_of, Steps};
ghost use Rattle.go_declared.specs.ReceiverNames.{text_of};

use crate::known_names::{KnownNames, NameRole, no_names, visit};
use go_base::memory::NoMemory;
use go_base::text::Text;
use go_declared::receivers::receiver_name;
use go_syntax::declaration::{ConstSpec, Decl, Func, TypeSpec, VarSpec};
use go_syntax::name::{Name, Place};
use go_units::unit::{Unit, UnitFile, UsedImport};
use std::alloc::Global;

fn import<'a>(
    known: &mut KnownNames<'a>,
    file: u32,
    import: &'a UsedImport,
) -> Result<Option<Place>, NoMemory>
    ensures { IfOk result (Steps (import_site file (import_of import.now)) (keys_of known.old) (keys_of known.new)) }
{
    let place = Place {
        file,
        offset: import.place,
    };
    visit(known, place, NameRole::Import(file), &import.name)
}

fn imports<'a>(
    known: &mut KnownNames<'a>,
    file: u32,
    imports: &'a [UsedImport],
) -> Result<Option<Place>, NoMemory>
    ensures { IfOk result (Steps (gather (λ i. import_site file (import_of i)) imports.now) (keys_of known.old) (keys_of known.new)) }
{
    for used in imports {
        let found = import(known, file, used)?;
        match found {
            None => {}
            Some(place) => return Ok(Some(place)),
        }
    }
    Ok(None)
}

fn object<'a>(
    known: &mut KnownNames<'a>,
    file: u32,
    name: &'a Name,
) -> Result<Option<Place>, NoMemory>
    ensures { IfOk result (Steps (name_site file name.now) (keys_of known.old) (keys_of known.new)) }
{
    let place = Place {
        file,
        offset: name.place,
    };
    visit(known, place, NameRole::Package, &name.text)
}

fn objects<'a>(
    known: &mut KnownNames<'a>,
    file: u32,
    names: &'a [Name],
) -> Result<Option<Place>, NoMemory>
    ensures { IfOk result (Steps (gather (name_site file) names.now) (keys_of known.old) (keys_of known.new)) }
{
    for name in names {
        let found = object(known, file, name)?;
        match found {
            None => {}
            Some(place) => return Ok(Some(place)),
        }
    }
    Ok(None)
}

fn constants<'a>(
    known: &mut KnownNames<'a>,
    file: u32,
    specs: &'a [ConstSpec],
) -> Result<Option<Place>, NoMemory>
    ensures { IfOk result (Steps (gather (const_sites file) specs.now) (keys_of known.old) (keys_of known.new)) }
{
    for spec in specs {
        let found = objects(known, file, spec.names.items())?;
        match found {
            None => {}
            Some(place) => return Ok(Some(place)),
        }
    }
    Ok(None)
}

fn variables<'a>(
    known: &mut KnownNames<'a>,
    file: u32,
    specs: &'a [VarSpec],
) -> Result<Option<Place>, NoMemory>
    ensures { IfOk result (Steps (gather (var_sites file) specs.now) (keys_of known.old) (keys_of known.new)) }
{
    for spec in specs {
        let found = objects(known, file, spec.names.items())?;
        match found {
            None => {}
            Some(place) => return Ok(Some(place)),
        }
    }
    Ok(None)
}

fn types<'a>(
    known: &mut KnownNames<'a>,
    file: u32,
    specs: &'a [TypeSpec],
) -> Result<Option<Place>, NoMemory>
    ensures { IfOk result (Steps (gather (type_sites file) specs.now) (keys_of known.old) (keys_of known.new)) }
{
    for spec in specs {
        let found = object(known, file, &spec.name)?;
        match found {
            None => {}
            Some(place) => return Ok(Some(place)),
        }
    }
    Ok(None)
}

fn method<'a>(
    known: &mut KnownNames<'a>,
    file: u32,
    receiver: Option<&'a Text>,
    name: &'a Name,
) -> Result<Option<Place>, NoMemory>
    ensures { IfOk result (Steps (method_site file (text_of receiver.entry) name.now) (keys_of known.old) (keys_of known.new)) }
{
    match receiver {
        None => Ok(None),
        Some(receiver) => {
            let place = Place {
                file,
                offset: name.place,
            };
            visit(known, place, NameRole::Method(receiver), &name.text)
        }
    }
}

fn function<'a>(
    known: &mut KnownNames<'a>,
    file: u32,
    func: &'a Func,
) -> Result<Option<Place>, NoMemory>
    ensures { IfOk result (Steps (form_sites file (func_form func.now.receiver func.now)) (keys_of known.old) (keys_of known.new)) }
{
    match &func.receiver {
        None => object(known, file, &func.name),
        Some(receiver) => method(known, file, receiver_name(receiver), &func.name),
    }
}

fn declaration<'a>(
    known: &mut KnownNames<'a>,
    file: u32,
    decl: &'a Decl,
) -> Result<Option<Place>, NoMemory>
    ensures { IfOk result (Steps (decl_sites file decl.now) (keys_of known.old) (keys_of known.new)) }
{
    match decl {
        Decl::ConstGroup(specs) => constants(known, file, specs.items()),
        Decl::VarGroup(specs) => variables(known, file, specs.items()),
        Decl::TypeGroup(specs) => types(known, file, specs.items()),
        Decl::FuncDecl(func) => function(known, file, func.value()),
    }
}

fn declarations<'a>(
    known: &mut KnownNames<'a>,
    file: u32,
    decls: &'a [Decl],
) -> Result<Option<Place>, NoMemory>
    ensures { IfOk result (Steps (gather (decl_sites file) decls.now) (keys_of known.old) (keys_of known.new)) }
{
    for decl in decls {
        let found = declaration(known, file, decl)?;
        match found {
            None => {}
            Some(place) => return Ok(Some(place)),
        }
    }
    Ok(None)
}

fn names_of_file<'a>(
    known: &mut KnownNames<'a>,
    number: u32,
    file: &'a UnitFile,
) -> Result<Option<Place>, NoMemory>
    ensures { IfOk result (Steps (unit_file_sites number file.now) (keys_of known.old) (keys_of known.new)) }
{
    let found = imports(known, number, file.imports.items())?;
    match found {
        None => {}
        Some(place) => return Ok(Some(place)),
    }
    declarations(known, number, file.outline.value().decls.items())
}

/// The place of the first name, file by file and in each the imports before the declarations, that the package declared
/// before; None where it declares none twice.
pub fn redeclared(alloc: Global, unit: &Unit) -> Result<Option<Place>, NoMemory>
    ensures some { IfOk result (λ found. IfSome found (IsRedeclared (source_of unit.now))) }
    ensures none { IfOk result (λ found. IfNone found ((p : Place) → IsRedeclared (source_of unit.now) p → ⊥)) }
{
    let mut known = no_names(alloc);
    let mut number = 0u32;
    for file in unit.files.items() {
        let found = names_of_file(&mut known, number, file)?;
        match found {
            None => {}
            Some(place) => return Ok(Some(place)),
        }
        number += 1;
    }
    Ok(None)
}
