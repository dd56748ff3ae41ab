//! The names that the files of a package declare, the qualifiers of a file, and the imports that these name.
ghost use Rattle.std.specs.Prelude.{◌≡◌, ◌≢◌, ◌++◌, [], ◌∷◌, codes, Some, None, true, false, IfOk, OnOk, IfSome, IfNone, IsTrue, ◌↔◌};
ghost use Rattle.go_base.specs.Lists.{Has};
ghost use Rattle.go_base.specs.Growing.{Grows};
ghost use Rattle.go_imports.specs.UsedImports.{IsNameIn, IsConstName, IsVarName, IsTypeName, IsFuncName, IsDeclaredBy, IsDeclaredIn, IsQualifier, IsQualifierOf, IsQualifierIn, scope_name, IsScopeNameIn, IsScopeName, named_as, AreUsed};
ghost use Rattle.go_imports.specs.InternalUses.{IsInternalImport, IsFirstInternalImport};
ghost use Rattle.go_imports.specs.Answers.{Decides};
ghost use Rattle.go_imports.specs.inner.Uses.{IsConstNameIn, IsVarNameIn, IsTypeNameIn, IsQualifierAmong, ByName, ByPath, Uses};
ghost use Rattle.go_imports.specs.Gives.{optional};
ghost use Rattle.go_imports.specs.UndeclaredUses.{is_undeclared, undeclared};

use crate::import_paths::{assumed_name, is_internal_use};
use crate::text_set::{add_new, add_text, has_text};
use go_base::list::List;
use go_base::memory::NoMemory;
use go_base::text::Text;
use go_references::go_syntax::declaration::{ConstSpec, Decl, Func, TypeSpec, VarSpec};
use go_references::go_syntax::name::Name;
use go_references::references::{Reference, decl_references};
use std::alloc::Global;
use std::collections::BTreeSet;

/// An import of a file.
#[derive(Debug, Drop)]
pub struct Import {
    /// The name that it writes.
    pub written: Option<Text>,
    /// The name in the package clause of what it names, where that says one.
    pub package_name: Option<Text>,
    pub path: Text,
    /// The byte offset of its path's first quote.
    pub place: u32,
}

/// An import that a qualifier of its file names.
#[derive(Debug, Drop)]
pub struct NamedImport {
    /// The qualifier.
    pub name: Text,
    pub path: Text,
    /// The byte offset of its path's first quote.
    pub place: u32,
}

// Adds a name where it is among the asked ones.
fn add_asked(set: &mut BTreeSet<Text>, asked: &BTreeSet<Text>, name: &Text) -> Result<(), NoMemory>
    ensures { OnOk result (Grows (λ x. (name.now ≡ x) × Has asked.now.keys x) set.old.keys set.new.keys) }
{
    if !has_text(asked, name) {
        return Ok(());
    }
    add_text(set, name.copy()?)
}

fn add_names(
    set: &mut BTreeSet<Text>,
    asked: &BTreeSet<Text>,
    names: &[Name],
) -> Result<(), NoMemory>
    ensures { OnOk result (Grows (λ x. IsNameIn names.now x × Has asked.now.keys x) set.old.keys set.new.keys) }
{
    for name in names {
        add_asked(set, asked, &name.text)?;
    }
    Ok(())
}

fn add_consts(
    set: &mut BTreeSet<Text>,
    asked: &BTreeSet<Text>,
    specs: &[ConstSpec],
) -> Result<(), NoMemory>
    ensures { OnOk result (Grows (λ x. IsConstNameIn specs.now x × Has asked.now.keys x) set.old.keys set.new.keys) }
{
    for spec in specs {
        add_names(set, asked, spec.names.items())?;
    }
    Ok(())
}

fn add_vars(
    set: &mut BTreeSet<Text>,
    asked: &BTreeSet<Text>,
    specs: &[VarSpec],
) -> Result<(), NoMemory>
    ensures { OnOk result (Grows (λ x. IsVarNameIn specs.now x × Has asked.now.keys x) set.old.keys set.new.keys) }
{
    for spec in specs {
        add_names(set, asked, spec.names.items())?;
    }
    Ok(())
}

fn add_types(
    set: &mut BTreeSet<Text>,
    asked: &BTreeSet<Text>,
    specs: &[TypeSpec],
) -> Result<(), NoMemory>
    ensures { OnOk result (Grows (λ x. IsTypeNameIn specs.now x × Has asked.now.keys x) set.old.keys set.new.keys) }
{
    for spec in specs {
        add_asked(set, asked, &spec.name.text)?;
    }
    Ok(())
}

fn add_func(set: &mut BTreeSet<Text>, asked: &BTreeSet<Text>, func: &Func) -> Result<(), NoMemory>
    ensures { OnOk result (Grows (λ x. IsFuncName func.now.receiver func.now.name.text x × Has asked.now.keys x) set.old.keys set.new.keys) }
{
    match &func.receiver {
        Some(_) => Ok(()),
        None => add_asked(set, asked, &func.name.text),
    }
}

fn add_decl(set: &mut BTreeSet<Text>, asked: &BTreeSet<Text>, decl: &Decl) -> Result<(), NoMemory>
    ensures { OnOk result (Grows (λ x. IsDeclaredBy decl.now x × Has asked.now.keys x) set.old.keys set.new.keys) }
{
    match decl {
        Decl::ConstGroup(specs) => add_consts(set, asked, specs.items()),
        Decl::VarGroup(specs) => add_vars(set, asked, specs.items()),
        Decl::TypeGroup(specs) => add_types(set, asked, specs.items()),
        Decl::FuncDecl(func) => add_func(set, asked, func.value()),
    }
}

/// Adds those of the asked names that the declarations of a file declare in its package: as constants, variables, types or
/// functions, and not as methods.
pub fn add_declared(
    declared: &mut BTreeSet<Text>,
    asked: &BTreeSet<Text>,
    decls: &[Decl],
) -> Result<(), NoMemory>
    ensures { OnOk result (Grows (λ x. IsDeclaredIn decls.now x × Has asked.now.keys x) declared.old.keys declared.new.keys) }
{
    for decl in decls {
        add_decl(declared, asked, decl)?;
    }
    Ok(())
}

fn is_qualifier(declared: &BTreeSet<Text>, reference: &Reference<'_>) -> bool
    ensures yes { result ≡ true → IsQualifier declared.now.keys reference.now reference.now.name.text }
    ensures no { result ≡ false → IsQualifier declared.now.keys reference.now reference.now.name.text → ⊥ }
{
    if reference.selected.is_none() {
        return false;
    }
    if reference.name.text.bytes() == b"_".as_slice() {
        return false;
    }
    !has_text(declared, &reference.name.text)
}

fn add_reference(
    set: &mut BTreeSet<Text>,
    declared: &BTreeSet<Text>,
    reference: &Reference<'_>,
) -> Result<(), NoMemory>
    ensures { OnOk result (Grows (IsQualifier declared.now.keys reference.now) set.old.keys set.new.keys) }
{
    if reference.selected.is_none() || has_text(set, &reference.name.text) {
        return Ok(());
    }
    if !is_qualifier(declared, reference) {
        return Ok(());
    }
    add_text(set, reference.name.text.copy()?)
}

fn add_references(
    set: &mut BTreeSet<Text>,
    declared: &BTreeSet<Text>,
    references: &[Reference<'_>],
) -> Result<(), NoMemory>
    ensures { OnOk result (Grows (IsQualifierAmong declared.now.keys references.now) set.old.keys set.new.keys) }
{
    for reference in references {
        add_reference(set, declared, reference)?;
    }
    Ok(())
}

fn add_qualifiers(
    alloc: Global,
    set: &mut BTreeSet<Text>,
    declared: &BTreeSet<Text>,
    decl: &Decl,
) -> Result<(), NoMemory>
    ensures { OnOk result (Grows (IsQualifierOf declared.now.keys decl.now) set.old.keys set.new.keys) }
{
    let references = decl_references(alloc, decl)?;
    add_references(set, declared, references.items())
}

/// The qualifiers of a file's declarations: the names that stand as `name.X` outside of bodies, where the package doesn't
/// declare the name.
pub fn qualifiers(
    alloc: Global,
    declared: &BTreeSet<Text>,
    decls: &[Decl],
) -> Result<BTreeSet<Text>, NoMemory>
    ensures { IfOk result (λ set. Grows (IsQualifierIn declared.now.keys decls.now) [] set.keys) }
{
    let mut set = BTreeSet::new(alloc);
    for decl in decls {
        add_qualifiers(alloc, &mut set, declared, decl)?;
    }
    Ok(set)
}

fn scope_name(import: &Import) -> Option<&Text>
    ensures some { IfSome result (λ name. scope_name import.now ≡ Some name.now) }
    ensures none { IfNone result (scope_name import.now ≡ None) }
{
    match &import.written {
        Some(written) => Some(written),
        None => match &import.package_name {
            Some(name) => Some(name),
            None => None,
        },
    }
}

fn add_scope_name(set: &mut BTreeSet<Text>, import: &Import) -> Result<(), NoMemory>
    ensures { OnOk result (Grows (IsScopeName import.now) set.old.keys set.new.keys) }
{
    match scope_name(import) {
        Some(name) => add_text(set, name.copy()?),
        None => Ok(()),
    }
}

fn scope_names(alloc: Global, imports: &[Import]) -> Result<BTreeSet<Text>, NoMemory>
    ensures { IfOk result (λ set. Grows (IsScopeNameIn imports.now) [] set.keys) }
{
    let mut set = BTreeSet::new(alloc);
    for import in imports {
        add_scope_name(&mut set, import)?;
    }
    Ok(set)
}

fn named_as(alloc: Global, name: &[u8], import: &Import) -> Result<NamedImport, NoMemory>
    ensures { IfOk result (λ named. named ≡ named_as name.now import.now) }
{
    Ok(NamedImport {
        name: Text::of(alloc, name)?,
        path: import.path.copy()?,
        place: import.place,
    })
}

// An import that has a name in the file's scope.
fn use_by_name(
    alloc: Global,
    qualifiers: &BTreeSet<Text>,
    name: &Text,
    import: &Import,
) -> Result<Option<NamedImport>, NoMemory>
    requires { scope_name import.now ≡ Some name.now }
    ensures { IfOk result (ByName qualifiers.now.keys import.now) }
{
    if !has_text(qualifiers, name) {
        return Ok(None);
    }
    Ok(Some(named_as(alloc, name.bytes(), import)?))
}

// An import that has none: the names that are taken are those in the file's scope, and the assumed names of
// earlier such imports.
fn use_by_path(
    alloc: Global,
    qualifiers: &BTreeSet<Text>,
    taken: &mut BTreeSet<Text>,
    import: &Import,
) -> Result<Option<NamedImport>, NoMemory>
    requires { scope_name import.now ≡ None }
    ensures { IfOk result (ByPath qualifiers.now.keys taken.old.keys taken.new.keys import.now) }
{
    let name = Text::of(alloc, assumed_name(import.path.bytes()))?;
    if !add_new(alloc, taken, name.bytes())? {
        return Ok(None);
    }
    if !has_text(qualifiers, &name) {
        return Ok(None);
    }
    Ok(Some(named_as(alloc, name.bytes(), import)?))
}

fn use_of(
    alloc: Global,
    qualifiers: &BTreeSet<Text>,
    taken: &mut BTreeSet<Text>,
    import: &Import,
) -> Result<Option<NamedImport>, NoMemory>
    ensures { IfOk result (Uses qualifiers.now.keys taken.old.keys taken.new.keys import.now) }
{
    match scope_name(import) {
        Some(name) => use_by_name(alloc, qualifiers, name, import),
        None => use_by_path(alloc, qualifiers, taken, import),
    }
}

fn add_use(uses: &mut List<NamedImport>, found: Option<NamedImport>) -> Result<(), NoMemory>
    ensures { OnOk result (uses.new ≡ uses.old ++ optional found) }
{
    match found {
        None => Ok(()),
        Some(found) => uses.push(found),
    }
}

/// The imports of a file that the qualifiers of its declarations name, in their order, each with the qualifier. A qualifier
/// names each import that has it as its name in the file's scope, the one that it writes or else the one in the package
/// clause of what it names. Where no import has that name, it names the first import without a name of either kind whose
/// path has it as its assumed name ([`assumed_name`]).
pub fn used_imports(
    alloc: Global,
    imports: &[Import],
    qualifiers: &BTreeSet<Text>,
) -> Result<List<NamedImport>, NoMemory>
    ensures { IfOk result (AreUsed imports.now qualifiers.now.keys imports.now) }
{
    let mut taken = scope_names(alloc, imports)?;
    let mut uses = List::new(alloc);
    for import in imports {
        let found = use_of(alloc, qualifiers, &mut taken, import)?;
        add_use(&mut uses, found)?;
    }
    Ok(uses)
}

fn is_undeclared(declared: &BTreeSet<Text>, import: &NamedImport) -> bool
    ensures { result ≡ is_undeclared declared.now.keys import.now }
{
    !declared.contains(&import.name)
}

fn unless_declared(
    declared: &BTreeSet<Text>,
    import: &NamedImport,
) -> Result<Option<NamedImport>, NoMemory>
    ensures { IfOk result (λ left. undeclared declared.now.keys (import.now ∷ []) ≡ optional left) }
{
    if !is_undeclared(declared, import) {
        return Ok(None);
    }
    Ok(Some(NamedImport {
        name: import.name.copy()?,
        path: import.path.copy()?,
        place: import.place,
    }))
}

/// The used imports that aren't named as one of these declared names, in their order.
pub fn undeclared(
    alloc: Global,
    declared: &BTreeSet<Text>,
    uses: &[NamedImport],
) -> Result<List<NamedImport>, NoMemory>
    ensures { IfOk result (λ left. left ≡ undeclared declared.now.keys uses.now) }
{
    let mut left = List::new(alloc);
    for import in uses {
        let found = unless_declared(declared, import)?;
        add_use(&mut left, found)?;
    }
    Ok(left)
}

fn is_internal_import(importer: &[u8], from_std: bool, import: &NamedImport) -> bool
    ensures { Decides result (IsInternalImport importer.now from_std import.now) }
{
    is_internal_use(importer, from_std, import.path.bytes())
}

/// The place of the first used import of a file that its package may not import, since it lies in a directory `internal`
/// of others ([`is_internal_use`]); `None` where there is none.
pub fn first_internal(importer: &[u8], from_std: bool, uses: &[NamedImport]) -> Option<u32>
    ensures { IsFirstInternalImport importer.now from_std uses.now result }
{
    for import in uses {
        if is_internal_import(importer, from_std, import) {
            return Some(import.place);
        }
    }
    None
}
