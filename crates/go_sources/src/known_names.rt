//! The names that were declared so far, by what they were declared as.
ghost use Rattle.std.specs.Prelude.{◌≡◌, [], Decides, IfOk};
ghost use Rattle.go_base.specs.Lists.{Has};
ghost use Rattle.go_base.specs.Growing.{Adds};
ghost use Rattle.go_typings.specs.Redeclarations.{of_import, of_package, of_receiver, site};
ghost use Rattle.go_sources.specs.inner.KnownNames.{all_files, key, keys_of, one_file, one_package, one_receiver, role_of, Declares, Steps};

use go_base::memory::NoMemory;
use go_base::text::Text;
use go_syntax::name::Place;
use go_typings::go_rules::blank::is_blank;
use std::alloc::Global;
use std::collections::BTreeSet;

/// The name of an import in a file.
#[derive(PartialEq, Eq, PartialOrd, Ord, Clone, Copy)]
pub(crate) struct ImportName<'a> {
    /// The number of the file.
    pub file: u32,
    pub name: &'a Text,
}

/// The name of a method of a type.
#[derive(PartialEq, Eq, PartialOrd, Ord, Clone, Copy)]
pub(crate) struct MethodName<'a> {
    pub receiver: &'a Text,
    pub name: &'a Text,
}

/// The names that were declared, block by block.
#[derive(Drop)]
pub(crate) struct KnownNames<'a> {
    pub imports: BTreeSet<ImportName<'a>>,
    /// The names of the imports of all files.
    pub imported: BTreeSet<&'a Text>,
    pub objects: BTreeSet<&'a Text>,
    pub methods: BTreeSet<MethodName<'a>>,
}

/// What a name is declared as.
#[derive(Clone, Copy)]
pub(crate) enum NameRole<'a> {
    /// An import of the file of this number.
    Import(u32),
    /// An object of the package.
    Package,
    /// A method of the receiver of this name.
    Method(&'a Text),
}

/// No names.
pub(crate) fn no_names<'a>(alloc: Global) -> KnownNames<'a>
    ensures { keys_of result ≡ [] }
{
    KnownNames {
        imports: BTreeSet::new(alloc),
        imported: BTreeSet::new(alloc),
        objects: BTreeSet::new(alloc),
        methods: BTreeSet::new(alloc),
    }
}

fn add_import<'a>(known: &mut KnownNames<'a>, file: u32, name: &'a Text) -> Result<bool, NoMemory>
    ensures { IfOk result (Adds (keys_of known.old) (key (one_file file) name.now) (keys_of known.new)) }
{
    let is_new = known.imports.insert(ImportName { file, name })?;
    Ok(is_new)
}

fn add_imported<'a>(known: &mut KnownNames<'a>, name: &'a Text) -> Result<bool, NoMemory>
    ensures { IfOk result (Adds (keys_of known.old) (key all_files name.now) (keys_of known.new)) }
{
    let is_new = known.imported.insert(name)?;
    Ok(is_new)
}

fn add_object<'a>(known: &mut KnownNames<'a>, name: &'a Text) -> Result<bool, NoMemory>
    ensures { IfOk result (Adds (keys_of known.old) (key one_package name.now) (keys_of known.new)) }
{
    let is_new = known.objects.insert(name)?;
    Ok(is_new)
}

fn add_method<'a>(
    known: &mut KnownNames<'a>,
    receiver: &'a Text,
    name: &'a Text,
) -> Result<bool, NoMemory>
    ensures { IfOk result (Adds (keys_of known.old) (key (one_receiver receiver.now) name.now) (keys_of known.new)) }
{
    let is_new = known.methods.insert(MethodName { receiver, name })?;
    Ok(is_new)
}

fn is_imported<'a>(known: &KnownNames<'a>, name: &'a Text) -> bool
    ensures { Decides result (Has (keys_of known.now) (key all_files name.now)) }
{
    known.imported.contains(&name)
}

fn is_object<'a>(known: &KnownNames<'a>, name: &'a Text) -> bool
    ensures { Decides result (Has (keys_of known.now) (key one_package name.now)) }
{
    known.objects.contains(&name)
}

fn declare_import<'a>(
    known: &mut KnownNames<'a>,
    file: u32,
    name: &'a Text,
) -> Result<bool, NoMemory>
    ensures { IfOk result (Declares name.now (of_import file) (keys_of known.old) (keys_of known.new)) }
{
    let has_name = !name.bytes().is_empty();
    if has_name && is_object(known, name) {
        return Ok(false);
    }
    let is_new = add_import(known, file, name)?;
    if has_name && !is_new {
        return Ok(false);
    }
    add_imported(known, name)?;
    Ok(true)
}

fn declare_object<'a>(known: &mut KnownNames<'a>, name: &'a Text) -> Result<bool, NoMemory>
    ensures { IfOk result (Declares name.now of_package (keys_of known.old) (keys_of known.new)) }
{
    let has_name = !name.bytes().is_empty();
    if has_name && is_imported(known, name) {
        return Ok(false);
    }
    let is_new = add_object(known, name)?;
    Ok(is_new || name.bytes() == b"init".as_slice())
}

fn declare_method<'a>(
    known: &mut KnownNames<'a>,
    receiver: &'a Text,
    name: &'a Text,
) -> Result<bool, NoMemory>
    ensures { IfOk result (Declares name.now (of_receiver receiver.now) (keys_of known.old) (keys_of known.new)) }
{
    add_method(known, receiver, name)
}

// Notes a name, unless it can't be declared so beside those that were.
fn declare<'a>(
    known: &mut KnownNames<'a>,
    role: NameRole<'a>,
    name: &'a Text,
) -> Result<bool, NoMemory>
    ensures { IfOk result (Declares name.now (role_of role.entry) (keys_of known.old) (keys_of known.new)) }
{
    match role {
        NameRole::Import(file) => declare_import(known, file, name),
        NameRole::Package => declare_object(known, name),
        NameRole::Method(receiver) => declare_method(known, receiver, name),
    }
}

/// Notes a name, unless it is blank, and tells its place where it was declared before.
pub(crate) fn visit<'a>(
    known: &mut KnownNames<'a>,
    place: Place,
    role: NameRole<'a>,
    name: &'a Text,
) -> Result<Option<Place>, NoMemory>
    ensures { IfOk result (Steps (site place.file place.offset name.now (role_of role.entry)) (keys_of known.old) (keys_of known.new)) }
{
    if is_blank(name.bytes()) {
        return Ok(None);
    }
    let is_free = declare(known, role, name)?;
    if is_free { Ok(None) } else { Ok(Some(place)) }
}
