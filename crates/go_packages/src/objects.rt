//! The objects of a package.
ghost use Rattle.std.specs.Prelude.{◌≡◌, ◌++◌, IfOk, OnOk};
ghost use Rattle.go_base.specs.Keys.{item_of};
ghost use Rattle.go_declarations.specs.Forms.{form_of};
ghost use Rattle.go_declarations.specs.Listings.{declarations_of};
ghost use Rattle.go_declared.specs.NameTables.{texts_of};
ghost use Rattle.go_entries.specs.HadEntries.{entries_at, found_entry};
ghost use Rattle.go_exposed.specs.OfferedPackages.{entered};
ghost use Rattle.go_packages.specs.inner.FoundNames.{ArePlaced, IsPlaced};
ghost use Rattle.go_packages.specs.inner.NamedObjects.{denoted, object_named, objects_named};
ghost use Rattle.go_typings.specs.PackageEnvironments.{entity_by, object_of, own_type};

use crate::found::{FoundName, found};
use go_base::list::List;
use go_base::memory::NoMemory;
use go_base::text::Text;
use go_declarations::form::Form;
use go_declarations::listing::Declaration;
use go_declared::names::ListedName;
use go_entries::entry::Entry;
use go_entries::had::HadEntries;
use go_model::types::names::TypeName;
use go_model::types::package::{Entity, Object};
use go_model::types::term::Term;
use std::alloc::Global;

// The defined type of a name in the package of this path.
fn own_type(path: &Text, name: &Text) -> Result<Entity, NoMemory>
    ensures { IfOk result (λ own. own ≡ Entity.TypeOf (own_type path.now name.now)) }
{
    Ok(Entity::TypeOf(Term::Named(TypeName {
        path: path.copy()?,
        name: name.copy()?,
    })))
}

// The object at a place of an entry.
fn object_in(entry: Option<&Entry>, place: usize) -> Option<&Entity>
    ensures { item_of result ≡ object_of (found_entry entry.entry) place }
{
    match entry {
        Some(Entry::Objects(objects)) => objects.items().get(place),
        _ => None,
    }
}

fn copied(alloc: Global, entity: Option<&Entity>) -> Result<Option<Entity>, NoMemory>
    ensures { IfOk result (λ copied. copied ≡ item_of entity.entry) }
{
    match entity {
        None => Ok(None),
        Some(entity) => {
            let copied = entity.copy(alloc)?;
            Ok(Some(copied))
        }
    }
}

// What a name denotes that is declared there.
fn entity_by(
    alloc: Global,
    path: &Text,
    found: FoundName<'_>,
    had: &HadEntries,
) -> Result<Option<Entity>, NoMemory>
    ensures { IfOk result (λ denoted. denoted ≡ entity_by path.now (entries_at had.now) found.entry.number found.entry.place (form_of found.entry.form)) }
{
    match found.form {
        Form::Definition(spec) => {
            let own = own_type(path, &spec.name.text)?;
            Ok(Some(own))
        }
        _ => copied(alloc, object_in(had.get(found.number), found.place)),
    }
}

// The same, where the declaration has an entry, and else nothing.
fn entered(
    alloc: Global,
    path: &Text,
    found: FoundName<'_>,
    had: &HadEntries,
) -> Result<Option<Entity>, NoMemory>
    ensures { IfOk result (λ denoted. denoted ≡ entered (entries_at had.now found.entry.number) (entity_by path.now (entries_at had.now) found.entry.number found.entry.place (form_of found.entry.form))) }
{
    match had.get(found.number) {
        None => Ok(None),
        Some(_) => entity_by(alloc, path, found, had),
    }
}

// What a name denotes in the package.
fn entity(
    alloc: Global,
    path: &Text,
    declarations: &[Declaration<'_>],
    listed: ListedName<'_>,
    had: &HadEntries,
) -> Result<Option<Entity>, NoMemory>
    requires { IsPlaced (declarations_of declarations.now) listed }
    ensures { IfOk result (λ entity. entity ≡ denoted path.now (entries_at had.now) (declarations_of declarations.now) listed.entry.name.now) }
{
    match found(declarations, listed) {
        None => Ok(None),
        Some(found) => entered(alloc, path, found, had),
    }
}

// Adds the object of a name, where it denotes something.
fn push_object(
    objects: &mut List<Object>,
    name: &Text,
    entity: Option<Entity>,
) -> Result<(), NoMemory>
    ensures { OnOk result (objects.new ≡ objects.old ++ object_named name.now entity) }
{
    match entity {
        None => Ok(()),
        Some(entity) => objects.push(Object {
            name: name.copy()?,
            entity,
        }),
    }
}

/// The objects that these names denote in the package of this path, in their order.
pub(crate) fn objects(
    alloc: Global,
    path: &Text,
    declarations: &[Declaration<'_>],
    listed: &[ListedName<'_>],
    had: &HadEntries,
) -> Result<List<Object>, NoMemory>
    requires { ArePlaced (declarations_of declarations.now) listed.now }
    ensures { IfOk result (λ objects. objects ≡ objects_named (denoted path.now (entries_at had.now) (declarations_of declarations.now)) (texts_of listed.now)) }
{
    let mut objects = List::new(alloc);
    for name in listed {
        let entity = entity(alloc, path, declarations, *name, had)?;
        push_object(&mut objects, name.name, entity)?;
    }
    Ok(objects)
}
