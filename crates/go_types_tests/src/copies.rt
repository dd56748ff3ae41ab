//! Copies of packages.
use crate::terms::{exported, of_every_form, taking_int};
use go_base::list::List;
use go_base::memory::NoMemory;
use go_base::shared::Shared;
use go_base::text::Text;
use go_model::constants::value::{Untyped, Value};
use go_model::types::package::{ConstTerm, Defined, Entity, MethodOf, Object, Package};
use std::alloc::Global;
use std::test::Fail;

fn add(
    alloc: Global,
    objects: &mut List<Object>,
    name: &[u8],
    entity: Entity,
) -> Result<(), NoMemory> {
    let name = Text::of(alloc, name)?;
    objects.push(Object { name, entity })
}

fn add_constants(alloc: Global, objects: &mut List<Object>) -> Result<(), NoMemory> {
    let term = of_every_form(alloc)?.value().copy(alloc)?;
    let number = Entity::Const(ConstTerm::OfTerm(term), Value::Int(1));
    add(alloc, objects, b"A", number)?;
    let text = Value::Str(Text::of(alloc, b"text")?);
    let text = Entity::Const(ConstTerm::OfKind(Untyped::StrKind), text);
    add(alloc, objects, b"B", text)?;
    let truth = Entity::Const(ConstTerm::OfKind(Untyped::BoolKind), Value::Truth(true));
    add(alloc, objects, b"C", truth)
}

fn add_others(alloc: Global, objects: &mut List<Object>) -> Result<(), NoMemory> {
    let variable = Entity::Var(of_every_form(alloc)?.value().copy(alloc)?);
    add(alloc, objects, b"D", variable)?;
    let function = Entity::Function(taking_int(alloc)?);
    add(alloc, objects, b"E", function)?;
    let alias = Entity::TypeOf(of_every_form(alloc)?.value().copy(alloc)?);
    add(alloc, objects, b"F", alias)
}

fn with_method(alloc: Global) -> Result<Defined, NoMemory> {
    let mut methods = List::new(alloc);
    methods.push(MethodOf {
        sel: exported(alloc, b"M")?,
        pointer: true,
        signature: taking_int(alloc)?,
    })?;
    Ok(Defined {
        name: Text::of(alloc, b"G")?,
        underlying: of_every_form(alloc)?.value().copy(alloc)?,
        methods,
    })
}

fn package(alloc: Global) -> Result<Package, NoMemory> {
    let mut objects = List::new(alloc);
    add_constants(alloc, &mut objects)?;
    add_others(alloc, &mut objects)?;
    let mut defined = List::new(alloc);
    defined.push(with_method(alloc)?)?;
    Ok(Package {
        path: Text::of(alloc, b"m/p")?,
        name: Text::of(alloc, b"p")?,
        from_std: true,
        objects: Shared::new(alloc, objects)?,
        defined: Shared::new(alloc, defined)?,
    })
}

// How many objects, defined types and methods a copy of the package has, when it is shared.
fn counts(alloc: Global) -> Result<(usize, usize, usize), NoMemory> {
    let copied = package(alloc)?.copy(alloc)?.share(alloc)?;
    let mut methods = 0usize;
    for defined in copied.defined.items() {
        methods = methods.saturating_add(defined.methods.items().len());
    }
    Ok((
        copied.objects.items().len(),
        copied.defined.items().len(),
        methods,
    ))
}

#[test]
fn copies_a_package_with_every_kind_of_object(rt: HostRuntime) -> Result<(), Fail> {
    assert_eq!(rt; counts(rt.alloc())?, (6, 1, 1));
    Ok(())
}
