//! Small worlds, of which each relation is asked once. The relations over a table, as which a world is asked,
//! are the program `relations`.
ghost use Rattle.std.specs.Prelude.{◌≡◌, ◌∷◌, [], IfOk};
ghost use Rattle.go_model.specs.worlds.Worlds.{IsWorld, type_object};
ghost use Rattle.go_types_tests.specs.Examples.{channels, package_of, two_packages, type_of, world_of};

use crate::terms::{any, channel, exported, named, with_field};
use go_base::list::List;
use go_base::memory::NoMemory;
use go_base::shared::Shared;
use go_base::text::Text;
use go_model::constants::value::Basic;
use go_model::types::found::Found;
use go_model::types::names::TypeName;
use go_model::types::package::{Defined, Entity, Object, Package};
use go_model::types::term::{Direction, Term};
use go_model::types::world::World;
use go_selectors::method_sets::method_set;
use go_selectors::selectors::find;
use go_types::assignability::assignable;
use go_types::comparison::comparable;
use go_types::conversions::convertible;
use go_types::implementing::implements;
use std::alloc::Global;
use std::test::Fail;

fn one<T: Drop>(alloc: Global, item: T) -> Result<List<T>, NoMemory>
    ensures { IfOk result (λ items. items ≡ item ∷ []) }
{
    let mut items = List::new(alloc);
    items.push(item)?;
    Ok(items)
}

fn plain_type(alloc: Global, name: &[u8], underlying: Term) -> Result<Defined, NoMemory>
    ensures { IfOk result (λ defined. defined ≡ type_of name.now underlying []) }
{
    Ok(Defined {
        name: Text::of(alloc, name)?,
        underlying,
        methods: List::new(alloc),
    })
}

fn type_object(alloc: Global, path: &[u8], name: &[u8]) -> Result<Object, NoMemory>
    ensures { IfOk result (λ object. object ≡ type_object path.now name.now) }
{
    let named = TypeName {
        path: Text::of(alloc, path)?,
        name: Text::of(alloc, name)?,
    };
    Ok(Object {
        name: Text::of(alloc, name)?,
        entity: Entity::TypeOf(Term::Named(named)),
    })
}

fn package_of(alloc: Global, path: &[u8], types: List<Defined>) -> Result<Package, NoMemory>
    ensures { IfOk result (λ made. made ≡ package_of path.now types) }
{
    let mut objects = List::new(alloc);
    for defined in types.items() {
        objects.push(type_object(alloc, path, defined.name.bytes())?)?;
    }
    Ok(Package {
        path: Text::of(alloc, path)?,
        name: Text::of(alloc, b"p")?,
        from_std: false,
        objects: Shared::new(alloc, objects)?,
        defined: Shared::new(alloc, types)?,
    })
}

/// The world of one package, which isn't public.
fn world_of(alloc: Global, package: Package) -> Result<World, NoMemory>
    requires { IsWorld (world_of «package») }
    ensures { IfOk result (λ made. made ≡ world_of «package») }
{
    let mut world = World::empty(alloc);
    world.add(package, false)?;
    Ok(world)
}

#[tactic(auto, unfolding(crate::specs::Examples::channels))]
fn channels(alloc: Global) -> Result<Package, NoMemory>
    ensures { IfOk result (λ made. made ≡ channels) }
{
    let element = Shared::new(alloc, Term::Plain(Basic::Int))?;
    let channel = Term::Chan(Direction::ReceiveOnly, element);
    let types = one(alloc, plain_type(alloc, b"D", channel)?)?;
    package_of(alloc, b"m/p", types)
}

fn channels_world(alloc: Global) -> Result<World, NoMemory> {
    let package = channels(alloc)?;
    world_of(alloc, package)
}

// Two packages without types, which are added in descending order of their paths.
#[tactic(auto, unfolding(crate::specs::Examples::two_packages))]
fn two_packages(alloc: Global) -> Result<World, NoMemory>
    ensures { IfOk result (λ made. made ≡ two_packages) }
{
    let mut world = World::empty(alloc);
    let later = package_of(alloc, b"m/b", List::new(alloc))?;
    world.add(later, true)?;
    let earlier = package_of(alloc, b"m/a", List::new(alloc))?;
    world.add(earlier, false)?;
    Ok(world)
}

fn assigns(alloc: Global, world: &World) -> Result<bool, NoMemory> {
    let from = channel(alloc)?;
    let to = named(alloc, b"D")?;
    assignable(alloc, world, from.value(), to.value(), false)
}

fn converts(alloc: Global, world: &World) -> Result<bool, NoMemory> {
    let from = channel(alloc)?;
    let to = named(alloc, b"D")?;
    convertible(alloc, world, from.value(), to.value(), true)
}

fn implements_any(alloc: Global, world: &World) -> Result<bool, NoMemory> {
    let implementing = named(alloc, b"D")?;
    let interface = any(alloc)?;
    implements(alloc, world, implementing.value(), interface.value())
}

fn compares(alloc: Global, world: &World) -> Result<bool, NoMemory> {
    let compared = named(alloc, b"D")?;
    comparable(alloc, world, compared.value())
}

fn finds_a_field(alloc: Global, world: &World) -> Result<bool, NoMemory> {
    let searched = with_field(alloc)?;
    let selector = exported(alloc, b"X")?;
    let found = find(alloc, world, searched.value(), &selector)?;
    Ok(matches!(&found, Found::FieldAt(_)))
}

fn has_no_method(alloc: Global, world: &World) -> Result<bool, NoMemory> {
    let term = named(alloc, b"D")?;
    let methods = method_set(alloc, world, term.value())?;
    Ok(methods.items().is_empty())
}

#[test]
fn answers_in_a_world(rt: HostRuntime) -> Result<(), Fail> {
    let alloc = rt.alloc();
    let world = channels_world(alloc)?;
    assert!(rt; assigns(alloc, &world)?);
    assert!(rt; converts(alloc, &world)?);
    assert!(rt; implements_any(alloc, &world)?);
    assert!(rt; compares(alloc, &world)?);
    assert!(rt; finds_a_field(alloc, &world)?);
    assert!(rt; has_no_method(alloc, &world)?);
    Ok(())
}

#[test]
fn orders_packages_by_path(rt: HostRuntime) -> Result<(), Fail> {
    let world = two_packages(rt.alloc())?;
    let ordered = match world.packages() {
        [first, second] => first.path.bytes() == b"m/a".as_slice()
            && second.path.bytes() == b"m/b".as_slice(),
        _ => false,
    };
    assert!(rt; ordered);
    let only = match world.public() {
        [path] => path.bytes() == b"m/b".as_slice(),
        _ => false,
    };
    assert!(rt; only);
    Ok(())
}
