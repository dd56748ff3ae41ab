//! What the worlds make public, and which types are of the module.
ghost use Rattle.std.specs.Prelude.{◌≡◌, IfOk};
ghost use Rattle.std.specs.Ordering.{nat_cmp};
ghost use Rattle.std.specs.Cmp.Lexicographic.{slice_cmp};
ghost use Rattle.go_base.specs.Keys.{item_of};
ghost use Rattle.go_base.specs.Lists.{Has, Ascending};
ghost use Rattle.go_selectors.specs.Answers.{Decides};
ghost use Rattle.api_correspond.specs.OwnedPairs.{are_of_module};
ghost use Rattle.api_correspond.specs.Publics.{of_module, package_at, is_of_module, IsPublic, IsPublicName, qualified};
ghost use Rattle.api_correspond.specs.Rules.{is_sealing};
ghost use Rattle.api_correspond.specs.inner.Names.{IsPublicNameOf};

use go_base::characters::is_exported;
use go_base::memory::NoMemory;
use go_base::text::Text;
use go_model::types::names::{Sel, TypeName};
use go_model::types::package::Package;
use go_model::types::term::Term;
use go_model::types::world::World;
use go_type_images::pair::TypePair;
use std::alloc::Global;
use std::cmp::Ordering;

fn of_module(found: Option<&Package>) -> bool
    ensures { result ≡ of_module (item_of found.entry) }
{
    match found {
        Some(package) => !package.from_std,
        None => false,
    }
}

/// Whether a package of the module has this path.
pub fn has_module_path(world: &World, path: &Text) -> bool
    ensures { result ≡ of_module (package_at world.now path.now) }
{
    of_module(world.package(path.bytes()))
}

/// Whether a type is a defined type of a package of the module.
pub fn is_of_module(world: &World, term: &Term) -> bool
    ensures { result ≡ is_of_module world.now term.now }
{
    match term {
        Term::Named(name) => has_module_path(world, &name.path),
        _ => false,
    }
}

/// Whether both types of a pair are, each of its world's module.
pub fn are_of_module(old: &World, new: &World, pair: &TypePair) -> bool
    ensures { result ≡ are_of_module old.now new.now pair.now }
{
    is_of_module(old, &pair.old) && is_of_module(new, &pair.new)
}

/// Whether no other package can declare a method of this selector.
pub fn is_sealing(world: &World, sel: &Sel) -> bool
    ensures { result ≡ is_sealing world.now sel.now }
{
    has_module_path(world, &sel.package)
}

fn compare(text: &Text, path: &[u8]) -> Ordering
    ensures { result ≡ slice_cmp nat_cmp text.now path.now }
{
    text.bytes().cmp(path)
}

// Whether a path is among texts in order.
fn is_among(texts: &[Text], path: &[u8]) -> bool
    requires { Ascending texts.now }
    ensures { Decides result (Has texts.now path.now) }
{
    let mut low = 0usize;
    let mut high = texts.len();
    while low < high {
        let middle = low + (high - low) / 2;
        let text = &texts[middle];
        match compare(text, path) {
            Ordering::Less => low = middle + 1,
            Ordering::Greater => high = middle,
            Ordering::Equal => return true,
        }
    }
    false
}

/// Whether the package of a path is public.
pub fn is_public(world: &World, path: &[u8]) -> bool
    ensures { Decides result (IsPublic world.now path.now) }
{
    let _packages = world.packages();
    is_among(world.public(), path)
}

fn is_public_name(world: &World, name: &TypeName) -> bool
    ensures { Decides result (IsPublicName world.now name.now) }
{
    if !has_module_path(world, &name.path) {
        return false;
    }
    if !is_exported(name.name.bytes()) {
        return false;
    }
    is_public(world, name.path.bytes())
}

/// The name of a type of the module that a public package declares, exported.
pub fn public_name<'a>(world: &World, term: &'a Term) -> Option<&'a TypeName>
    ensures { IsPublicNameOf world.now term.now result }
{
    match term {
        Term::Named(name) => {
            if is_public_name(world, name) {
                return Some(name);
            }
            None
        }
        _ => None,
    }
}

/// The name of an object with the path of its package.
pub fn qualified(alloc: Global, path: &Text, name: &Text) -> Result<Text, NoMemory>
    ensures { IfOk result (λ text. text ≡ qualified path.now name.now) }
{
    let mut bytes = Vec::new(alloc);
    bytes.extend_from_slice(path.bytes())?;
    bytes.push(b'.')?;
    bytes.extend_from_slice(name.bytes())?;
    Text::from_vec(alloc, bytes)
}
