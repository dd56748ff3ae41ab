//! The pairs of sealed interfaces, found by one of the methods that seal them.
ghost use Rattle.std.specs.Prelude.{◌≡◌, length, IfOk, OnOk};
ghost use Rattle.go_model.specs.types.Terms.{error_type};
ghost use Rattle.api_further_breaks.specs.inner.Sealed.{FirstSealing, AddsSealed, HoldSealed};

use api_correspond::by_sel::add_place;
use api_correspond::levels::{is_interface, methods_of, under};
use api_correspond::publics::is_sealing;
use go_base::list::List;
use go_base::memory::NoMemory;
use go_model::types::names::Sel;
use go_model::types::package::Defined;
use go_model::types::term::Method;
use go_model::types::world::World;
use go_type_images::pair::TypePair;
use std::alloc::Global;
use std::collections::BTreeMap;

/// A pair of sealed interfaces, with the methods of both.
#[derive(Drop)]
pub(crate) struct SealedPair<'a> {
    pub(crate) pair: &'a TypePair,
    pub(crate) old: &'a [Method],
    pub(crate) new: &'a [Method],
}

/// Pairs of sealed interfaces, and their places, each at one selector that is unexported, of the module.
#[derive(Drop)]
pub(crate) struct SealedPairs<'a> {
    pub(crate) pairs: Vec<SealedPair<'a>>,
    pub(crate) places: BTreeMap<Sel, List<usize>>,
}

// The first method that no other package can declare.
fn first_sealing<'a>(world: &World, methods: &'a [Method]) -> Option<&'a Method>
    ensures { FirstSealing world.now methods.now result }
{
    for method in methods {
        if is_sealing(world, &method.sel) {
            return Some(method);
        }
    }
    None
}

fn count(pairs: &[SealedPair<'_>]) -> usize
    ensures { result ≡ length pairs.now }
{
    pairs.len()
}

impl<'a> SealedPairs<'a> {
    // Adds a pair, where both are interfaces and the old one is sealed.
    fn add(
        &mut self,
        alloc: Global,
        error: &'a Defined,
        old: &'a World,
        new: &'a World,
        pair: &'a TypePair,
    ) -> Result<(), NoMemory>
        requires { error.now ≡ error_type }
        ensures { OnOk result (AddsSealed old.now new.now pair.now self.old self.new) }
    {
        let after = under(error, new, &pair.new);
        if !is_interface(after) {
            return Ok(());
        }
        let methods = methods_of(under(error, old, &pair.old));
        match first_sealing(old, methods) {
            None => Ok(()),
            Some(first) => {
                let at = count(&self.pairs);
                add_place(alloc, &mut self.places, &first.sel, at)?;
                self.pairs.push(SealedPair {
                    pair,
                    old: methods,
                    new: methods_of(after),
                })?;
                Ok(())
            }
        }
    }
}

/// Those of these pairs that are of sealed interfaces.
pub(crate) fn sealed_pairs<'a>(
    alloc: Global,
    error: &'a Defined,
    old: &'a World,
    new: &'a World,
    pairs: &'a [TypePair],
) -> Result<SealedPairs<'a>, NoMemory>
    requires { error.now ≡ error_type }
    ensures { IfOk result (HoldSealed old.now new.now pairs.now) }
{
    let mut sealed = SealedPairs {
        pairs: Vec::new(alloc),
        places: BTreeMap::new(alloc),
    };
    for at in 0..pairs.len() {
        sealed.add(alloc, error, old, new, &pairs[at])?;
    }
    Ok(sealed)
}
