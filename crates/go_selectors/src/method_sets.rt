//! Method sets.
ghost use Rattle.std.specs.Prelude.{◌≡◌, IfOk, OnOk};
ghost use Rattle.go_model.specs.types.MethodSets.{IsMethodSet};
ghost use Rattle.go_model.specs.worlds.Worlds.{table_of};
ghost use Rattle.go_selectors.specs.Candidates.{AddsMethod, Lists};

use crate::candidate::Candidate;
use crate::candidates::candidates;
use crate::lookup::{Lookup, error_type};
use go_base::list::List;
use go_base::memory::NoMemory;
use go_model::types::names::Sel;
use go_model::types::table::TypeTable;
use go_model::types::term::{Method, Term};
use go_model::types::world::World;
use std::alloc::Global;
use std::collections::BTreeMap;

fn add_method(
    alloc: Global,
    sel: Sel,
    candidate: &Candidate<'_>,
    methods: &mut List<Method>,
) -> Result<(), NoMemory>
    ensures { OnOk result (AddsMethod sel candidate.now.called methods.old methods.new) }
{
    match candidate.called() {
        None => Ok(()),
        Some(signature) => {
            let copied = signature.copy(alloc)?;
            methods.push(Method {
                sel,
                signature: copied,
            })?;
            Ok(())
        }
    }
}

// The methods among the candidates.
fn listed(
    alloc: Global,
    mut candidates: BTreeMap<Sel, Candidate<'_>>,
) -> Result<List<Method>, NoMemory>
    ensures { IfOk result (Lists candidates.entry) }
{
    let _count = candidates.len();
    let mut methods = List::new(alloc);
    for _ in 0..u64::MAX {
        match candidates.pop_first() {
            None => return Ok(methods),
            Some((sel, candidate)) => add_method(alloc, sel, &candidate, &mut methods)?,
        }
    }
    Err(NoMemory)
}

impl<'a, T: TypeTable> Lookup<'a, T> {
    /// The method set of a type, ordered by selector.
    pub fn method_set(&self, alloc: Global, term: &'a Term) -> Result<List<Method>, NoMemory>
        ensures { IfOk result (IsMethodSet (T.lookup self.now.table.now) term.now) }
    {
        let callable = candidates(alloc, self, term)?;
        let methods = listed(alloc, callable)?;
        Ok(methods)
    }
}

/// The method set of a type, ordered by selector, where a table of types tells the names in it.
pub fn method_set_in<T: TypeTable>(
    alloc: Global,
    types: &T,
    term: &Term,
) -> Result<List<Method>, NoMemory>
    ensures { IfOk result (IsMethodSet (T.lookup types.now) term.now) }
{
    let error = error_type(alloc)?;
    let methods = Lookup::new(types, &error).method_set(alloc, term)?;
    Ok(methods)
}

/// The method set of a type of a world, ordered by selector.
pub fn method_set(alloc: Global, world: &World, term: &Term) -> Result<List<Method>, NoMemory>
    ensures { IfOk result (IsMethodSet (table_of world.now.packages) term.now) }
{
    method_set_in(alloc, world, term)
}
