//! Types that implement an interface.
ghost use Rattle.std.specs.Prelude.{◌≡◌, IfOk};
ghost use Rattle.go_model.specs.worlds.Worlds.{table_of};
ghost use Rattle.go_selectors.specs.Answers.{Decides};
ghost use Rattle.go_types.specs.Answers.{IsCalled};
ghost use Rattle.go_selectors.specs.Candidates.{IsCandidate, AreCandidates};
ghost use Rattle.go_model.specs.types.MethodSets.{HasMethod, HasMethods, Implements};

use go_model::types::found::Found;
use go_model::types::names::Sel;
use go_model::types::table::TypeTable;
use go_model::types::term::{Method, Term};
use go_model::types::world::World;
use go_selectors::candidate::Candidate;
use go_selectors::candidates::{called_at, candidates};
use go_selectors::go_base::memory::NoMemory;
use go_selectors::identity::same_signature;
use go_selectors::lookup::{Lookup, error_type};
use std::alloc::Global;
use std::collections::BTreeMap;

// Up to so many methods are searched for one by one: a search keeps less in memory than a map of all.
const FEW_METHODS: usize = 4;

// Whether what was found is this method, and callable on the type itself.
fn is_called(found: &Found, method: &Method) -> bool
    ensures { Decides result (IsCalled method.now.signature found.now) }
{
    match found {
        Found::MethodAt(at) => {
            if at.pointer_receiver && !at.through_pointer {
                return false;
            }
            same_signature(&at.signature, &method.signature)
        }
        _ => false,
    }
}

fn has_method<'a, T: TypeTable>(
    alloc: Global,
    types: &Lookup<'a, T>,
    term: &'a Term,
    method: &Method,
) -> Result<bool, NoMemory>
    ensures { IfOk result (λ answer. Decides answer (HasMethod (T.lookup types.now.table.now) term.now method.now)) }
{
    let found = types.find(alloc, term, &method.sel)?;
    let called = is_called(&found, method);
    Ok(called)
}

fn has_few<'a, T: TypeTable>(
    alloc: Global,
    types: &Lookup<'a, T>,
    term: &'a Term,
    methods: &[Method],
) -> Result<bool, NoMemory>
    ensures { IfOk result (λ answer. Decides answer (HasMethods (T.lookup types.now.table.now) term.now methods.now)) }
{
    for method in methods {
        if !has_method(alloc, types, term, method)? {
            return Ok(false);
        }
    }
    Ok(true)
}

fn is_candidate(candidates: &BTreeMap<Sel, Candidate<'_>>, method: &Method) -> bool
    ensures { Decides result (IsCandidate candidates.now method.now) }
{
    match called_at(candidates, &method.sel) {
        Some(signature) => same_signature(signature, &method.signature),
        None => false,
    }
}

/// Whether each method is one of these, callable on the type itself.
pub fn are_candidates(candidates: &BTreeMap<Sel, Candidate<'_>>, methods: &[Method]) -> bool
    ensures { Decides result (AreCandidates candidates.now methods.now) }
{
    for method in methods {
        if !is_candidate(candidates, method) {
            return false;
        }
    }
    true
}

fn has_methods<'a, T: TypeTable>(
    alloc: Global,
    types: &Lookup<'a, T>,
    term: &'a Term,
    methods: &[Method],
) -> Result<bool, NoMemory>
    ensures { IfOk result (λ answer. Decides answer (HasMethods (T.lookup types.now.table.now) term.now methods.now)) }
{
    if methods.len() <= FEW_METHODS {
        let has = has_few(alloc, types, term, methods)?;
        return Ok(has);
    }
    let callable = candidates(alloc, types, term)?;
    let has = are_candidates(&callable, methods);
    Ok(has)
}

/// Whether a type implements an interface type, as [`implements`] says.
pub fn decide<'a, T: TypeTable>(
    alloc: Global,
    types: &Lookup<'a, T>,
    term: &'a Term,
    interface: &'a Term,
) -> Result<bool, NoMemory>
    ensures { IfOk result (λ answer. Decides answer (Implements (T.lookup types.now.table.now) term.now interface.now)) }
{
    match types.under(interface) {
        Term::Interface(methods) => {
            let has = has_methods(alloc, types, term, methods.items())?;
            Ok(has)
        }
        _ => Ok(false),
    }
}

/// Whether a type implements an interface type, where a table of types tells the names in both, as
/// [`implements`] says.
pub fn implements_in<T: TypeTable>(
    alloc: Global,
    types: &T,
    term: &Term,
    interface: &Term,
) -> Result<bool, NoMemory>
    ensures { IfOk result (λ answer. Decides answer (Implements (T.lookup types.now) term.now interface.now)) }
{
    let error = error_type(alloc)?;
    let lookup = Lookup::new(types, &error);
    let answer = decide(alloc, &lookup, term, interface)?;
    Ok(answer)
}

/// Whether a type of a world implements an interface type of it: where the second has no interface
/// underneath, not; else whether its method set has each of the interface's methods, with an identical
/// signature.
pub fn implements(
    alloc: Global,
    world: &World,
    term: &Term,
    interface: &Term,
) -> Result<bool, NoMemory>
    ensures { IfOk result (λ answer. Decides answer (Implements (table_of world.now.packages) term.now interface.now)) }
{
    implements_in(alloc, world, term, interface)
}
