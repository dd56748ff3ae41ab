//! Types that implement an interface.
ghost use Rattle.std.specs.Prelude.{IfOk};
ghost use Rattle.go_rules.specs.Scopes.{env_of};
ghost use Rattle.go_rules.specs.Usability.{Implements};
ghost use Rattle.go_types.specs.go_selectors.Answers.{Decides};
ghost use Rattle.go_usability.specs.inner.Methods.{Holds, HoldsEach, IsCalled};

use crate::context::Context;
use crate::finding::{called, found};
use crate::table;
use crate::told::told_for;
use go_base::memory::NoMemory;
use go_model::types::found::Found;
use go_model::types::term::{Method, Term};
use go_types::go_selectors::identity::same_signature;
use go_types::implementing::are_candidates;
use std::alloc::Global;

// Up to so many methods are searched for one by one: a search keeps less in memory than a map of all.
const FEW_METHODS: usize = 4;

// Whether what was found is this method, and callable on a value that isn't addressable.
fn is_called(found: &Option<Found>, method: &Method) -> bool
    ensures { Decides result (IsCalled found.now method.now) }
{
    match called(found, false) {
        Some(signature) => same_signature(signature, &method.signature),
        None => false,
    }
}

fn holds<'a>(
    context: &Context<'a>,
    alloc: Global,
    term: &'a Term,
    method: &Method,
) -> Result<bool, NoMemory>
    ensures { IfOk result (λ answer. Decides answer (Holds (env_of context.now.env.now) term.now method.now)) }
{
    let answer = found(context, alloc, term, &method.sel)?;
    let called = is_called(&answer, method);
    Ok(called)
}

fn holds_each<'a>(
    context: &Context<'a>,
    alloc: Global,
    term: &'a Term,
    methods: &[Method],
) -> Result<bool, NoMemory>
    ensures { IfOk result (λ answer. Decides answer (HoldsEach (env_of context.now.env.now) term.now methods.now)) }
{
    for method in methods {
        if !holds(context, alloc, term, method)? {
            return Ok(false);
        }
    }
    Ok(true)
}

// By one search for all, where the types on all levels are told; else one by one.
fn holds_many<'a>(
    context: &Context<'a>,
    alloc: Global,
    term: &'a Term,
    methods: &[Method],
) -> Result<bool, NoMemory>
    ensures { IfOk result (λ answer. Decides answer (HoldsEach (env_of context.now.env.now) term.now methods.now)) }
{
    let callable = table::candidates(context, alloc, term)?;
    if !are_candidates(&callable, methods) {
        return Ok(false);
    }
    if told_for(context, alloc, term, methods)? {
        return Ok(true);
    }
    let answer = holds_each(context, alloc, term, methods)?;
    Ok(answer)
}

fn holds_all<'a>(
    context: &Context<'a>,
    alloc: Global,
    term: &'a Term,
    methods: &[Method],
) -> Result<bool, NoMemory>
    ensures { IfOk result (λ answer. Decides answer (HoldsEach (env_of context.now.env.now) term.now methods.now)) }
{
    if methods.len() <= FEW_METHODS {
        let answer = holds_each(context, alloc, term, methods)?;
        return Ok(answer);
    }
    let answer = holds_many(context, alloc, term, methods)?;
    Ok(answer)
}

/// Whether a type implements an interface type: where the second has no interface underneath, not; else
/// whether each of the interface's methods, with an identical signature, can be called on a value of the
/// type that isn't addressable.
pub fn implements<'a>(
    context: &Context<'a>,
    alloc: Global,
    term: &'a Term,
    interface: &'a Term,
) -> Result<bool, NoMemory>
    ensures { IfOk result (λ answer. Decides answer (Implements (env_of context.now.env.now) term.now interface.now)) }
{
    match context.under(interface) {
        Term::Interface(methods) => {
            let answer = holds_all(context, alloc, term, methods.items())?;
            Ok(answer)
        }
        _ => Ok(false),
    }
}
