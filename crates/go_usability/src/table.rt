//! The same questions on the table of an environment alone.
ghost use Rattle.std.specs.Prelude.{IfOk};
ghost use Rattle.go_model.specs.types.Assignability.{Assignable};
ghost use Rattle.go_model.specs.types.Comparison.{Comparable};
ghost use Rattle.go_model.specs.types.Conversions.{Convertible};
ghost use Rattle.go_model.specs.types.Selectors.{Finds};
ghost use Rattle.go_rules.specs.Scopes.{env_of};
ghost use Rattle.go_types.specs.go_selectors.Answers.{Decides};
ghost use Rattle.go_types.specs.go_selectors.Candidates.{HoldMethodSet};

use crate::context::Context;
use go_base::memory::NoMemory;
use go_model::types::found::Found;
use go_model::types::names::Sel;
use go_model::types::term::Term;
use go_types::go_selectors::candidate::Candidate;
use go_types::go_selectors::candidates;
use go_types::{assignability, comparison, conversions};
use std::alloc::Global;
use std::collections::BTreeMap;

/// What a selector finds in a type.
pub(crate) fn find<'a>(
    context: &Context<'a>,
    alloc: Global,
    term: &'a Term,
    sel: &Sel,
) -> Result<Found, NoMemory>
    ensures { IfOk result (Finds (env_of context.now.env.now).table sel.now term.now) }
{
    let found = context.types.find(alloc, term, sel)?;
    Ok(found)
}

/// The methods that can be called on a type, by their selectors.
pub(crate) fn candidates<'a>(
    context: &Context<'a>,
    alloc: Global,
    term: &'a Term,
) -> Result<BTreeMap<Sel, Candidate<'a>>, NoMemory>
    ensures { IfOk result (HoldMethodSet (env_of context.now.env.now).table term.now) }
{
    let callable = candidates::candidates(alloc, &context.types, term)?;
    Ok(callable)
}

/// Whether a value of one type is assignable to another.
pub(crate) fn assignable<'a>(
    context: &Context<'a>,
    alloc: Global,
    from: &'a Term,
    to: &'a Term,
) -> Result<bool, NoMemory>
    ensures { IfOk result (λ answer. Decides answer (Assignable (env_of context.now.env.now).table (env_of context.now.env.now).profile from.now to.now)) }
{
    let profile = context.env.is_profile();
    let answer = assignability::decide(alloc, &context.types, from, to, profile)?;
    Ok(answer)
}

/// Whether a value of one type that isn't a constant is convertible to another.
pub(crate) fn convertible<'a>(
    context: &Context<'a>,
    alloc: Global,
    from: &'a Term,
    to: &'a Term,
) -> Result<bool, NoMemory>
    ensures { IfOk result (λ answer. Decides answer (Convertible (env_of context.now.env.now).table (env_of context.now.env.now).profile from.now to.now)) }
{
    let profile = context.env.is_profile();
    let answer = conversions::decide(alloc, &context.types, from, to, profile)?;
    Ok(answer)
}

/// Whether two values of a type can be compared.
pub(crate) fn comparable<'a>(
    context: &Context<'a>,
    alloc: Global,
    term: &'a Term,
) -> Result<bool, NoMemory>
    ensures { IfOk result (λ answer. Decides answer (Comparable (env_of context.now.env.now).table term.now)) }
{
    let answer = comparison::decide(alloc, &context.types, term)?;
    Ok(answer)
}
