//! Which types are assignable to which, where all that this reads is had.
ghost use Rattle.std.specs.Prelude.{◌≡◌, IfOk};
ghost use Rattle.go_model.specs.declared.types.term.Term.{out-Term};
ghost use Rattle.go_model.specs.types.Imports.{is_named};
ghost use Rattle.go_model.specs.types.Underlying.{under};
ghost use Rattle.go_rules.specs.Scopes.{env_of};
ghost use Rattle.go_rules.specs.Usability.{Assignable};
ghost use Rattle.go_types.specs.go_selectors.Answers.{Decides};
ghost use Rattle.go_usability.specs.inner.Alternatives.{is_interface, SameUnnamed, AssignsBeneath};

use crate::context::Context;
use crate::implementing::implements;
use crate::table;
use go_base::memory::NoMemory;
use go_model::types::term::Term;
use go_types::go_selectors::identity::identical;
use std::alloc::Global;

fn is_named(term: &Term) -> bool
    ensures { result ≡ is_named term.now }
{
    matches!(term, Term::Plain(_) | Term::Named(_))
}

/// Whether a type has an interface underneath.
pub(crate) fn is_interface<'a>(context: &Context<'a>, term: &'a Term) -> bool
    ensures { result ≡ is_interface (under (env_of context.now.env.now).table term.now) }
{
    matches!(context.under(term), Term::Interface(_))
}

fn is_same_unnamed<'a>(context: &Context<'a>, from: &'a Term, to: &'a Term) -> bool
    ensures { Decides result (SameUnnamed (env_of context.now.env.now) from.now to.now) }
{
    if is_named(from) && is_named(to) {
        return false;
    }
    identical(context.under(from), context.under(to))
}

// Whether a value of one type is assignable to another by what is underneath or by its channel.
fn assigns_beneath<'a>(
    context: &Context<'a>,
    alloc: Global,
    from: &'a Term,
    to: &'a Term,
) -> Result<bool, NoMemory>
    ensures { IfOk result (AssignsBeneath (env_of context.now.env.now) from.now to.now) }
{
    if is_interface(context, to) {
        return Ok(is_same_unnamed(context, from, to));
    }
    let answer = table::assignable(context, alloc, from, to)?;
    Ok(answer)
}

/// Whether a value of one type is assignable to another: where they are identical; or the one implements the
/// other, an interface; or, where both have their entries, they are identical underneath, and one isn't named,
/// or a channel of both directions goes to a channel of its element, and one isn't named; else not. In a
/// client of the profile no defined struct of another package is assigned by what is underneath it.
pub fn assignable<'a>(
    context: &Context<'a>,
    alloc: Global,
    from: &'a Term,
    to: &'a Term,
) -> Result<bool, NoMemory>
    ensures { IfOk result (λ answer. Decides answer (Assignable (env_of context.now.env.now) from.now to.now)) }
{
    if identical(from, to) {
        return Ok(true);
    }
    if implements(context, alloc, from, to)? {
        return Ok(true);
    }
    if !context.is_entered(from) {
        return Ok(false);
    }
    if !context.is_entered(to) {
        return Ok(false);
    }
    let answer = assigns_beneath(context, alloc, from, to)?;
    Ok(answer)
}
