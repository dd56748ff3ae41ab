//! Which types are convertible to which, for values that aren't constants, where all that this reads is had.
ghost use Rattle.std.specs.Prelude.{◌≡◌, IfOk};
ghost use Rattle.go_model.specs.declared.types.term.Term.{out-Term};
ghost use Rattle.go_model.specs.types.Conversions.{Convertible as TableConverts};
ghost use Rattle.go_rules.specs.Scopes.{env_of};
ghost use Rattle.go_rules.specs.Usability.{Assignable, BasesEntered, Convertible};
ghost use Rattle.go_types.specs.go_selectors.Answers.{Decides};
ghost use Rattle.go_usability.specs.inner.Alternatives.{are_pointers, ConvertsBeneath};

use crate::assignability::{assignable, is_interface};
use crate::context::Context;
use crate::table;
use go_base::memory::NoMemory;
use go_model::types::term::{Term, pointer_to};
use std::alloc::Global;

fn are_pointers(from: &Term, to: &Term) -> bool
    ensures { result ≡ are_pointers (out-Term from.now) (out-Term to.now) }
{
    matches!(from, Term::Pointer(_)) && matches!(to, Term::Pointer(_))
}

// Whether the bases of two pointer types have their entries.
fn bases_entered(context: &Context<'_>, from: &Term, to: &Term) -> bool
    ensures { Decides result (BasesEntered (env_of context.now.env.now) (out-Term from.now) (out-Term to.now)) }
{
    match from {
        Term::Pointer(base) => match to {
            Term::Pointer(other) => {
                context.is_entered(base.value()) && context.is_entered(other.value())
            }
            _ => true,
        },
        _ => true,
    }
}

// Whether a value of one type is convertible to another, whatever each is borrowed from.
fn converts_between(
    context: &Context<'_>,
    alloc: Global,
    from: &Term,
    to: &Term,
) -> Result<bool, NoMemory>
    ensures { IfOk result (λ answer. Decides answer (TableConverts (env_of context.now.env.now).table (env_of context.now.env.now).profile from.now to.now)) }
{
    table::convertible(context, alloc, from, to)
}

// Whether two types are identical, or convertible by what is underneath: pointers to such are convertible.
fn converts_beneath(
    context: &Context<'_>,
    alloc: Global,
    from: &Term,
    to: &Term,
) -> Result<bool, NoMemory>
    ensures { IfOk result (λ answer. Decides answer (ConvertsBeneath (env_of context.now.env.now) from.now to.now)) }
{
    let left = pointer_to(alloc, from)?;
    let right = pointer_to(alloc, to)?;
    let answer = converts_between(context, alloc, &left, &right)?;
    Ok(answer)
}

// Whether a value is convertible where it isn't assignable, and is convertible by the table.
fn converts_else<'a>(
    context: &Context<'a>,
    alloc: Global,
    from: &'a Term,
    to: &'a Term,
) -> Result<bool, NoMemory>
    requires table { TableConverts (env_of context.now.env.now).table (env_of context.now.env.now).profile from.now to.now }
    requires unassignable { Assignable (env_of context.now.env.now) from.now to.now → ⊥ }
    ensures { IfOk result (λ answer. Decides answer (Convertible (env_of context.now.env.now) from.now to.now)) }
{
    if are_pointers(from, to) {
        return Ok(bases_entered(context, from, to));
    }
    if !context.is_entered(from) {
        return Ok(false);
    }
    if !context.is_entered(to) {
        return Ok(false);
    }
    if !is_interface(context, to) {
        return Ok(true);
    }
    let answer = converts_beneath(context, alloc, from, to)?;
    Ok(answer)
}

/// Whether a value of one type that isn't a constant is convertible to another: where it is assignable; or,
/// where both have their entries, they are identical underneath but for tags; or both are unnamed pointers to
/// such bases; or between basic types that convert, or a string and a slice of bytes or runes; else not. In a
/// client of the profile no defined struct or interface of another package is converted by what is underneath
/// it, and no unnamed pointer to one.
pub fn convertible<'a>(
    context: &Context<'a>,
    alloc: Global,
    from: &'a Term,
    to: &'a Term,
) -> Result<bool, NoMemory>
    ensures { IfOk result (λ answer. Decides answer (Convertible (env_of context.now.env.now) from.now to.now)) }
{
    if assignable(context, alloc, from, to)? {
        return Ok(true);
    }
    if !table::convertible(context, alloc, from, to)? {
        return Ok(false);
    }
    let answer = converts_else(context, alloc, from, to)?;
    Ok(answer)
}
