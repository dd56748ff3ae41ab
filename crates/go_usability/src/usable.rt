//! Which operands may be used as values of a type.
ghost use Rattle.std.specs.Prelude.{◌≡◌, IfOk};
ghost use Rattle.go_model.specs.declared.types.term.Term.{out-Term};
ghost use Rattle.go_rules.specs.Scopes.{env_of};
ghost use Rattle.go_rules.specs.Usability.{DefaultHolds, UsableAs, holds_nil};
ghost use Rattle.go_types.specs.go_selectors.Answers.{Decides};
ghost use Rattle.go_usability.specs.inner.Stands.{ConstantFits, Uses, stood, truth_fits};

use crate::assignability::assignable;
use crate::context::Context;
use crate::operands::{Standing, default_basic, stands};
use go_base::memory::NoMemory;
use go_const::representation::representable;
use go_model::constants::value::{Basic, Untyped, Value};
use go_model::types::term::Term;
use go_rules::operand::Operand;
use std::alloc::Global;

/// Whether values of an underlying type may be nil.
pub fn holds_nil(term: &Term) -> bool
    ensures { result ≡ holds_nil (out-Term term.now) }
{
    match term {
        Term::Pointer(_) => true,
        Term::Func(_) => true,
        Term::Slice(_) => true,
        Term::Map(_, _) => true,
        Term::Chan(_, _) => true,
        Term::Interface(_) => true,
        _ => false,
    }
}

/// Whether the default type of an untyped kind can hold a value.
pub fn default_holds(context: &Context<'_>, kind: Untyped, value: &Value) -> bool
    ensures { Decides result (DefaultHolds (env_of context.now.env.now) kind value.now) }
{
    representable(value, default_basic(kind), context.env.bits())
}

// Whether an untyped constant may be used where this is underneath.
fn constant_fits(context: &Context<'_>, kind: Untyped, value: &Value, term: &Term) -> bool
    ensures { Decides result (ConstantFits (env_of context.now.env.now) kind value.now (out-Term term.now)) }
{
    match term {
        Term::Plain(basic) => representable(value, *basic, context.env.bits()),
        Term::Interface(methods) => match methods.items() {
            [] => default_holds(context, kind, value),
            _ => false,
        },
        _ => false,
    }
}

// Whether an untyped truth value may.
fn truth_fits(term: &Term) -> bool
    ensures { result ≡ truth_fits (out-Term term.now) }
{
    match term {
        Term::Plain(Basic::Bool) => true,
        Term::Interface(methods) => match methods.items() {
            [] => true,
            _ => false,
        },
        _ => false,
    }
}

// Whether what stands so may be used as a value of a type.
fn uses<'a>(
    context: &Context<'a>,
    alloc: Global,
    standing: &Standing<'a>,
    term: &'a Term,
) -> Result<bool, NoMemory>
    ensures { IfOk result (λ answer. Decides answer (Uses (env_of context.now.env.now) (stood standing.now) term.now)) }
{
    match standing {
        Standing::OfType(from) => assignable(context, alloc, from, term),
        Standing::Constant(kind, value) => {
            Ok(constant_fits(context, *kind, value, context.under(term)))
        }
        Standing::Truth => Ok(truth_fits(context.under(term))),
        Standing::Nil => Ok(holds_nil(context.under(term))),
        Standing::Nothing => Ok(false),
    }
}

/// Whether an operand may be used as a value of a type: a value of a type where that is assignable; an untyped
/// constant where the basic type underneath represents it, or, where the empty interface is underneath, its
/// default type; an untyped truth value where `bool` or the empty interface is underneath; nil where values
/// may be nil; else not.
pub fn usable<'a>(
    context: &Context<'a>,
    alloc: Global,
    operand: &'a Operand,
    term: &'a Term,
) -> Result<bool, NoMemory>
    ensures { IfOk result (λ answer. Decides answer (UsableAs (env_of context.now.env.now) operand.now term.now)) }
{
    let answer = uses(context, alloc, &stands(operand), term)?;
    Ok(answer)
}
