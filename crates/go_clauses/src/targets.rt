//! To what the values of a range go.
ghost use Rattle.std.specs.Prelude.{◌≡◌, ◌≤◌, length, map, take, IfOk};
ghost use Rattle.go_assignments.specs.Simple.{AreMet};
ghost use Rattle.go_clauses.specs.Clauses.{TakesNames, TakesValues};
ghost use Rattle.go_rules.specs.Operands.{plain};
ghost use Rattle.go_selectors.specs.Answers.{Decides};
ghost use Rattle.go_statement_rules.specs.Assignments.{AreAssigned};
ghost use Rattle.go_statement_rules.specs.Statements.{IsNew};
ghost use Rattle.go_type_terms.specs.Answers.{env_in};

use go_assignments::sides::{are_assigned, are_met};
use go_base::list::List;
use go_base::memory::NoMemory;
use go_model::types::term::Term;
use go_operators::operands::plain_like;
use go_rules::blank::is_blank;
use go_rules::operand::Operand;
use go_syntax::expression::Expr;
use go_syntax::name::Name;
use go_usability::context::Context;
use std::alloc::Global;

// Values of types.
fn values_of(alloc: Global, terms: &[Term]) -> Result<List<Operand>, NoMemory>
    ensures { IfOk result (λ values. values ≡ map plain terms.now) }
{
    let mut values = List::new(alloc);
    for term in terms {
        let value = plain_like(alloc, term)?;
        values.push(value)?;
    }
    Ok(values)
}

// Whether sides may be assigned values of these types.
fn take_values(
    context: &Context<'_>,
    alloc: Global,
    sides: &[Expr],
    terms: &[Term],
) -> Result<bool, NoMemory>
    ensures { IfOk result (λ answer. Decides answer (AreAssigned (env_in context.now) sides.now (map plain terms.now) × AreMet (env_in context.now) sides.now)) }
{
    let values = values_of(alloc, terms)?;
    let assigned = are_assigned(context, alloc, sides, values.items())?;
    if !assigned {
        return Ok(false);
    }
    let met = are_met(context, alloc, sides)?;
    Ok(met)
}

// As many of the types.
fn first_of(terms: &[Term], count: usize) -> &[Term]
    requires { count ≤ length terms.now }
    ensures { result.now ≡ take count terms.now }
{
    &terms[..count]
}

/// Whether sides may be assigned as many of the values that a range gives, by their types.
pub fn range_assigned(
    context: &Context<'_>,
    alloc: Global,
    sides: &[Expr],
    terms: &[Term],
) -> Result<bool, NoMemory>
    ensures { IfOk result (λ answer. Decides answer (TakesValues (env_in context.now) sides.now terms.now)) }
{
    let few = terms.len() < sides.len();
    if few {
        return Ok(false);
    }
    take_values(context, alloc, sides, first_of(terms, sides.len()))
}

// Whether one of the names isn't blank.
fn is_new(names: &[Name]) -> bool
    ensures { Decides result (IsNew names.now) }
{
    for name in names {
        if !is_blank(name.text.bytes()) {
            return true;
        }
    }
    false
}

/// Whether names may be declared for as many of the values that a range gives: one of them at least isn't blank.
pub fn range_defined(names: &[Name], terms: &[Term]) -> bool
    ensures { Decides result (TakesNames names.now terms.now) }
{
    let few = terms.len() < names.len();
    if few {
        return false;
    }
    is_new(names)
}
