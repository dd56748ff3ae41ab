//! The variables of a spec.
ghost use Rattle.std.specs.Prelude.{◌≡◌, map, replicate, IfOk};
ghost use Rattle.std.specs.List.{AllZip};
ghost use Rattle.go_entries.specs.inner.Variables.{AreTypedVariables, AreUntypedVariables, AreVariablesOf, HasConstantDefault, HasDefault, IsDefaultType, IsVariable};
ghost use Rattle.go_model.specs.declared.types.package.Entity.TheVariants as entity;
ghost use Rattle.go_type_terms.specs.Answers.{Tells, env_in};
ghost use Rattle.go_typings.specs.Initializers.{TypeOfValue};
ghost use Rattle.go_expr.specs.go_usability.Answers.{Gives};

use crate::initializers::initialize;
use go_base::list::List;
use go_base::memory::NoMemory;
use go_expr::go_operators::values::{constant_of, is_loose_truth};
use go_expr::go_usability::context::Context;
use go_expr::go_usability::operands::{default_basic, type_of as own_type};
use go_expr::go_usability::usable::default_holds;
use go_expr::typing::type_of;
use go_model::constants::value::Untyped;
use go_model::types::package::{ConstTerm, Entity};
use go_model::types::term::Term;
use go_rules::operand::Operand;
use go_syntax::declaration::VarSpec;
use go_syntax::expression::Expr;
use go_syntax::types::Type;
use go_type_terms::error::ExprError;
use std::alloc::Global;

// The untyped kind of a constant whose default type can hold it.
fn constant_kind(context: &Context<'_>, operand: &Operand) -> Option<Untyped>
    ensures { Gives (HasConstantDefault (env_in context.now) operand.now) result }
{
    match constant_of(operand) {
        Some((ConstTerm::OfKind(kind), value)) => {
            if default_holds(context, *kind, value) {
                Some(*kind)
            } else {
                None
            }
        }
        Some((ConstTerm::OfTerm(_), _)) => None,
        None => None,
    }
}

// The untyped kind of a value whose default type can hold it.
fn default_kind(context: &Context<'_>, operand: &Operand) -> Option<Untyped>
    ensures { Gives (HasDefault (env_in context.now) operand.now) result }
{
    if is_loose_truth(operand) {
        return Some(Untyped::BoolKind);
    }
    constant_kind(context, operand)
}

// The type of a variable that is given a value without a type.
fn default_type(context: &Context<'_>, operand: &Operand) -> Result<Term, ExprError>
    ensures { Tells (IsDefaultType (env_in context.now) operand.now) result }
{
    match default_kind(context, operand) {
        Some(kind) => Ok(Term::Plain(default_basic(kind))),
        None => Err(ExprError::Untyped),
    }
}

// The type of a variable that is given a value.
fn type_of_value(context: &Context<'_>, alloc: Global, operand: &Operand) -> Result<Term, ExprError>
    ensures { Tells (TypeOfValue (env_in context.now) operand.now) result }
{
    match own_type(operand) {
        Some(term) => Ok(term.copy(alloc)?),
        None => default_type(context, operand),
    }
}

// The variables that are given these values.
fn each_variable(
    context: &Context<'_>,
    alloc: Global,
    operands: &[Operand],
) -> Result<List<Entity>, ExprError>
    ensures { Tells (AllZip (IsVariable (env_in context.now)) operands.now) result }
{
    let mut variables = List::new(alloc);
    for operand in operands {
        let term = type_of_value(context, alloc, operand)?;
        variables.push(Entity::Var(term))?;
    }
    Ok(variables)
}

// So many variables of a type.
fn copies(alloc: Global, count: usize, term: &Term) -> Result<List<Entity>, NoMemory>
    ensures { IfOk result (λ variables. variables ≡ replicate count (entity.Var term.now)) }
{
    let mut variables = List::new(alloc);
    for _turn in 0..count {
        let copied = term.copy(alloc)?;
        variables.push(Entity::Var(copied))?;
    }
    Ok(variables)
}

// So many variables of the type that a form stands for: their values are not looked at.
fn typed_variables(
    context: &Context<'_>,
    alloc: Global,
    count: usize,
    form: &Type,
) -> Result<List<Entity>, ExprError>
    ensures { Tells (AreTypedVariables (env_in context.now) count form.now) result }
{
    let term = type_of(context, alloc, form)?;
    let variables = copies(alloc, count, &term)?;
    Ok(variables)
}

// So many variables of the types of their values.
fn untyped_variables(
    context: &Context<'_>,
    alloc: Global,
    count: usize,
    values: &[Expr],
) -> Result<List<Entity>, ExprError>
    ensures { Tells (AreUntypedVariables (env_in context.now) count values.now) result }
{
    let operands = initialize(context, alloc, count, values)?;
    each_variable(context, alloc, operands.items())
}

/// The variables of a spec; `Untyped` exactly where it has none.
pub(crate) fn variables(
    context: &Context<'_>,
    alloc: Global,
    spec: &VarSpec,
) -> Result<List<Entity>, ExprError>
    ensures { Tells (AreVariablesOf (env_in context.now) spec.now) result }
{
    let count = spec.names.items().len();
    match &spec.type_ {
        Some(form) => typed_variables(context, alloc, count, form),
        None => untyped_variables(context, alloc, count, spec.values.items()),
    }
}
