//! Guards of type switches, and what their clauses list.
ghost use Rattle.std.specs.Prelude.{◌≡◌, None, Some, IfOk};
ghost use Rattle.go_base.specs.Keys.{item_of};
ghost use Rattle.go_clauses.specs.Clauses.{IsGuardOf};
ghost use Rattle.go_clauses.specs.inner.Guards.{IsInterfaceOf, IsNilName, ListsType};
ghost use Rattle.go_rules.specs.Expressions.{MayHold};
ghost use Rattle.go_rules.specs.declared.predeclared.Predeclared.TheVariants as p;
ghost use Rattle.go_rules.specs.declared.seen.Seen.TheVariants as seen;
ghost use Rattle.go_selectors.specs.Answers.{Decides};
ghost use Rattle.go_statement_rules.specs.Clauses.{IsNil, Lists, ListsAll};
ghost use Rattle.go_type_terms.specs.Answers.{Tells, env_in};
ghost use Rattle.go_usability.specs.Answers.{Gives};

use go_assignments::go_asks::operands::{form_type, operand};
use go_base::list::List;
use go_base::memory::NoMemory;
use go_base::text::Text;
use go_model::types::term::Term;
use go_operators::levels::is_interface;
use go_operators::values::type_of;
use go_rules::meaning::Meaning;
use go_rules::operand::Operand;
use go_rules::predeclared::Predeclared;
use go_syntax::expression::Expr;
use go_syntax::name::QualifiedName;
use go_syntax::types::Type;
use go_type_terms::error::ExprError;
use go_usability::context::Context;
use go_usability::implementing::implements;
use std::alloc::Global;

// The interface type of a value.
fn interface_of<'a>(context: &Context<'_>, operand: &'a Operand) -> Option<&'a Term>
    ensures { Gives (IsInterfaceOf (env_in context.now) operand.now) (item_of result) }
{
    match type_of(operand) {
        Some(term) => {
            if is_interface(context, term) {
                Some(term)
            } else {
                None
            }
        }
        None => None,
    }
}

// A copy of the interface type of a value.
fn interface_copy(
    context: &Context<'_>,
    alloc: Global,
    operand: &Operand,
) -> Result<Term, ExprError>
    ensures { Tells (IsInterfaceOf (env_in context.now) operand.now) result }
{
    match interface_of(context, operand) {
        Some(term) => Ok(term.copy(alloc)?),
        None => Err(ExprError::Untyped),
    }
}

/// The interface type of the operand of a type switch. `Untyped` exactly where it has none.
pub fn guard(context: &Context<'_>, alloc: Global, expr: &Expr) -> Result<Term, ExprError>
    ensures { Tells (IsGuardOf (env_in context.now) expr.now) result }
{
    let value = operand(context, alloc, expr)?;
    interface_copy(context, alloc, &value)
}

// Whether it is the predeclared `nil`.
fn is_nil_itself(predeclared: Predeclared) -> bool
    ensures { Decides result (predeclared ≡ p.Nil) }
{
    matches!(predeclared, Predeclared::Nil)
}

// Whether a name means it.
fn means_nil(context: &Context<'_>, name: &Text) -> bool
    ensures { Decides result ((env_in context.now).meaning name.now ≡ Some (seen.Universe p.Nil)) }
{
    match context.env.meaning(name) {
        Some(Meaning::Universe(predeclared)) => is_nil_itself(predeclared),
        _ => false,
    }
}

fn is_nil_name(context: &Context<'_>, name: &QualifiedName) -> bool
    ensures { Decides result (IsNilName (env_in context.now) name.now) }
{
    match &name.qualifier {
        Some(_) => false,
        None => means_nil(context, &name.name.text),
    }
}

// Whether a type form is the predeclared `nil`, parentheses aside.
#[cycle(is_nil)]
fn is_nil(context: &Context<'_>, form: &Type) -> bool
    ensures { Decides result (IsNil (env_in context.now) form.now) }
{
    match form {
        Type::Named(name) => is_nil_name(context, name),
        Type::Paren(inner) => is_nil(context, inner.value()),
        _ => false,
    }
}

// Whether a value of an interface type may be of another type.
fn may_hold(
    context: &Context<'_>,
    alloc: Global,
    interface: &Term,
    term: &Term,
) -> Result<bool, NoMemory>
    ensures { IfOk result (λ answer. Decides answer (MayHold (env_in context.now) interface.now term.now)) }
{
    if is_interface(context, term) {
        return Ok(true);
    }
    let answer = implements(context, alloc, term, interface)?;
    Ok(answer)
}

// The type of which a value of an interface type may be.
fn listed_type(
    context: &Context<'_>,
    alloc: Global,
    interface: &Term,
    form: &Type,
) -> Result<Term, ExprError>
    ensures { Tells (ListsType (env_in context.now) interface.now form.now) result }
{
    let term = form_type(context, alloc, form)?;
    if !may_hold(context, alloc, interface, &term)? {
        return Err(ExprError::Untyped);
    }
    Ok(term)
}

// What a clause of a switch over an interface type lists: `nil`, or a type.
fn listed(
    context: &Context<'_>,
    alloc: Global,
    interface: &Term,
    form: &Type,
) -> Result<Option<Term>, ExprError>
    ensures { Tells (Lists (env_in context.now) interface.now form.now) result }
{
    if is_nil(context, form) {
        return Ok(None);
    }
    let term = listed_type(context, alloc, interface, form)?;
    Ok(Some(term))
}

/// What a clause of a switch over an interface type lists. `Untyped` exactly where it may not list one of these.
pub fn all_listed(
    context: &Context<'_>,
    alloc: Global,
    interface: &Term,
    forms: &[Type],
) -> Result<List<Option<Term>>, ExprError>
    ensures { Tells (ListsAll (env_in context.now) interface.now forms.now) result }
{
    let mut all = List::new(alloc);
    for form in forms {
        let one = listed(context, alloc, interface, form)?;
        all.push(one)?;
    }
    Ok(all)
}
