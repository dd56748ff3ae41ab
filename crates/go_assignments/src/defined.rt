//! Short variable declarations.
ghost use Rattle.std.specs.Prelude.{◌≡◌, ◌≢◌, ◌||◌, [], None, Some, IfOk, OnOk};
ghost use Rattle.go_assignments.specs.Definitions.{Defines, KeepsOuter};
ghost use Rattle.go_assignments.specs.inner.Definitions.{AcceptsEach, AcceptsOne, IsOffer, MayTake, TellsGiven, TellsOffers};
ghost use Rattle.go_base.specs.Keys.{item_of};
ghost use Rattle.go_model.specs.types.Terms.{error_type};
ghost use Rattle.go_rules.specs.Asks.{AreDistinctNames, texts};
ghost use Rattle.go_rules.specs.Scopes.{env_of};
ghost use Rattle.go_rules.specs.declared.seen.Seen.TheVariants as seen;
ghost use Rattle.go_selectors.specs.Answers.{Decides};
ghost use Rattle.go_statement_rules.specs.Scopes.{Scopes};
ghost use Rattle.go_type_terms.specs.Answers.{env_in};
ghost use Rattle.go_usability.specs.Answers.{Gives};

use crate::added::add;
use crate::sides::are_met;
use crate::values::some_type;
use go_base::list::List;
use go_base::memory::NoMemory;
use go_base::text::Text;
use go_entries::initializers::initialize;
use go_model::types::package::Defined;
use go_model::types::term::Term;
use go_nodes::distinct::are_distinct;
use go_nodes::names::push_names;
use go_operators::values::is_usable;
use go_rules::blank::is_blank;
use go_rules::env::Env;
use go_rules::meaning::Meaning;
use go_rules::operand::Operand;
use go_rules::predeclared::Predeclared;
use go_rules::seen::Seen;
use go_syntax::expression::Expr;
use go_syntax::name::Name;
use go_type_terms::error::ExprError;
use go_usability::context::Context;
use std::alloc::Global;

// What a value offers to a name: the type of a new variable, where the value has one, and whether the variable that the name
// means may be given the value.
#[derive(Drop)]
struct Offer<'a> {
    name: &'a Name,
    term: Option<Term>,
    fits: bool,
}

// The type of the variable that a name means.
fn variable_type<'a>(env: &'a Env<'_>, name: &Text) -> Option<&'a Term>
    ensures { Gives (λ t. (env_of env.now).meaning name.now ≡ Some (seen.Local t)) (item_of result) }
{
    match env.meaning(name) {
        Some(Meaning::Local(term)) => Some(term),
        _ => None,
    }
}

// Whether the variable that a name means may be given a value.
fn may_take(
    context: &Context<'_>,
    alloc: Global,
    name: &Name,
    value: &Operand,
) -> Result<bool, NoMemory>
    ensures { IfOk result (λ answer. Decides answer (MayTake (env_in context.now) name.now value.now)) }
{
    match variable_type(context.env, &name.text) {
        Some(term) => is_usable(context, alloc, value, term),
        None => Ok(false),
    }
}

// What a value offers to a name.
fn offer_of<'a>(
    context: &Context<'_>,
    alloc: Global,
    name: &'a Name,
    value: &Operand,
) -> Result<Offer<'a>, NoMemory>
    ensures { IfOk result (IsOffer (env_in context.now) name.now value.now) }
{
    let term = some_type(context, alloc, value)?;
    let fits = may_take(context, alloc, name, value)?;
    Ok(Offer { name, term, fits })
}

// What each value offers to the name in its place.
fn offers<'a>(
    context: &Context<'_>,
    alloc: Global,
    names: &'a [Name],
    values: &[Operand],
) -> Result<List<Offer<'a>>, ExprError>
    ensures { TellsOffers (env_in context.now) names.now values.now result }
{
    let same = names.len() == values.len();
    if !same {
        return Err(ExprError::Untyped);
    }
    let mut all = List::new(alloc);
    for (at, name) in names.iter().enumerate() {
        let one = offer_of(context, alloc, name, &values[at])?;
        all.push(one)?;
    }
    Ok(all)
}

// Whether no two names but the blank one are the same.
fn are_distinct_names(alloc: Global, names: &[Name]) -> Result<bool, NoMemory>
    ensures { IfOk result (λ answer. Decides answer (AreDistinctNames (texts names.now))) }
{
    let mut gathered = List::new(alloc);
    push_names(&mut gathered, names)?;
    let distinct = are_distinct(alloc, gathered.items())?;
    Ok(distinct)
}

// What the values of expressions offer to distinct names.
fn offered_in<'a>(
    context: &Context<'_>,
    alloc: Global,
    names: &'a [Name],
    exprs: &[Expr],
) -> Result<List<Offer<'a>>, ExprError>
    ensures { TellsGiven (env_in context.now) names.now exprs.now result }
{
    let distinct = are_distinct_names(alloc, names)?;
    if !distinct {
        return Err(ExprError::Untyped);
    }
    let values = initialize(context, alloc, names.len(), exprs)?;
    let met = are_met(context, alloc, exprs)?;
    if !met {
        return Err(ExprError::Untyped);
    }
    let all = offers(context, alloc, names, values.items())?;
    Ok(all)
}

// The same in an environment.
fn offered<'a>(
    env: &Env<'_>,
    alloc: Global,
    error: &Defined,
    names: &'a [Name],
    exprs: &[Expr],
) -> Result<List<Offer<'a>>, ExprError>
    requires { error.now ≡ error_type }
    ensures { TellsGiven (env_of env.now) names.now exprs.now result }
{
    let context = Context::new(env, error);
    offered_in(&context, alloc, names, exprs)
}

// A name accepts a value with a type: it is a new variable, unless it is the blank name, or the scope has a variable of the name.
// Whether there is a new one.
fn accept_typed(
    env: &mut Env<'_>,
    alloc: Global,
    offer: &Offer<'_>,
    term: &Term,
) -> Result<bool, ExprError>
    requires typed { offer.now.term ≡ Some term.now }
    requires opened { env.old.opened ≢ [] }
    ensures accepts { AcceptsOne env.old offer.now env.new result }
    ensures kept { KeepsOuter env.old env.new }
{
    if is_blank(offer.name.text.bytes()) {
        return Ok(false);
    }
    let local = Seen::Local(term.copy(alloc)?);
    let new = add(env, alloc, &offer.name.text, local)?;
    if new {
        return Ok(true);
    }
    if offer.fits {
        return Ok(false);
    }
    Err(ExprError::Untyped)
}

// A name accepts a value without a type: the scope has a variable of the name.
fn accept_untyped(env: &mut Env<'_>, alloc: Global, offer: &Offer<'_>) -> Result<bool, ExprError>
    requires untyped { offer.now.term ≡ None }
    requires opened { env.old.opened ≢ [] }
    ensures accepts { AcceptsOne env.old offer.now env.new result }
    ensures kept { KeepsOuter env.old env.new }
{
    let any = Seen::Universe(Predeclared::Nil);
    let new = add(env, alloc, &offer.name.text, any)?;
    if new {
        return Err(ExprError::Untyped);
    }
    if offer.fits {
        return Ok(false);
    }
    Err(ExprError::Untyped)
}

// A name accepts what is offered to it. Whether that is a new variable.
fn accept(env: &mut Env<'_>, alloc: Global, offer: &Offer<'_>) -> Result<bool, ExprError>
    requires { env.old.opened ≢ [] }
    ensures accepts { AcceptsOne env.old offer.now env.new result }
    ensures kept { KeepsOuter env.old env.new }
{
    match &offer.term {
        Some(term) => accept_typed(env, alloc, offer, term),
        None => accept_untyped(env, alloc, offer),
    }
}

fn either(first: bool, second: bool) -> bool
    ensures { result ≡ first || second }
{
    first || second
}

// Each name accepts what is offered to it, one after another. Whether there is a new variable.
fn accept_each(env: &mut Env<'_>, alloc: Global, offers: &[Offer<'_>]) -> Result<bool, ExprError>
    requires { env.old.opened ≢ [] }
    ensures accepts { AcceptsEach env.old offers.now env.new result }
    ensures kept { KeepsOuter env.old env.new }
{
    let mut any = false;
    for offer in offers {
        let new = accept(env, alloc, offer)?;
        any = either(any, new);
    }
    Ok(any)
}

/// A short variable declaration in the innermost scope, where one is opened. `Untyped` exactly where it isn't typed; after an error
/// that scope may have some of the names.
pub fn define(
    env: &mut Env<'_>,
    alloc: Global,
    error: &Defined,
    names: &[Name],
    exprs: &[Expr],
) -> Result<(), ExprError>
    requires error { error.now ≡ error_type }
    requires opened { env.old.opened ≢ [] }
    ensures ok { OnOk result (Defines (env_of env.old) env.old.opened names.now exprs.now env.new.opened) }
    ensures untyped { result ≡ Err ExprError.Untyped → (t : Scopes) → Defines (env_of env.old) env.old.opened names.now exprs.now t → ⊥ }
    ensures kept { KeepsOuter env.old env.new }
{
    let offers = offered(env, alloc, error, names, exprs)?;
    let any = accept_each(env, alloc, offers.items())?;
    if !any {
        return Err(ExprError::Untyped);
    }
    Ok(())
}
