//! Embedded types.
ghost use Rattle.std.specs.Prelude.{◌≡◌, IfOk};
ghost use Rattle.go_asks.specs.inner.Embedding.{IsTypeWith, NameDenotes, StandsAsField};
ghost use Rattle.go_model.specs.declared.types.term.Term.{out-Term};
ghost use Rattle.go_rules.specs.Asks.{EmbedsField, EmbedsInterface, IsOwnLayer, MayEmbed, MayStandUnder};
ghost use Rattle.go_selectors.specs.Answers.{Decides};
ghost use Rattle.go_type_terms.specs.Answers.{Tells, env_in};

use go_base::memory::NoMemory;
use go_expr::go_operations::names::{imported, named};
use go_expr::go_operators::values::type_in;
use go_expr::go_usability::context::Context;
use go_model::types::names::is_imported;
use go_model::types::term::Term;
use go_rules::operand::Operand;
use go_syntax::name::QualifiedName;
use go_type_terms::error::ExprError;
use std::alloc::Global;

// What a name denotes, with its qualifier where there is one.
fn denoted(context: &Context<'_>, alloc: Global, name: &QualifiedName) -> Result<Operand, ExprError>
    ensures { Tells (NameDenotes (env_in context.now) name.now) result }
{
    match &name.qualifier {
        None => named(context, alloc, &name.name),
        Some(package) => imported(context, alloc, package, &name.name),
    }
}

// Whether an embedded type has this level underneath, behind a star or not.
fn may_stand_under(star: bool, level: &Term) -> bool
    ensures { Decides result (MayStandUnder star (out-Term level.now)) }
{
    match level {
        Term::Pointer(_) => false,
        Term::Interface(_) => !star,
        _ => true,
    }
}

// Whether a type is a client's own or predeclared.
fn is_own(term: &Term) -> bool
    ensures { Decides result (IsOwnLayer (out-Term term.now)) }
{
    match term {
        Term::Named(name) => !is_imported(name),
        Term::Plain(_) => true,
        Term::Interface(methods) => methods.items().is_empty(),
        _ => false,
    }
}

// Whether a type may be embedded at all.
fn may_embed(context: &Context<'_>, term: &Term) -> bool
    ensures { Decides result (MayEmbed (env_in context.now) term.now) }
{
    if !context.env.is_profile() {
        return true;
    }
    is_own(term)
}

// Whether a type may be embedded as a field, behind a star or not.
fn stands_as_field(context: &Context<'_>, star: bool, term: &Term) -> bool
    ensures { Decides result (StandsAsField (env_in context.now) star term.now) }
{
    if !context.is_entered(term) {
        return false;
    }
    if !may_stand_under(star, context.under(term)) {
        return false;
    }
    may_embed(context, term)
}

// Whether an operand is a type that may be embedded as a field, behind a star or not.
fn is_field_type(context: &Context<'_>, star: bool, operand: &Operand) -> bool
    ensures { Decides result (IsTypeWith (StandsAsField (env_in context.now) star) operand.now) }
{
    match type_in(operand) {
        Some(term) => stands_as_field(context, star, term),
        None => false,
    }
}

/// Whether an embedded field is a type's name that may be embedded, or a pointer to one.
pub(crate) fn embeds_field(
    context: &Context<'_>,
    alloc: Global,
    star: bool,
    name: &QualifiedName,
) -> Result<bool, NoMemory>
    ensures { IfOk result (λ answer. Decides answer (EmbedsField (env_in context.now) star name.now)) }
{
    match denoted(context, alloc, name) {
        Ok(operand) => Ok(is_field_type(context, star, &operand)),
        Err(ExprError::Untyped) => Ok(false),
        Err(ExprError::NoMemory) => Err(NoMemory),
    }
}

// Whether an operand is a type that may be embedded in an interface.
fn is_interface_type(context: &Context<'_>, operand: &Operand) -> bool
    ensures { Decides result (IsTypeWith (MayEmbed (env_in context.now)) operand.now) }
{
    match type_in(operand) {
        Some(term) => may_embed(context, term),
        None => false,
    }
}

/// Whether an embedded interface is a type's name that may be embedded.
pub(crate) fn embeds_interface(
    context: &Context<'_>,
    alloc: Global,
    name: &QualifiedName,
) -> Result<bool, NoMemory>
    ensures { IfOk result (λ answer. Decides answer (EmbedsInterface (env_in context.now) name.now)) }
{
    match denoted(context, alloc, name) {
        Ok(operand) => Ok(is_interface_type(context, &operand)),
        Err(ExprError::Untyped) => Ok(false),
        Err(ExprError::NoMemory) => Err(NoMemory),
    }
}
