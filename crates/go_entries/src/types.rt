//! Aliases and defined types.
ghost use Rattle.std.specs.Prelude.{◌≡◌, ◌&&◌};
ghost use Rattle.go_entries.specs.inner.Types.{IsAliasOf, IsDefinitionOf, IsUnderneath, MayBeUnderneath};
ghost use Rattle.go_model.specs.declared.types.term.Term.{out-Term};
ghost use Rattle.go_selectors.specs.Answers.{Decides};
ghost use Rattle.go_type_terms.specs.Answers.{Tells, env_in};
ghost use Rattle.go_typings.specs.DeclarationRules.{is_name, is_struct_or_interface};

use go_base::list::List;
use go_expr::go_usability::context::Context;
use go_expr::typing::type_of;
use go_model::types::package::Entity;
use go_model::types::term::Term;
use go_syntax::types::Type;
use go_type_terms::error::ExprError;
use std::alloc::Global;

// Whether a type is a name.
fn is_name(term: &Term) -> bool
    ensures { result ≡ is_name (out-Term term.now) }
{
    matches!(term, Term::Named(_))
}

// Whether a type is a struct or an interface.
fn is_struct_or_interface(term: &Term) -> bool
    ensures { result ≡ is_struct_or_interface (out-Term term.now) }
{
    matches!(term, Term::Struct(_) | Term::Interface(_))
}

// Whether a type may be that underneath a defined type, where structs and interfaces may be barred.
fn may_be_underneath(barred: bool, term: &Term) -> bool
    ensures { Decides result (MayBeUnderneath barred (out-Term term.now)) }
{
    if is_name(term) {
        return false;
    }
    if barred {
        return !is_struct_or_interface(term);
    }
    true
}

// The type underneath one by which a type is defined.
fn underneath(
    context: &Context<'_>,
    alloc: Global,
    barred: bool,
    term: &Term,
) -> Result<Term, ExprError>
    ensures { Tells (IsUnderneath (env_in context.now) barred term.now) result }
{
    let under = context.under(term);
    if !may_be_underneath(barred, under) {
        return Err(ExprError::Untyped);
    }
    let copied = under.copy(alloc)?;
    Ok(copied)
}

// Whether a client of the profile defines a type by the name of another package.
fn is_barred(context: &Context<'_>, qualified: bool) -> bool
    ensures { result ≡ ((env_in context.now).profile && qualified) }
{
    context.env.is_profile() && qualified
}

/// The type underneath one that is defined by a form; `Untyped` exactly where there is none. It is told whether the form
/// is a name of another package: by one that stands for a struct or an interface a client of the profile defines no type.
pub(crate) fn definition(
    context: &Context<'_>,
    alloc: Global,
    form: &Type,
    qualified: bool,
) -> Result<Term, ExprError>
    ensures { Tells (IsDefinitionOf (env_in context.now) qualified form.now) result }
{
    let term = type_of(context, alloc, form)?;
    underneath(context, alloc, is_barred(context, qualified), &term)
}

/// What an alias denotes; `Untyped` exactly where it denotes nothing.
pub(crate) fn alias(
    context: &Context<'_>,
    alloc: Global,
    form: &Type,
) -> Result<List<Entity>, ExprError>
    ensures { Tells (IsAliasOf (env_in context.now) form.now) result }
{
    let term = type_of(context, alloc, form)?;
    let mut objects = List::new(alloc);
    objects.push(Entity::TypeOf(term))?;
    Ok(objects)
}
