//! Which constants of a package have an inexact type.
ghost use Rattle.std.specs.Prelude.{◌≡◌, ◌≢◌, [], None, Some, length, IfOk};
ghost use Rattle.go_base.specs.Keys.{item_of};
ghost use Rattle.go_declarations.specs.Forms.{form_of, spec_of};
ghost use Rattle.go_declarations.specs.Listings.{declaration_of, declarations_of};
ghost use Rattle.go_exposed.specs.BeyondProfile.{GivesInexact, HoldsInexact};
ghost use Rattle.go_exposed.specs.Causes.{IsToldInexact};
ghost use Rattle.go_graphs.specs.Flags.{AreFlagsOf, is_flagged};
ghost use Rattle.go_inexact.specs.Values.{IsInexactForm};
ghost use Rattle.go_inexact.specs.inner.NoneLost.{NoneIsLost, IsInexactThere};
ghost use Rattle.go_model.specs.types.Terms.{error_type};
ghost use Rattle.go_package_scopes.specs.KeptScopes.{IsMoved};
ghost use Rattle.go_package_scopes.specs.PackageScopes.{IsScopeOf, at_declaration};
ghost use Rattle.go_rules.specs.Scopes.{env_of};
ghost use Rattle.go_selectors.specs.Answers.{Decides};
ghost use Rattle.go_sifting.specs.Graphs.{AreRows};
ghost use Rattle.go_soundness.specs.LostDeclarations.{Depends};
ghost use Rattle.go_type_terms.specs.Answers.{env_in};
ghost use Rattle.go_typings.specs.Declarations.{declarations as all_declarations};
ghost use Rattle.go_typings.specs.PackageEnvironments.{Entries};
ghost use Rattle.go_typings.specs.Sources.{PackageSource, Setting};

use crate::values::{are_values, are_values_of, is_inexact, one_is_inexact};
use go_base::list::List;
use go_base::memory::NoMemory;
use go_declarations::form::{Constants, Form};
use go_declarations::listing::Declaration;
use go_expr::typing::type_of;
use go_graphs::flags::flag;
use go_graphs::rows::row;
use go_model::types::package::Defined;
use go_package_scopes::laws::same_environment;
use go_rules::env::Env;
use go_selectors::lookup::error_type;
use go_syntax::types::Type;
use go_type_terms::error::ExprError;
use go_usability::context::Context;
use std::alloc::Global;

// Whether a spec with this type form gives it to its constants, and it is inexact.
fn gives_inexact(
    context: &Context<'_>,
    alloc: Global,
    form: &Type,
    constants: &Constants<'_>,
) -> Result<bool, NoMemory>
    requires { item_of constants.now.type_ ≡ Some form.now }
    ensures { IfOk result (λ answer. Decides answer (GivesInexact (env_in context.now) (spec_of constants.now))) }
{
    let counted = constants.names.len() == constants.values.len();
    if !counted {
        return Ok(false);
    }
    match type_of(context, alloc, form) {
        Err(ExprError::Untyped) => Ok(false),
        Err(ExprError::NoMemory) => Err(NoMemory),
        Ok(term) => {
            if !is_inexact(context, &term) {
                return Ok(false);
            }
            are_values_of(context, alloc, &term, constants.values)
        }
    }
}

// Whether a spec without a type has a value of an inexact type.
fn holds_inexact(
    context: &Context<'_>,
    alloc: Global,
    constants: &Constants<'_>,
) -> Result<bool, NoMemory>
    requires { item_of constants.now.type_ ≡ None }
    ensures { IfOk result (λ answer. Decides answer (HoldsInexact (env_in context.now) (spec_of constants.now))) }
{
    let counted = constants.names.len() == constants.values.len();
    if !counted {
        return Ok(false);
    }
    let values = are_values(context, alloc, constants.values)?;
    if !values {
        return Ok(false);
    }
    one_is_inexact(context, alloc, constants.values)
}

// Whether a declaration is of constants of an inexact type.
fn is_inexact_form(context: &Context<'_>, alloc: Global, form: Form<'_>) -> Result<bool, NoMemory>
    ensures { IfOk result (λ answer. Decides answer (IsInexactForm (env_in context.now) (form_of form.entry))) }
{
    match form {
        Form::Constants(constants) => match constants.type_ {
            Some(form) => gives_inexact(context, alloc, form, &constants),
            None => holds_inexact(context, alloc, &constants),
        },
        _ => Ok(false),
    }
}

// The same where a declaration stands.
fn is_inexact_there(
    env: &mut Env<'_>,
    alloc: Global,
    error: &Defined,
    declaration: &Declaration<'_>,
) -> Result<bool, NoMemory>
    requires { error.now ≡ error_type }
    ensures answer { IfOk result (λ answer. Decides answer (IsInexactForm (env_of (at_declaration env.old (declaration_of declaration.now))) (declaration_of declaration.now).form)) }
    ensures moved { IsMoved env.old env.new }
{
    env.turn_to(declaration.file);
    env.set_iota(declaration.form.iota());
    let context = Context::new(env, error);
    is_inexact_form(&context, alloc, declaration.form)
}

// Whether none of these numbers is lost.
fn none_lost(lost: &[bool], row: &[u32]) -> bool
    ensures { Decides result (NoneIsLost lost.now row.now) }
{
    for number in row {
        if flag(lost, *number as usize) {
            return false;
        }
    }
    true
}

// Whether a declaration is of constants of an inexact type where it stands, and none of its row is lost.
fn counts(
    env: &mut Env<'_>,
    alloc: Global,
    error: &Defined,
    declaration: &Declaration<'_>,
    row: &[u32],
    lost: &[bool],
) -> Result<bool, NoMemory>
    requires { error.now ≡ error_type }
    ensures answer { IfOk result (λ answer. Decides answer (NoneIsLost lost.now row.now × IsInexactForm (env_of (at_declaration env.old (declaration_of declaration.now))) (declaration_of declaration.now).form)) }
    ensures moved { IsMoved env.old env.new }
{
    if !none_lost(lost, row) {
        return Ok(false);
    }
    is_inexact_there(env, alloc, error, declaration)
}

// Flags of these.
fn flags_there(
    env: &mut Env<'_>,
    alloc: Global,
    error: &Defined,
    declarations: &[Declaration<'_>],
    depends: &[List<u32>],
    lost: &[bool],
) -> Result<Vec<bool>, NoMemory>
    requires { error.now ≡ error_type }
    ensures flags { IfOk result (λ flags. AreFlagsOf (length declarations.now) (IsInexactThere env.old (declarations_of declarations.now) depends.now lost.now) flags.items) }
    ensures moved { IsMoved env.old env.new }
{
    let mut flags = Vec::new(alloc);
    for number in 0..declarations.len() {
        match counts(
            env,
            alloc,
            error,
            &declarations[number],
            row(depends, number),
            lost,
        ) {
            Err(fault) => return Err(fault),
            Ok(counts) => flags.push(counts)?,
        }
    }
    Ok(flags)
}

/// Flags of the declarations of a package that are of constants of an inexact type and depend on none that is lost, where the scopes have
/// what is had of the package and the rows have those on which each declaration depends. The file in turn and the value of `iota` change.
pub fn inexact_constants(
    alloc: Global,
    env: &mut Env<'_>,
    declarations: &[Declaration<'_>],
    depends: &[List<u32>],
    lost: &[bool],
) -> Result<Vec<bool>, NoMemory>
    ensures flags { (s : Setting) (u : PackageSource) (a : Entries) → all_declarations u ≡ declarations_of declarations.now → u.path ≢ [] → IsScopeOf s u a env.old → AreRows s u a (Depends s u a) depends.now
        → IfOk result (λ flags. AreFlagsOf (length (all_declarations u)) (IsToldInexact s u a (is_flagged lost.now)) flags.items) }
    ensures moved { IsMoved env.old env.new }
{
    same_environment();
    let error = match error_type(alloc) {
        Ok(error) => error,
        Err(fault) => return Err(fault),
    };
    flags_there(env, alloc, &error, declarations, depends, lost)
}
