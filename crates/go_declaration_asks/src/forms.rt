//! What a declaration is asked by its kind.
ghost use Rattle.std.specs.Prelude.{IfOk, length};
ghost use Rattle.go_base.specs.Lists.{Each};
ghost use Rattle.go_declaration_asks.specs.inner.Told.{AsksTold, IsMethodTold};
ghost use Rattle.go_declaration_asks.specs.inner.Names.{IsFreeName};
ghost use Rattle.go_declarations.specs.Forms.{form_of};
ghost use Rattle.go_selectors.specs.Answers.{Decides};
ghost use Rattle.go_type_terms.specs.Answers.{env_in};
ghost use Rattle.go_typings.specs.DeclarationAsks.{ValuesFit};

use crate::base::Base;
use crate::methods::is_method_of;
use crate::reserved::{are_free, is_bare_where_special, is_free};
use crate::values::values_fit;
use go_base::memory::NoMemory;
use go_declarations::form::Form;
use go_syntax::declaration::Func;
use go_syntax::expression::Expr;
use go_syntax::name::Name;
use go_syntax::types::{ParameterDecl, Type};
use go_type_terms::go_usability::context::Context;
use std::alloc::Global;

// Whether variables meet what they are asked.
fn variables_meet(
    context: &Context<'_>,
    alloc: Global,
    package_name: &[u8],
    form: &Option<Type>,
    names: &[Name],
    values: &[Expr],
) -> Result<bool, NoMemory>
    ensures { IfOk result (λ answer. Decides answer (Each (IsFreeName package_name.now) names.now × ValuesFit (env_in context.now) form.now (length names.now) values.now)) }
{
    if !are_free(package_name, names) {
        return Ok(false);
    }
    let fit = values_fit(context, alloc, form, names.len(), values)?;
    Ok(fit)
}

// Whether a method is told of its type and meets what it is asked.
fn method_meets(
    context: &Context<'_>,
    alloc: Global,
    base: Option<Base<'_>>,
    receiver: &ParameterDecl,
    func: &Func,
) -> Result<bool, NoMemory>
    ensures { IfOk result (λ answer. Decides answer (IsMethodTold (env_in context.now) base.entry receiver.now func.now)) }
{
    match base {
        Some(base) => is_method_of(context.env, alloc, &base, receiver, func),
        None => Ok(false),
    }
}

/// Whether a declaration meets what it is asked by its kind.
pub(crate) fn form_meets(
    context: &Context<'_>,
    alloc: Global,
    package_name: &[u8],
    base: Option<Base<'_>>,
    form: Form<'_>,
) -> Result<bool, NoMemory>
    ensures { IfOk result (λ answer. Decides answer (AsksTold (env_in context.now) package_name.now base.entry (form_of form.entry))) }
{
    match form {
        Form::Constants(spec) => Ok(are_free(package_name, spec.names)),
        Form::Variables(spec) => variables_meet(
            context,
            alloc,
            package_name,
            &spec.type_,
            spec.names.items(),
            spec.values.items(),
        ),
        Form::Alias(spec) => Ok(is_free(package_name, &spec.name)),
        Form::Definition(spec) => Ok(is_free(package_name, &spec.name)),
        Form::Function(func) => Ok(is_bare_where_special(package_name, func)),
        Form::Method(receiver, func) => method_meets(context, alloc, base, receiver, func),
    }
}
