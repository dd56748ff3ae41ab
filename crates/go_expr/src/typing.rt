//! What expressions are, and which types and signatures are written, in the environment of a context.
ghost use Rattle.go_expr.specs.Chains.{Makes, NamesImported};
ghost use Rattle.go_rules.specs.Expressions.{Has, OfSignature, OfType};
ghost use Rattle.go_syntax.specs.declared.types.Signature.{out-Signature};
ghost use Rattle.go_literals.specs.go_type_terms.Answers.{Tells, env_in};

use crate::imports::imported_name;
use crate::levels::{below, step_below};
use crate::primary::imported_within;
use go_calls::go_usability::context::Context;
use go_literals::go_type_terms::error::ExprError;
use go_literals::go_type_terms::part::{Answer, Part};
use go_literals::go_type_terms::typing::Typing;
use go_model::types::term::{Signature as Signed, Term};
use go_rules::operand::Operand;
use go_syntax::expression::{Expr, Post};
use go_syntax::types::{Signature, Type};
use std::alloc::Global;

// More than how deep a tree of the parser's goes.
const HEIGHT: usize = 8_192;

/// What an expression is in the environment of a context. `Untyped` exactly where the rules give it no operand.
pub fn type_expr(context: &Context<'_>, alloc: Global, expr: &Expr) -> Result<Operand, ExprError>
    ensures { Tells (Has (env_in context.now) expr.now) result }
{
    match below(context, alloc, HEIGHT, Part::Expr(expr))? {
        Answer::Operand(operand, _) => Ok(operand),
        _ => Err(ExprError::NoMemory),
    }
}

/// The type for which a type form stands in the environment of a context. `Untyped` exactly where the rules give it none.
pub fn type_of(context: &Context<'_>, alloc: Global, form: &Type) -> Result<Term, ExprError>
    ensures { Tells (OfType (env_in context.now) form.now) result }
{
    match below(context, alloc, HEIGHT, Part::Type(form))? {
        Answer::Type(term, _) => Ok(term),
        _ => Err(ExprError::NoMemory),
    }
}

/// The signature of parameters and a result in the environment of a context. `Untyped` exactly where the rules give them none.
pub fn signature_of(
    context: &Context<'_>,
    alloc: Global,
    signature: &Signature,
) -> Result<Signed, ExprError>
    ensures { Tells (OfSignature (env_in context.now) (out-Signature signature.now).parameters (out-Signature signature.now).result) result }
{
    let typing = Typing {
        context,
        alloc,
        height: HEIGHT,
        below,
    };
    let (signed, _) = typing.signature(signature)?;
    Ok(signed)
}

/// What a post makes of an operand in the environment of a context. `Untyped` exactly where the rules let it make nothing.
pub fn type_post(
    context: &Context<'_>,
    alloc: Global,
    operand: &Operand,
    post: &Post,
) -> Result<Operand, ExprError>
    ensures { Tells (Makes (env_in context.now) operand.now post.now) result }
{
    let (next, _) = step_below(context, alloc, HEIGHT, operand, post)?;
    Ok(next)
}

/// The object of an imported package that an expression and a selector after it name. `Untyped` exactly where
/// they name none.
pub fn type_imported(
    context: &Context<'_>,
    alloc: Global,
    expr: &Expr,
    post: &Post,
) -> Result<Operand, ExprError>
    ensures { Tells (NamesImported (env_in context.now) expr.now post.now) result }
{
    match imported_name(context, expr, post) {
        Some((package, name)) => imported_within(context, alloc, package, name),
        None => Err(ExprError::Untyped),
    }
}
