//! What expressions are, and which types and signatures are written, together with all that is asked in them.
ghost use Rattle.go_asks.specs.Signatures.{IsSignature};
ghost use Rattle.go_rules.specs.Asks.{HasOperand, IsType};
ghost use Rattle.go_type_terms.specs.Answers.{Tells, env_in};

use crate::meets::meets;
use go_expr::go_usability::context::Context;
use go_expr::typing::{signature_of, type_expr, type_of};
use go_model::types::term::{Signature as Signed, Term};
use go_nodes::tree::Tree;
use go_rules::operand::Operand;
use go_syntax::expression::Expr;
use go_syntax::types::{Signature, Type};
use go_type_terms::error::ExprError;
use std::alloc::Global;

/// The operand of an expression in which all that is asked is met. `Untyped` exactly where there is none.
pub fn operand(context: &Context<'_>, alloc: Global, expr: &Expr) -> Result<Operand, ExprError>
    ensures { Tells (HasOperand (env_in context.now) expr.now) result }
{
    let operand = type_expr(context, alloc, expr)?;
    if !meets(context, alloc, Tree::Expr(expr))? {
        return Err(ExprError::Untyped);
    }
    Ok(operand)
}

/// The type for which a type form stands in which all that is asked is met. `Untyped` exactly where there is none.
pub fn form_type(context: &Context<'_>, alloc: Global, form: &Type) -> Result<Term, ExprError>
    ensures { Tells (IsType (env_in context.now) form.now) result }
{
    let term = type_of(context, alloc, form)?;
    if !meets(context, alloc, Tree::Type(form))? {
        return Err(ExprError::Untyped);
    }
    Ok(term)
}

/// The signature of parameters and a result in which all that is asked is met. `Untyped` exactly where there is none.
pub fn signature(
    context: &Context<'_>,
    alloc: Global,
    written: &Signature,
) -> Result<Signed, ExprError>
    ensures { Tells (IsSignature (env_in context.now) written.now) result }
{
    let signed = signature_of(context, alloc, written)?;
    if !meets(context, alloc, Tree::Signature(written))? {
        return Err(ExprError::Untyped);
    }
    Ok(signed)
}
