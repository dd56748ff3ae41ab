//! What an expression and some of what follows it denote.
ghost use Rattle.go_inexact.specs.Chains.{IsChain, IsImportedChain};
ghost use Rattle.go_rules.specs.Expressions.{HasPosts};
ghost use Rattle.go_type_terms.specs.Answers.{Tells, env_in};

use go_expr::typing::{type_expr, type_imported, type_post};
use go_rules::operand::Operand;
use go_syntax::expression::{Expr, Post};
use go_type_terms::error::ExprError;
use go_usability::context::Context;
use std::alloc::Global;

// What posts make of an operand, one after another.
fn along(
    context: &Context<'_>,
    alloc: Global,
    first: Operand,
    posts: &[Post],
) -> Result<Operand, ExprError>
    ensures { Tells (HasPosts (env_in context.now) first posts.now) result }
{
    let mut operand = first;
    for post in posts {
        match type_post(context, alloc, &operand, post) {
            Ok(next) => operand = next,
            Err(ExprError::Untyped) => return Err(ExprError::Untyped),
            Err(ExprError::NoMemory) => return Err(ExprError::NoMemory),
        }
    }
    Ok(operand)
}

// The same where an expression and the first post name an object of an imported package.
fn imported_chain(
    context: &Context<'_>,
    alloc: Global,
    operand: &Expr,
    posts: &[Post],
) -> Result<Operand, ExprError>
    ensures { Tells (IsImportedChain (env_in context.now) operand.now posts.now) result }
{
    let post = match posts.first() {
        Some(post) => post,
        None => return Err(ExprError::Untyped),
    };
    match type_imported(context, alloc, operand, post) {
        Ok(first) => along(context, alloc, first, &posts[1..]),
        Err(ExprError::Untyped) => Err(ExprError::Untyped),
        Err(ExprError::NoMemory) => Err(ExprError::NoMemory),
    }
}

/// What an expression with these posts denotes.
pub(crate) fn chain_operand(
    context: &Context<'_>,
    alloc: Global,
    operand: &Expr,
    posts: &[Post],
) -> Result<Operand, ExprError>
    ensures { Tells (IsChain (env_in context.now) operand.now posts.now) result }
{
    match type_expr(context, alloc, operand) {
        Ok(first) => along(context, alloc, first, posts),
        Err(ExprError::Untyped) => imported_chain(context, alloc, operand, posts),
        Err(ExprError::NoMemory) => Err(ExprError::NoMemory),
    }
}
