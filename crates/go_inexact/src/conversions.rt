//! Conversions to basic types.
ghost use Rattle.std.specs.Prelude.{◌≡◌, ◌++◌, ◌∷◌, [], IfOk, MatchOption};
ghost use Rattle.go_inexact.specs.Chains.{Converts, HasArgument, IsTypeForm, NamesBasic};
ghost use Rattle.go_inexact.specs.inner.Added.{AddsArgument, AddsConverted};
ghost use Rattle.go_nodes.specs.Trees.{nodes_in};
ghost use Rattle.go_selectors.specs.Answers.{Decides};
ghost use Rattle.go_syntax.specs.declared.expression.Expr.{Expr as Syntax};
ghost use Rattle.go_type_terms.specs.Answers.{env_in};

use crate::chains::chain_operand;
use go_base::memory::NoMemory;
use go_expr::go_operators::levels::basic_under;
use go_expr::go_operators::values::type_in;
use go_nodes::tree::Tree;
use go_nodes::trees::Trees;
use go_syntax::expression::{Expr, Post};
use go_type_terms::error::ExprError;
use go_usability::context::Context;
use std::alloc::Global;

fn only(exprs: &[Expr]) -> Option<&Expr>
    ensures { MatchOption result ((x : Syntax) → exprs.now ≡ x ∷ [] → ⊥) (λ x. exprs.now ≡ x.now ∷ []) }
{
    if exprs.len() == 1 {
        return Some(&exprs[0]);
    }
    None
}

// The argument of a call with one, unless it is a type by its form.
fn argument(post: &Post) -> Option<&Expr>
    ensures { HasArgument post.now result }
{
    match post {
        Post::Call(arguments, dots) => {
            if *dots {
                return None;
            }
            only(arguments.items())
        }
        _ => None,
    }
}

// Whether an expression with these posts is a type that is basic underneath.
fn names_basic(
    context: &Context<'_>,
    alloc: Global,
    operand: &Expr,
    posts: &[Post],
) -> Result<bool, NoMemory>
    ensures { IfOk result (λ answer. Decides answer (NamesBasic (env_in context.now) operand.now posts.now)) }
{
    match chain_operand(context, alloc, operand, posts) {
        Ok(found) => match type_in(&found) {
            Some(term) => Ok(basic_under(context, term).is_some()),
            None => Ok(false),
        },
        Err(ExprError::Untyped) => Ok(false),
        Err(ExprError::NoMemory) => Err(NoMemory),
    }
}

// The same of an operand with what follows it.
fn add_of<'a>(
    context: &Context<'_>,
    alloc: Global,
    operand: &Expr,
    posts: &'a [Post],
    trees: &mut Trees<'a>,
) -> Result<bool, NoMemory>
    ensures { IfOk result (AddsArgument (env_in context.now) operand.now posts.now (nodes_in trees.old) (nodes_in trees.new)) }
{
    if posts.is_empty() {
        return Ok(false);
    }
    let last = posts.len() - 1;
    match argument(&posts[last]) {
        None => Ok(false),
        Some(argument) => {
            let basic = names_basic(context, alloc, operand, &posts[..last])?;
            if !basic {
                return Ok(false);
            }
            trees.push(Tree::Expr(argument))?;
            Ok(true)
        }
    }
}

/// Adds to the trees what an expression converts to a type that is basic underneath, and says whether it does.
pub(crate) fn add_converted<'a>(
    context: &Context<'_>,
    alloc: Global,
    expr: &'a Expr,
    trees: &mut Trees<'a>,
) -> Result<bool, NoMemory>
    ensures { IfOk result (AddsConverted (env_in context.now) expr.now (nodes_in trees.old) (nodes_in trees.new)) }
{
    match expr {
        Expr::Primary(operand, posts) => {
            add_of(context, alloc, operand.value(), posts.items(), trees)
        }
        _ => Ok(false),
    }
}
