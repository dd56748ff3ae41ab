//! What Go may take as a constant.
ghost use Rattle.std.specs.Prelude.{◌≡◌, IfOk};
ghost use Rattle.go_base.specs.Lists.{Each};
ghost use Rattle.go_exposed.specs.BeyondProfile.{MayBeConstant};
ghost use Rattle.go_inexact.specs.Maybe.{Follows, FollowsTree};
ghost use Rattle.go_inexact.specs.inner.Constants.{IsConstant};
ghost use Rattle.go_nodes.specs.Trees.{node_of, nodes_in};
ghost use Rattle.go_selectors.specs.Answers.{Decides};
ghost use Rattle.go_type_terms.specs.Answers.{env_in};

use crate::conversions::add_converted;
use crate::operated::is_operated;
use go_base::memory::NoMemory;
use go_expr::go_operators::values::constant_of;
use go_expr::typing::type_expr;
use go_nodes::tree::Tree;
use go_nodes::trees::Trees;
use go_syntax::expression::Expr;
use go_type_terms::error::ExprError;
use go_usability::context::Context;
use std::alloc::Global;

// Whether an expression is a constant by itself.
fn is_constant(context: &Context<'_>, alloc: Global, expr: &Expr) -> Result<bool, NoMemory>
    ensures { IfOk result (λ answer. Decides answer (IsConstant (env_in context.now) expr.now)) }
{
    match type_expr(context, alloc, expr) {
        Ok(operand) => Ok(constant_of(&operand).is_some()),
        Err(ExprError::Untyped) => Ok(false),
        Err(ExprError::NoMemory) => Err(NoMemory),
    }
}

// Adds to the trees all that has to be a constant for an expression to be one; false where it can't be one.
fn follow<'a>(
    context: &Context<'_>,
    alloc: Global,
    expr: &'a Expr,
    trees: &mut Trees<'a>,
) -> Result<bool, NoMemory>
    ensures { IfOk result (Follows (env_in context.now) expr.now (nodes_in trees.old) (nodes_in trees.new)) }
{
    let constant = is_constant(context, alloc, expr)?;
    if constant {
        return Ok(true);
    }
    if is_operated(expr) {
        trees.push_parts(Tree::Expr(expr))?;
        return Ok(true);
    }
    add_converted(context, alloc, expr, trees)
}

// The same of a tree, which is an expression.
fn follow_tree<'a>(
    context: &Context<'_>,
    alloc: Global,
    tree: Tree<'a>,
    trees: &mut Trees<'a>,
) -> Result<bool, NoMemory>
    ensures { IfOk result (FollowsTree (env_in context.now) (node_of tree.entry) (nodes_in trees.old) (nodes_in trees.new)) }
{
    match tree {
        Tree::Expr(expr) => follow(context, alloc, expr, trees),
        Tree::Post(_) => Ok(false),
        Tree::Value(_) => Ok(false),
        Tree::Type(_) => Ok(false),
        Tree::Signature(_) => Ok(false),
    }
}

/// Whether Go may take an expression as a constant: it is one, or made of such ones by operators, parentheses and conversions to basic
/// types.
pub(crate) fn may_be_constant(
    context: &Context<'_>,
    alloc: Global,
    expr: &Expr,
) -> Result<bool, NoMemory>
    ensures { IfOk result (λ answer. Decides answer (MayBeConstant (env_in context.now) expr.now)) }
{
    let mut trees = Trees::new(alloc);
    trees.push(Tree::Expr(expr))?;
    for _ in 0..usize::MAX {
        match trees.pop() {
            None => return Ok(true),
            Some(tree) => {
                let may = follow_tree(context, alloc, tree, &mut trees)?;
                if !may {
                    return Ok(false);
                }
            }
        }
    }
    Err(NoMemory)
}
