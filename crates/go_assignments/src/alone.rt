//! Calls and receives that stand alone.
ghost use Rattle.std.specs.Prelude.{◌≡◌, ◌<◌, ◌-◌, length, take, IfOk};
ghost use Rattle.go_assignments.specs.Simple.{CallsAlone, StandsAlone};
ghost use Rattle.go_assignments.specs.inner.Calls.{CallsAlong, EndsInCall, ImportedAlong, IsAlong, MayCall, is_call_of};
ghost use Rattle.go_rules.specs.Expressions.{HasPosts};
ghost use Rattle.go_selectors.specs.Answers.{Decides};
ghost use Rattle.go_statement_rules.specs.Assignments.{IsReceiveAlone, may_be_called_alone, shape_stands_alone, stands_alone};
ghost use Rattle.go_syntax.specs.declared.expression.Post.{out-Post};
ghost use Rattle.go_type_terms.specs.Answers.{Tells, env_in};

use go_asks::go_expr::typing::{type_expr, type_imported, type_post};
use go_asks::operands::operand;
use go_base::memory::NoMemory;
use go_base::operator::PrefixOperator;
use go_rules::operand::{Mode, Operand, Shape};
use go_rules::predeclared::Predeclared;
use go_syntax::expression::{Expr, Post};
use go_type_terms::error::ExprError;
use go_usability::context::Context;
use std::alloc::Global;

// What posts make of an operand.
fn along(
    context: &Context<'_>,
    alloc: Global,
    first: Operand,
    posts: &[Post],
) -> Result<Operand, ExprError>
    ensures { Tells (HasPosts (env_in context.now) first posts.now) result }
{
    let mut operand = first;
    for post in posts {
        let next = type_post(context, alloc, &operand, post)?;
        operand = next;
    }
    Ok(operand)
}

// What posts make of an object of an imported package.
fn imported_along(
    context: &Context<'_>,
    alloc: Global,
    expr: &Expr,
    posts: &[Post],
) -> Result<Operand, ExprError>
    ensures { Tells (ImportedAlong (env_in context.now) expr.now posts.now) result }
{
    match posts.first() {
        Some(post) => {
            let first = type_imported(context, alloc, expr, post)?;
            along(context, alloc, first, &posts[1..])
        }
        None => Err(ExprError::Untyped),
    }
}

// What an expression is with what follows it.
fn expr_along(
    context: &Context<'_>,
    alloc: Global,
    expr: &Expr,
    posts: &[Post],
) -> Result<Operand, ExprError>
    ensures { Tells (IsAlong (env_in context.now) expr.now posts.now) result }
{
    match type_expr(context, alloc, expr) {
        Ok(first) => along(context, alloc, first, posts),
        Err(ExprError::Untyped) => imported_along(context, alloc, expr, posts),
        Err(ExprError::NoMemory) => Err(ExprError::NoMemory),
    }
}

fn stands_alone(function: Predeclared) -> bool
    ensures { result ≡ stands_alone function }
{
    !matches!(
        function,
        Predeclared::Append
            | Predeclared::Cap
            | Predeclared::Len
            | Predeclared::Make
            | Predeclared::New
    )
}

fn shape_stands_alone(shape: &Shape) -> bool
    ensures { result ≡ shape_stands_alone shape.now }
{
    match shape {
        Shape::OfBuiltin(function) => stands_alone(*function),
        _ => true,
    }
}

// Whether a call of an operand is no conversion, and a statement.
fn may_be_called_alone(operand: &Operand) -> bool
    ensures { result ≡ may_be_called_alone operand.now.mode operand.now.shape }
{
    match operand.mode {
        Mode::TypeName => false,
        _ => shape_stands_alone(&operand.shape),
    }
}

// Whether a call of an expression with what follows it is a statement.
fn may_call(
    context: &Context<'_>,
    alloc: Global,
    expr: &Expr,
    posts: &[Post],
) -> Result<bool, NoMemory>
    ensures { IfOk result (λ answer. Decides answer (MayCall (env_in context.now) expr.now posts.now)) }
{
    match expr_along(context, alloc, expr, posts) {
        Ok(operand) => Ok(may_be_called_alone(&operand)),
        Err(ExprError::Untyped) => Ok(false),
        Err(ExprError::NoMemory) => Err(NoMemory),
    }
}

fn is_call(post: &Post) -> bool
    ensures { result ≡ is_call_of (out-Post post.now) }
{
    match post {
        Post::Selector(_) => false,
        Post::TypeAssertion(_) => false,
        Post::Index(_) => false,
        Post::Slice(_, _) => false,
        Post::FullSlice(_, _, _) => false,
        Post::Call(_, _) => true,
        Post::CallReceiveChan(_, _, _) => true,
    }
}

// All posts but the last.
fn without_last(posts: &[Post]) -> &[Post]
    requires { 0 < length posts.now }
    ensures { result.now ≡ take (length posts.now - 1) posts.now }
{
    &posts[..posts.len() - 1]
}

// Whether the last of what follows an expression is a call that is a statement.
fn ends_in_call(
    context: &Context<'_>,
    alloc: Global,
    expr: &Expr,
    posts: &[Post],
) -> Result<bool, NoMemory>
    ensures { IfOk result (λ answer. Decides answer (EndsInCall (env_in context.now) expr.now posts.now)) }
{
    match posts.last() {
        Some(last) => {
            if !is_call(last) {
                return Ok(false);
            }
            may_call(context, alloc, expr, without_last(posts))
        }
        None => Ok(false),
    }
}

// Whether an expression is a call that is a statement, parentheses aside.
#[cycle(calls_along)]
fn calls_along(context: &Context<'_>, alloc: Global, expr: &Expr) -> Result<bool, NoMemory>
    ensures { IfOk result (λ answer. Decides answer (CallsAlong (env_in context.now) expr.now)) }
{
    match expr {
        Expr::Primary(operand, posts) => {
            ends_in_call(context, alloc, operand.value(), posts.items())
        }
        Expr::Paren(inner) => calls_along(context, alloc, inner.value()),
        _ => Ok(false),
    }
}

// Whether an operator is `<-`.
fn is_receive(operator: PrefixOperator) -> bool
    ensures { Decides result (operator ≡ PrefixOperator.Receive) }
{
    matches!(operator, PrefixOperator::Receive)
}

// Whether an expression is a receive, parentheses aside.
#[cycle(is_receive_alone)]
fn is_receive_alone(expr: &Expr) -> bool
    ensures { Decides result (IsReceiveAlone expr.now) }
{
    match expr {
        Expr::Prefix(operator, _) => is_receive(*operator),
        Expr::Paren(inner) => is_receive_alone(inner.value()),
        _ => false,
    }
}

/// A call by itself, as behind `go` and `defer`. `Untyped` exactly where it is no typed one.
pub fn call_alone(context: &Context<'_>, alloc: Global, expr: &Expr) -> Result<(), ExprError>
    ensures { Tells (λ _. CallsAlone (env_in context.now) expr.now) result }
{
    let _whole = operand(context, alloc, expr)?;
    if !calls_along(context, alloc, expr)? {
        return Err(ExprError::Untyped);
    }
    Ok(())
}

/// An expression by itself: a call or a receive. `Untyped` exactly where it is no typed one.
pub fn alone(context: &Context<'_>, alloc: Global, expr: &Expr) -> Result<(), ExprError>
    ensures { Tells (λ _. StandsAlone (env_in context.now) expr.now) result }
{
    let _whole = operand(context, alloc, expr)?;
    if is_receive_alone(expr) {
        return Ok(());
    }
    if !calls_along(context, alloc, expr)? {
        return Err(ExprError::Untyped);
    }
    Ok(())
}
