//! Names of imported packages before a selector.
ghost use Rattle.std.specs.Prelude.{◌≡◌};
ghost use Rattle.go_base.specs.Keys.{item_of};
ghost use Rattle.go_expr.specs.Imports.{IsQualified, names_of};
ghost use Rattle.go_syntax.specs.declared.expression.Expr.{Expr-F, out-Expr};
ghost use Rattle.go_syntax.specs.declared.expression.Post.{Post-F, out-Post};
ghost use Rattle.go_literals.specs.go_type_terms.Answers.{env_in};
ghost use Rattle.go_calls.specs.go_usability.Answers.{Gives};

use go_calls::go_usability::context::Context;
use go_literals::go_operations::names::names_import;
use go_syntax::expression::{Expr, Post};
use go_syntax::name::Name;

// The name that an expression is.
fn name_alone(expr: &Expr) -> Option<&Name>
    ensures { Gives (λ n. out-Expr expr.now ≡ Expr-F.Name n) (item_of result) }
{
    match expr {
        Expr::Name(name) => Some(name),
        _ => None,
    }
}

// The name that a post selects.
fn selector_alone(post: &Post) -> Option<&Name>
    ensures { Gives (λ n. out-Post post.now ≡ Post-F.Selector n) (item_of result) }
{
    match post {
        Post::Selector(name) => Some(name),
        _ => None,
    }
}

/// The name of an imported package that an operand is, where a post selects a name, and that name.
pub(crate) fn imported_name<'p>(
    context: &Context<'_>,
    operand: &'p Expr,
    post: &'p Post,
) -> Option<(&'p Name, &'p Name)>
    ensures { Gives (IsQualified (env_in context.now) operand.now post.now) (names_of result) }
{
    let package = match name_alone(operand) {
        Some(name) => name,
        None => return None,
    };
    if !names_import(context, package) {
        return None;
    }
    match selector_alone(post) {
        Some(name) => Some((package, name)),
        None => None,
    }
}
