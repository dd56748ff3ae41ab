//! An operand and what follows it.
ghost use Rattle.std.specs.Prelude.{◌≡◌, ◌∷◌, []};
ghost use Rattle.go_expr.specs.Imports.{ImportedWithin};
ghost use Rattle.go_expr.specs.Posts.{QualifiedTyped, UnqualifiedTyped};
ghost use Rattle.go_rules.specs.Expressions.{HasForm};
ghost use Rattle.go_rules.specs.Nodes.{expression};
ghost use Rattle.go_syntax.specs.declared.expression.Expr.{Expr, Expr-F, out-Expr};
ghost use Rattle.go_literals.specs.go_type_terms.Answers.{Tells, Types, TypesBelow, env_in};

use crate::bounds::is_within;
use crate::exprs::Exprs;
use crate::imports::imported_name;
use go_calls::go_usability::context::Context;
use go_literals::go_operations::names::imported;
use go_literals::go_type_terms::error::ExprError;
use go_literals::go_type_terms::loud::either;
use go_literals::go_type_terms::part::{Answer, Part};
use go_rules::operand::Operand;
use go_syntax::expression::{Expr, Post};
use go_syntax::name::Name;
use std::alloc::Global;

/// What a name of an imported package denotes, within bounds.
pub(crate) fn imported_within(
    context: &Context<'_>,
    alloc: Global,
    package: &Name,
    name: &Name,
) -> Result<Operand, ExprError>
    ensures { Tells (ImportedWithin (env_in context.now) «package».now name.now) result }
{
    let operand = imported(context, alloc, package, name)?;
    if !is_within(&operand) {
        return Err(ExprError::Untyped);
    }
    Ok(operand)
}

impl<'a, F: Fn(&Context<'_>, Global, usize, Part<'_>) -> Result<Answer, ExprError>> Exprs<'a, F> {
    // A name of an imported package, and what follows it.
    fn qualified(
        &self,
        package: &Name,
        name: &Name,
        posts: &[Post],
    ) -> Result<(Operand, bool), ExprError>
        requires { TypesBelow self.now.literals.operations.typing.context.now self.now.literals.operations.typing.height (F.pre self.now.literals.operations.typing.below) (F.post self.now.literals.operations.typing.below) }
        ensures { QualifiedTyped (env_in self.now.literals.operations.typing.context.now) «package».now name.now posts.now result }
    {
        let first = imported_within(
            self.literals.operations.typing.context,
            self.literals.operations.typing.alloc,
            package,
            name,
        )?;
        self.posts(first, posts)
    }

    // An operand and what follows it.
    fn unqualified(&self, operand: &Expr, posts: &[Post]) -> Result<(Operand, bool), ExprError>
        requires { TypesBelow self.now.literals.operations.typing.context.now self.now.literals.operations.typing.height (F.pre self.now.literals.operations.typing.below) (F.post self.now.literals.operations.typing.below) }
        ensures { UnqualifiedTyped (env_in self.now.literals.operations.typing.context.now) operand.now posts.now result }
    {
        let (first, loud) = self.literals.operations.typing.expr_below(operand)?;
        let (result, louder) = self.posts(first, posts)?;
        Ok((result, either(loud, louder)))
    }

    /// An operand and what follows it.
    pub(crate) fn primary(
        &self,
        operand: &Expr,
        posts: &[Post],
    ) -> Result<(Operand, bool), ExprError>
        requires { TypesBelow self.now.literals.operations.typing.context.now self.now.literals.operations.typing.height (F.pre self.now.literals.operations.typing.below) (F.post self.now.literals.operations.typing.below) }
        ensures { (e : Expr) → out-Expr e ≡ Expr-F.Primary operand.now posts.now → Types (env_in self.now.literals.operations.typing.context.now) (HasForm (env_in self.now.literals.operations.typing.context.now) (Expr-F.Primary operand.now posts.now)) (expression e ∷ []) result }
    {
        let post = match posts.first() {
            Some(post) => post,
            None => return self.unqualified(operand, posts),
        };
        match imported_name(self.literals.operations.typing.context, operand, post) {
            Some((package, name)) => self.qualified(package, name, &posts[1..]),
            None => self.unqualified(operand, posts),
        }
    }
}
