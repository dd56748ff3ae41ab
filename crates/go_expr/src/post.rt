//! One post after an operand: a selector, a type assertion, an index, a slice or a call.
ghost use Rattle.std.specs.Prelude.{◌∷◌, [], ◌++◌};
ghost use Rattle.go_calls.specs.go_elements.SliceExpressions.{HasWhere};
ghost use Rattle.go_rules.specs.Expressions.{HasPost};
ghost use Rattle.go_rules.specs.Nodes.{expression, optional, post as post_node, type as type_node};
ghost use Rattle.go_syntax.specs.declared.expression.Post.{Post-F, out-Post};
ghost use Rattle.go_literals.specs.go_type_terms.Answers.{Tells, Types, TypesBelow, env_in};

use crate::exprs::Exprs;
use go_base::boxed::Box;
use go_calls::go_elements::assertions::assertion;
use go_calls::go_elements::elements::index;
use go_calls::go_elements::selections::select;
use go_calls::go_elements::slices::{full_slice, slice};
use go_calls::go_usability::context::Context;
use go_literals::go_type_terms::error::ExprError;
use go_literals::go_type_terms::loud::either;
use go_literals::go_type_terms::part::{Answer, Part};
use go_rules::operand::Operand;
use go_syntax::expression::{Expr, Post};
use go_syntax::name::Name;
use go_syntax::types::Type;
use std::alloc::Global;

// A selector.
#[inline(never)]
fn selected(
    context: &Context<'_>,
    alloc: Global,
    operand: &Operand,
    name: &Name,
) -> Result<Operand, ExprError>
    ensures { Tells (HasPost (env_in context.now) operand.now (Post-F.Selector name.now)) result }
{
    match select(context, alloc, operand, name.text.bytes())? {
        Some(result) => Ok(result),
        None => Err(ExprError::Untyped),
    }
}

impl<'a, F: Fn(&Context<'_>, Global, usize, Part<'_>) -> Result<Answer, ExprError>> Exprs<'a, F> {
    // A type assertion.
    #[inline(never)]
    fn asserted(&self, operand: &Operand, form: &Type) -> Result<(Operand, bool), ExprError>
        requires { TypesBelow self.now.literals.operations.typing.context.now self.now.literals.operations.typing.height (F.pre self.now.literals.operations.typing.below) (F.post self.now.literals.operations.typing.below) }
        ensures { Types (env_in self.now.literals.operations.typing.context.now) (HasPost (env_in self.now.literals.operations.typing.context.now) operand.now (Post-F.TypeAssertion form.now)) (type_node form.now ∷ []) result }
    {
        let (term, loud) = self.literals.operations.typing.type_below(form)?;
        match assertion(
            self.literals.operations.typing.context,
            self.literals.operations.typing.alloc,
            operand,
            &term,
        )? {
            Some(result) => Ok((result, loud)),
            None => Err(ExprError::Untyped),
        }
    }

    // An index, or a key of a map.
    #[inline(never)]
    fn indexed(&self, operand: &Operand, expr: &Expr) -> Result<(Operand, bool), ExprError>
        requires { TypesBelow self.now.literals.operations.typing.context.now self.now.literals.operations.typing.height (F.pre self.now.literals.operations.typing.below) (F.post self.now.literals.operations.typing.below) }
        ensures { Types (env_in self.now.literals.operations.typing.context.now) (HasPost (env_in self.now.literals.operations.typing.context.now) operand.now (Post-F.Index expr.now)) (expression expr.now ∷ []) result }
    {
        let (at, loud) = self.literals.operations.typing.expr_below(expr)?;
        match index(
            self.literals.operations.typing.context,
            self.literals.operations.typing.alloc,
            operand,
            &at,
        )? {
            Some(result) => Ok((result, loud)),
            None => Err(ExprError::Untyped),
        }
    }

    // An index that may be left out.
    fn optional_index(&self, expr: &Option<Box<Expr>>) -> Result<(Option<Operand>, bool), ExprError>
        requires { TypesBelow self.now.literals.operations.typing.context.now self.now.literals.operations.typing.height (F.pre self.now.literals.operations.typing.below) (F.post self.now.literals.operations.typing.below) }
        ensures { Types (env_in self.now.literals.operations.typing.context.now) (HasWhere (env_in self.now.literals.operations.typing.context.now) expr.now) (optional expression expr.now) result }
    {
        match expr {
            Some(expr) => {
                let (operand, loud) = self.literals.operations.typing.expr_below(expr.value())?;
                Ok((Some(operand), loud))
            }
            None => Ok((None, false)),
        }
    }

    // A slice by two indices.
    #[inline(never)]
    fn sliced(
        &self,
        operand: &Operand,
        low: &Option<Box<Expr>>,
        high: &Option<Box<Expr>>,
    ) -> Result<(Operand, bool), ExprError>
        requires { TypesBelow self.now.literals.operations.typing.context.now self.now.literals.operations.typing.height (F.pre self.now.literals.operations.typing.below) (F.post self.now.literals.operations.typing.below) }
        ensures { Types (env_in self.now.literals.operations.typing.context.now) (HasPost (env_in self.now.literals.operations.typing.context.now) operand.now (Post-F.«Post::Slice» low.now high.now)) (optional expression low.now ++ optional expression high.now) result }
    {
        let (low, loud) = self.optional_index(low)?;
        let (high, louder) = self.optional_index(high)?;
        match slice(
            self.literals.operations.typing.context,
            self.literals.operations.typing.alloc,
            operand,
            low.as_ref(),
            high.as_ref(),
        )? {
            Some(result) => Ok((result, either(loud, louder))),
            None => Err(ExprError::Untyped),
        }
    }

    // A slice by three indices.
    #[inline(never)]
    fn fully_sliced(
        &self,
        operand: &Operand,
        low: &Option<Box<Expr>>,
        high: &Expr,
        bound: &Expr,
    ) -> Result<(Operand, bool), ExprError>
        requires { TypesBelow self.now.literals.operations.typing.context.now self.now.literals.operations.typing.height (F.pre self.now.literals.operations.typing.below) (F.post self.now.literals.operations.typing.below) }
        ensures { Types (env_in self.now.literals.operations.typing.context.now) (HasPost (env_in self.now.literals.operations.typing.context.now) operand.now (Post-F.FullSlice low.now high.now bound.now)) (optional expression low.now ++ expression high.now ∷ expression bound.now ∷ []) result }
    {
        let (low, at_low) = self.optional_index(low)?;
        let (high, at_high) = self.literals.operations.typing.expr_below(high)?;
        let (bound, at_bound) = self.literals.operations.typing.expr_below(bound)?;
        match full_slice(
            self.literals.operations.typing.context,
            self.literals.operations.typing.alloc,
            operand,
            low.as_ref(),
            &high,
            &bound,
        )? {
            Some(result) => Ok((result, either(at_low, either(at_high, at_bound)))),
            None => Err(ExprError::Untyped),
        }
    }

    /// One post after an operand.
    pub(crate) fn post(&self, operand: &Operand, post: &Post) -> Result<(Operand, bool), ExprError>
        requires { TypesBelow self.now.literals.operations.typing.context.now self.now.literals.operations.typing.height (F.pre self.now.literals.operations.typing.below) (F.post self.now.literals.operations.typing.below) }
        ensures { Types (env_in self.now.literals.operations.typing.context.now) (HasPost (env_in self.now.literals.operations.typing.context.now) operand.now (out-Post post.now)) (post_node post.now ∷ []) result }
    {
        match post {
            Post::Selector(name) => {
                let result = selected(
                    self.literals.operations.typing.context,
                    self.literals.operations.typing.alloc,
                    operand,
                    name,
                )?;
                Ok((result, false))
            }
            Post::TypeAssertion(form) => self.asserted(operand, form.value()),
            Post::Index(expr) => self.indexed(operand, expr.value()),
            Post::Slice(low, high) => self.sliced(operand, low, high),
            Post::FullSlice(low, high, bound) => {
                self.fully_sliced(operand, low, high.value(), bound.value())
            }
            Post::Call(exprs, dots) => self.call(operand, exprs.items(), *dots),
            Post::CallReceiveChan(element, exprs, dots) => {
                self.call_with_type(operand, element.value(), exprs.items(), *dots)
            }
        }
    }
}
