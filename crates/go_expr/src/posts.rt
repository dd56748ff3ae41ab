//! What follows an operand.
ghost use Rattle.std.specs.Prelude.{◌≡◌, ◌∷◌, []};
ghost use Rattle.go_expr.specs.Posts.{PostsTyped, StepTyped, is_call, is_loud_call};
ghost use Rattle.go_rules.specs.Expressions.{is_constant, is_type};
ghost use Rattle.go_syntax.specs.declared.expression.Post.{out-Post};
ghost use Rattle.go_literals.specs.go_type_terms.Answers.{TypesBelow, env_in};

use crate::bounds::is_within;
use crate::exprs::Exprs;
use go_calls::go_usability::context::Context;
use go_literals::go_type_terms::error::ExprError;
use go_literals::go_type_terms::loud::either;
use go_literals::go_type_terms::part::{Answer, Part};
use go_rules::operand::{Mode, Operand};
use go_syntax::expression::Post;
use std::alloc::Global;

fn is_call(post: &Post) -> bool
    ensures { result ≡ is_call (out-Post post.now) }
{
    match post {
        Post::Selector(_) => false,
        Post::TypeAssertion(_) => false,
        Post::Index(_) => false,
        Post::Slice(_, _) => false,
        Post::FullSlice(_, _, _) => false,
        Post::Call(_, _) => true,
        Post::CallReceiveChan(_, _, _) => true,
    }
}

fn is_type(mode: Mode) -> bool
    ensures { result ≡ is_type mode }
{
    matches!(mode, Mode::TypeName)
}

fn is_constant(mode: Mode) -> bool
    ensures { result ≡ is_constant mode }
{
    matches!(mode, Mode::Constant)
}

// Whether a post is a call that is neither a conversion nor constant.
fn is_loud_call(operand: &Operand, post: &Post, next: &Operand) -> bool
    ensures { result ≡ is_loud_call operand.now (out-Post post.now) next.now }
{
    if !is_call(post) {
        return false;
    }
    if is_type(operand.mode) {
        return false;
    }
    !is_constant(next.mode)
}

impl<'a, F: Fn(&Context<'_>, Global, usize, Part<'_>) -> Result<Answer, ExprError>> Exprs<'a, F> {
    /// One post, within bounds; the flag tells of the parts and the post itself.
    pub(crate) fn step(&self, operand: &Operand, post: &Post) -> Result<(Operand, bool), ExprError>
        requires { TypesBelow self.now.literals.operations.typing.context.now self.now.literals.operations.typing.height (F.pre self.now.literals.operations.typing.below) (F.post self.now.literals.operations.typing.below) }
        ensures { StepTyped (env_in self.now.literals.operations.typing.context.now) operand.now post.now result }
    {
        let (next, loud) = self.post(operand, post)?;
        if !is_within(&next) {
            return Err(ExprError::Untyped);
        }
        let louder = is_loud_call(operand, post, &next);
        Ok((next, either(loud, louder)))
    }

    /// What follows an operand.
    pub(crate) fn posts(&self, first: Operand, posts: &[Post]) -> Result<(Operand, bool), ExprError>
        requires { TypesBelow self.now.literals.operations.typing.context.now self.now.literals.operations.typing.height (F.pre self.now.literals.operations.typing.below) (F.post self.now.literals.operations.typing.below) }
        ensures { PostsTyped (env_in self.now.literals.operations.typing.context.now) first posts.now result }
    {
        let mut operand = first;
        let mut loud = false;
        for post in posts {
            let (next, louder) = self.step(&operand, post)?;
            operand = next;
            loud = either(loud, louder);
        }
        Ok((operand, loud))
    }
}
