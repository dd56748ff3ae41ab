//! The typing of a tree, over that of its parts.
ghost use Rattle.std.specs.Prelude.{◌≡◌, [], ◌∷◌};
ghost use Rattle.go_rules.specs.Expressions.{Has, HasElements, OfType};
ghost use Rattle.go_rules.specs.Nodes.{expression, type as type_node, element_parts};
ghost use Rattle.go_type_terms.specs.Answers.{Holds, Types, TypesBelow, env_in};

use crate::error::ExprError;
use crate::part::{Answer, Part};
use go_model::types::term::Term;
use go_rules::operand::Operand;
use go_syntax::expression::{Element, Expr};
use go_syntax::types::Type;
use go_usability::context::Context;
use std::alloc::Global;

/// What types trees whose parts have at most this height, over what types the parts.
#[derive(Clone, Copy)]
pub struct Typing<'a, F> {
    pub context: &'a Context<'a>,
    pub alloc: Global,
    pub height: usize,
    pub below: F,
}

impl<'a, F: Fn(&Context<'_>, Global, usize, Part<'_>) -> Result<Answer, ExprError>> Typing<'a, F> {
    /// What an expression below is, and whether a receive stands in it, or a call that is neither a conversion nor
    /// constant; `Untyped` exactly where it has no operand.
    pub fn expr_below(&self, expr: &Expr) -> Result<(Operand, bool), ExprError>
        requires { TypesBelow self.now.context.now self.now.height (F.pre self.now.below) (F.post self.now.below) }
        ensures { Types (env_in self.now.context.now) (Has (env_in self.now.context.now) expr.now) (expression expr.now ∷ []) result }
    {
        match (self.below)(self.context, self.alloc, self.height, Part::Expr(expr))? {
            Answer::Operand(operand, loud) => Ok((operand, loud)),
            _ => Err(ExprError::Untyped),
        }
    }

    /// The type that a type form below stands for, and the same flag; `Untyped` exactly where it stands for none.
    pub fn type_below(&self, form: &Type) -> Result<(Term, bool), ExprError>
        requires { TypesBelow self.now.context.now self.now.height (F.pre self.now.below) (F.post self.now.below) }
        ensures { Types (env_in self.now.context.now) (OfType (env_in self.now.context.now) form.now) (type_node form.now ∷ []) result }
    {
        match (self.below)(self.context, self.alloc, self.height, Part::Type(form))? {
            Answer::Type(term, loud) => Ok((term, loud)),
            _ => Err(ExprError::Untyped),
        }
    }

    /// The same flag of elements below; `Untyped` exactly where they are not those of a literal of the type.
    pub fn elements_below(&self, term: &Term, elements: &[Element]) -> Result<bool, ExprError>
        requires { TypesBelow self.now.context.now self.now.height (F.pre self.now.below) (F.post self.now.below) }
        ensures { Holds (env_in self.now.context.now) (HasElements (env_in self.now.context.now) term.now elements.now) (element_parts elements.now) result }
    {
        match (self.below)(
            self.context,
            self.alloc,
            self.height,
            Part::Elements(term, elements),
        )? {
            Answer::Elements(loud) => Ok(loud),
            _ => Err(ExprError::Untyped),
        }
    }
}
