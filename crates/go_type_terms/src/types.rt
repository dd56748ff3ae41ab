//! Type forms.
ghost use Rattle.std.specs.Prelude.{[], ◌∷◌};
ghost use Rattle.go_rules.specs.Expressions.{OfForm, OfType};
ghost use Rattle.go_rules.specs.Nodes.{expression, type as type_node, type_parts};
ghost use Rattle.go_syntax.specs.declared.types.«Type».{«Type-F» as Typ-F, «out-Type» as out-Typ};
ghost use Rattle.go_type_terms.specs.Answers.{Types, TypesBelow, env_in};
ghost use Rattle.go_type_terms.specs.Results.{IsChannelOf};

use crate::error::ExprError;
use crate::lengths::array_length;
use crate::loud::either;
use crate::part::{Answer, Part};
use crate::type_names::type_named;
use crate::typing::Typing;
use go_base::shared::Shared;
use go_model::types::bounds::is_within_bounds;
use go_model::types::term::{Direction, Term};
use go_syntax::expression::Expr;
use go_syntax::name::QualifiedName;
use go_syntax::types::Type;
use go_usability::context::Context;
use std::alloc::Global;

impl<'a, F: Fn(&Context<'_>, Global, usize, Part<'_>) -> Result<Answer, ExprError>> Typing<'a, F> {
    /// The type that a type form below stands for, in a box, and the form's flag; `Untyped` exactly where it
    /// stands for none.
    pub fn boxed_below(&self, form: &Type) -> Result<(Shared<Term>, bool), ExprError>
        requires { TypesBelow self.now.context.now self.now.height (F.pre self.now.below) (F.post self.now.below) }
        ensures { Types (env_in self.now.context.now) (OfType (env_in self.now.context.now) form.now) (type_node form.now ∷ []) result }
    {
        let (term, loud) = self.type_below(form)?;
        Ok((Shared::new(self.alloc, term)?, loud))
    }

    fn named(&self, name: &QualifiedName) -> Result<(Term, bool), ExprError>
        ensures { Types (env_in self.now.context.now) (OfForm (env_in self.now.context.now) (Typ-F.«Type::Named» name.now)) [] result }
    {
        let term = type_named(self.context, self.alloc, name)?;
        Ok((term, false))
    }

    fn parenthesized(&self, inner: &Type) -> Result<(Term, bool), ExprError>
        requires { TypesBelow self.now.context.now self.now.height (F.pre self.now.below) (F.post self.now.below) }
        ensures { Types (env_in self.now.context.now) (OfForm (env_in self.now.context.now) (Typ-F.«Type::Paren» inner.now)) (type_node inner.now ∷ []) result }
    {
        let (term, loud) = self.type_below(inner)?;
        Ok((term, loud))
    }

    fn pointer(&self, base: &Type) -> Result<(Term, bool), ExprError>
        requires { TypesBelow self.now.context.now self.now.height (F.pre self.now.below) (F.post self.now.below) }
        ensures { Types (env_in self.now.context.now) (OfForm (env_in self.now.context.now) (Typ-F.Pointer base.now)) (type_node base.now ∷ []) result }
    {
        let (base, loud) = self.boxed_below(base)?;
        Ok((Term::Pointer(base), loud))
    }

    fn slice(&self, element: &Type) -> Result<(Term, bool), ExprError>
        requires { TypesBelow self.now.context.now self.now.height (F.pre self.now.below) (F.post self.now.below) }
        ensures { Types (env_in self.now.context.now) (OfForm (env_in self.now.context.now) (Typ-F.«Type::Slice» element.now)) (type_node element.now ∷ []) result }
    {
        let (element, loud) = self.boxed_below(element)?;
        Ok((Term::Slice(element), loud))
    }

    fn array(&self, length: &Expr, element: &Type) -> Result<(Term, bool), ExprError>
        requires { TypesBelow self.now.context.now self.now.height (F.pre self.now.below) (F.post self.now.below) }
        ensures { Types (env_in self.now.context.now) (OfForm (env_in self.now.context.now) (Typ-F.Array length.now element.now)) (expression length.now ∷ type_node element.now ∷ []) result }
    {
        let (operand, loud) = self.expr_below(length)?;
        let length = match array_length(self.context.env.bits(), &operand) {
            Some(length) => length,
            None => return Err(ExprError::Untyped),
        };
        let (element, louder) = self.boxed_below(element)?;
        Ok((Term::Array(length, element), either(loud, louder)))
    }

    fn map(&self, key: &Type, element: &Type) -> Result<(Term, bool), ExprError>
        requires { TypesBelow self.now.context.now self.now.height (F.pre self.now.below) (F.post self.now.below) }
        ensures { Types (env_in self.now.context.now) (OfForm (env_in self.now.context.now) (Typ-F.Map key.now element.now)) (type_node key.now ∷ type_node element.now ∷ []) result }
    {
        let (key, loud) = self.boxed_below(key)?;
        let (element, louder) = self.boxed_below(element)?;
        Ok((Term::Map(key, element), either(loud, louder)))
    }

    /// The channel type of a direction and of the element type that a form stands for, and the form's flag;
    /// `Untyped` exactly where it stands for none.
    pub fn channel(&self, direction: Direction, element: &Type) -> Result<(Term, bool), ExprError>
        requires { TypesBelow self.now.context.now self.now.height (F.pre self.now.below) (F.post self.now.below) }
        ensures { Types (env_in self.now.context.now) (IsChannelOf (env_in self.now.context.now) direction element.now) (type_node element.now ∷ []) result }
    {
        let (element, loud) = self.boxed_below(element)?;
        Ok((Term::Chan(direction, element), loud))
    }

    // The type that a type form stands for, by its form.
    fn type_form(&self, form: &Type) -> Result<(Term, bool), ExprError>
        requires { TypesBelow self.now.context.now self.now.height (F.pre self.now.below) (F.post self.now.below) }
        ensures { Types (env_in self.now.context.now) (OfForm (env_in self.now.context.now) (out-Typ form.now)) (type_parts (out-Typ form.now)) result }
    {
        match form {
            Type::Named(name) => self.named(name),
            Type::Paren(inner) => self.parenthesized(inner.value()),
            Type::Pointer(base) => self.pointer(base.value()),
            Type::Slice(element) => self.slice(element.value()),
            Type::Array(length, element) => self.array(length.value(), element.value()),
            Type::Map(key, element) => self.map(key.value(), element.value()),
            Type::Chan(element) => self.channel(Direction::Both, element.value()),
            Type::SendChan(element) => self.channel(Direction::SendOnly, element.value()),
            Type::ReceiveChan(element) => self.channel(Direction::ReceiveOnly, element.value()),
            Type::Func(signature) => self.function(signature.value()),
            Type::Struct(fields) => self.structure(fields.items()),
            Type::Interface(elements) => self.interface(elements.items()),
        }
    }

    /// The type that a type form stands for, which is within bounds, and whether a receive stands in the form, or a
    /// call that is neither a conversion nor constant; `Untyped` exactly where it stands for none.
    pub fn type_(&self, form: &Type) -> Result<(Term, bool), ExprError>
        requires { TypesBelow self.now.context.now self.now.height (F.pre self.now.below) (F.post self.now.below) }
        ensures { Types (env_in self.now.context.now) (OfType (env_in self.now.context.now) form.now) (type_node form.now ∷ []) result }
    {
        let (term, loud) = self.type_form(form)?;
        if !is_within_bounds(&term) {
            return Err(ExprError::Untyped);
        }
        Ok((term, loud))
    }
}
