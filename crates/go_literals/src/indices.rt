//! The places of elements of arrays and slices.
ghost use Rattle.std.specs.Prelude.{[], ◌∷◌, None, Some};
ghost use Rattle.go_literals.specs.Elements.{IsKeyIndex, IsPlace, IsPlaceWithin};
ghost use Rattle.go_rules.specs.Expressions.{IsIndex};
ghost use Rattle.go_rules.specs.Nodes.{optional, value as value_node};
ghost use Rattle.go_operations.specs.go_type_terms.Answers.{Types, TypesBelow, env_in};
ghost use Rattle.go_elements.specs.go_usability.Answers.{Gives};

use crate::keys::expr_alone;
use crate::values::Literals;
use go_elements::go_const::representation::representable;
use go_elements::go_usability::context::Context;
use go_elements::indices::{index_of, is_below};
use go_model::constants::value::{Basic, Value};
use go_operations::go_type_terms::error::ExprError;
use go_operations::go_type_terms::part::{Answer, Part};
use go_rules::operand::Operand;
use go_syntax::expression::ElementValue;
use std::alloc::Global;

// The value of an index that is constant.
fn constant_index(context: &Context<'_>, operand: &Operand) -> Option<u64>
    ensures { Gives (λ n. IsIndex (env_in context.now) operand.now (Some n)) result }
{
    match index_of(context, operand) {
        Some(index) => index,
        None => None,
    }
}

// The next place, where it is representable in int.
fn next_place(context: &Context<'_>, next: u64) -> Option<u64>
    ensures { Gives (IsPlace (env_in context.now) None next) result }
{
    let value = Value::Int(i128::from(next));
    if representable(&value, Basic::Int, context.env.bits()) {
        Some(next)
    } else {
        None
    }
}

impl<'a, F: Fn(&Context<'_>, Global, usize, Part<'_>) -> Result<Answer, ExprError>> Literals<
    'a,
    F,
> {
    // The constant index that a key is.
    fn key_index(&self, key: &ElementValue) -> Result<(u64, bool), ExprError>
        requires { TypesBelow self.now.operations.typing.context.now self.now.operations.typing.height (F.pre self.now.operations.typing.below) (F.post self.now.operations.typing.below) }
        ensures { Types (env_in self.now.operations.typing.context.now) (IsKeyIndex (env_in self.now.operations.typing.context.now) key.now) (value_node key.now ∷ []) result }
    {
        let expr = match expr_alone(key) {
            Some(expr) => expr,
            None => return Err(ExprError::Untyped),
        };
        let (operand, loud) = self.operations.typing.expr_below(expr)?;
        match constant_index(self.operations.typing.context, &operand) {
            Some(index) => Ok((index, loud)),
            None => Err(ExprError::Untyped),
        }
    }

    // The place of an element.
    fn place_of(&self, next: u64, key: &Option<ElementValue>) -> Result<(u64, bool), ExprError>
        requires { TypesBelow self.now.operations.typing.context.now self.now.operations.typing.height (F.pre self.now.operations.typing.below) (F.post self.now.operations.typing.below) }
        ensures { Types (env_in self.now.operations.typing.context.now) (IsPlace (env_in self.now.operations.typing.context.now) key.now next) (optional value_node key.now) result }
    {
        match key {
            Some(key) => self.key_index(key),
            None => match next_place(self.operations.typing.context, next) {
                Some(place) => Ok((place, false)),
                None => Err(ExprError::Untyped),
            },
        }
    }

    /// The place of an element of an array or a slice: the index that is its key, or the next one. `Untyped`
    /// where the key is no constant index, the next index isn't representable in int, or it isn't below the
    /// limit.
    pub(crate) fn place(
        &self,
        limit: Option<u64>,
        next: u64,
        key: &Option<ElementValue>,
    ) -> Result<(u64, bool), ExprError>
        requires { TypesBelow self.now.operations.typing.context.now self.now.operations.typing.height (F.pre self.now.operations.typing.below) (F.post self.now.operations.typing.below) }
        ensures { Types (env_in self.now.operations.typing.context.now) (IsPlaceWithin (env_in self.now.operations.typing.context.now) limit next key.now) (optional value_node key.now) result }
    {
        let (place, loud) = self.place_of(next, key)?;
        if !is_below(Some(place), limit) {
            return Err(ExprError::Untyped);
        }
        Ok((place, loud))
    }
}
