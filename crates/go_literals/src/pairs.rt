//! Keys and elements of maps.
ghost use Rattle.go_literals.specs.Elements.{PairFits, parts_of};
ghost use Rattle.go_rules.specs.Expressions.{HasPairs};
ghost use Rattle.go_rules.specs.Nodes.{element_parts};
ghost use Rattle.go_operations.specs.go_type_terms.Answers.{Holds, TypesBelow, env_in};

use crate::values::Literals;
use go_elements::go_usability::context::Context;
use go_model::types::term::Term;
use go_operations::go_type_terms::error::ExprError;
use go_operations::go_type_terms::loud::either;
use go_operations::go_type_terms::part::{Answer, Part};
use go_syntax::expression::Element;
use std::alloc::Global;

impl<'a, F: Fn(&Context<'_>, Global, usize, Part<'_>) -> Result<Answer, ExprError>> Literals<
    'a,
    F,
> {
    // Whether an element is a key and a value of the types.
    fn pair_fits(&self, key: &Term, term: &Term, element: &Element) -> Result<bool, ExprError>
        requires { TypesBelow self.now.operations.typing.context.now self.now.operations.typing.height (F.pre self.now.operations.typing.below) (F.post self.now.operations.typing.below) }
        ensures { Holds (env_in self.now.operations.typing.context.now) (PairFits (env_in self.now.operations.typing.context.now) key.now term.now element.now) (parts_of element.now) result }
    {
        let value = match &element.key {
            Some(value) => value,
            None => return Err(ExprError::Untyped),
        };
        let loud = self.element_fits(key, value)?;
        let louder = self.element_fits(term, &element.value)?;
        Ok(either(loud, louder))
    }

    /// Whether elements are keys and values of a map.
    pub(crate) fn pairs(
        &self,
        key: &Term,
        term: &Term,
        elements: &[Element],
    ) -> Result<bool, ExprError>
        requires { TypesBelow self.now.operations.typing.context.now self.now.operations.typing.height (F.pre self.now.operations.typing.below) (F.post self.now.operations.typing.below) }
        ensures { Holds (env_in self.now.operations.typing.context.now) (HasPairs (env_in self.now.operations.typing.context.now) key.now term.now elements.now) (element_parts elements.now) result }
    {
        let mut loud = false;
        for element in elements {
            let louder = self.pair_fits(key, term, element)?;
            loud = either(loud, louder);
        }
        Ok(loud)
    }
}
