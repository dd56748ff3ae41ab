//! Elements of arrays and slices.
ghost use Rattle.std.specs.Prelude.{◌≡◌, IfErr, IfOk, max, suc};
ghost use Rattle.go_operations.specs.go_type_terms.declared.error.ExprError.TheVariants.{NoMemory};
ghost use Rattle.go_literals.specs.Elements.{IndexedFits, parts_of};
ghost use Rattle.go_rules.specs.Expressions.{HasIndexed};
ghost use Rattle.go_rules.specs.Nodes.{element_parts};
ghost use Rattle.go_operations.specs.go_type_terms.Answers.{Types, TypesBelow, env_in};

use crate::values::Literals;
use go_elements::go_usability::context::Context;
use go_model::types::term::Term;
use go_operations::go_type_terms::error::ExprError;
use go_operations::go_type_terms::loud::either;
use go_operations::go_type_terms::part::{Answer, Part};
use go_syntax::expression::Element;
use std::alloc::Global;

fn greater(left: u64, right: u64) -> u64
    ensures { result ≡ max left right }
{
    if left < right { right } else { left }
}

fn behind(place: u64) -> Result<u64, ExprError>
    ensures ok { IfOk result (λ next. next ≡ suc place) }
    ensures err { IfErr result (λ e. e ≡ NoMemory) }
{
    match place.checked_add(1) {
        Some(next) => Ok(next),
        None => Err(ExprError::NoMemory),
    }
}

impl<'a, F: Fn(&Context<'_>, Global, usize, Part<'_>) -> Result<Answer, ExprError>> Literals<
    'a,
    F,
> {
    // The place of an element that is a value of the type.
    fn indexed_fits(
        &self,
        term: &Term,
        limit: Option<u64>,
        next: u64,
        element: &Element,
    ) -> Result<(u64, bool), ExprError>
        requires { TypesBelow self.now.operations.typing.context.now self.now.operations.typing.height (F.pre self.now.operations.typing.below) (F.post self.now.operations.typing.below) }
        ensures { Types (env_in self.now.operations.typing.context.now) (IndexedFits (env_in self.now.operations.typing.context.now) term.now limit next element.now) (parts_of element.now) result }
    {
        let (place, loud) = self.place(limit, next, &element.key)?;
        let louder = self.element_fits(term, &element.value)?;
        Ok((place, either(loud, louder)))
    }

    /// The elements of an array or a slice, and one more than the greatest place of one.
    pub(crate) fn indexed(
        &self,
        term: &Term,
        limit: Option<u64>,
        elements: &[Element],
    ) -> Result<(u64, bool), ExprError>
        requires { TypesBelow self.now.operations.typing.context.now self.now.operations.typing.height (F.pre self.now.operations.typing.below) (F.post self.now.operations.typing.below) }
        ensures { Types (env_in self.now.operations.typing.context.now) (HasIndexed (env_in self.now.operations.typing.context.now) term.now limit 0 elements.now) (element_parts elements.now) result }
    {
        let mut next = 0;
        let mut greatest = 0;
        let mut loud = false;
        for element in elements {
            let (place, louder) = self.indexed_fits(term, limit, next, element)?;
            next = behind(place)?;
            greatest = greater(greatest, next);
            loud = either(loud, louder);
        }
        Ok((greatest, loud))
    }
}
