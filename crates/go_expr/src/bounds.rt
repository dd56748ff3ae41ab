//! Operands whose types are within bounds.
ghost use Rattle.std.specs.Prelude.{◌≡◌};
ghost use Rattle.go_base.specs.Lists.{Each};
ghost use Rattle.go_model.specs.types.Bounds.{IsWithinBounds};
ghost use Rattle.go_rules.specs.Operands.{ConstWithin, ShapeWithin};
ghost use Rattle.go_calls.specs.go_selectors.Answers.{Decides};

use go_model::types::bounds::is_within_bounds;
use go_model::types::package::ConstTerm;
use go_model::types::term::Term;
use go_rules::operand::{Operand, Shape};

fn is_const_within(of: &ConstTerm) -> bool
    ensures { Decides result (ConstWithin of.now) }
{
    match of {
        ConstTerm::OfTerm(term) => is_within_bounds(term),
        ConstTerm::OfKind(_) => true,
    }
}

fn are_within(terms: &[Term]) -> bool
    ensures { Decides result (Each IsWithinBounds terms.now) }
{
    for term in terms {
        if !is_within_bounds(term) {
            return false;
        }
    }
    true
}

fn is_shape_within(shape: &Shape) -> bool
    ensures { Decides result (ShapeWithin shape.now) }
{
    match shape {
        Shape::Of(term) => is_within_bounds(term),
        Shape::Fixed(of, _) => is_const_within(of),
        Shape::Loose(_) => true,
        Shape::Many(terms) => are_within(terms.items()),
        Shape::OfBuiltin(_) => true,
        Shape::Empty => true,
    }
}

/// Whether each type in an operand is within bounds.
pub(crate) fn is_within(operand: &Operand) -> bool
    ensures { Decides result (ShapeWithin operand.now.shape) }
{
    is_shape_within(&operand.shape)
}
