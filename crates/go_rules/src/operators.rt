//! Which operators a kind has.
ghost use Rattle.std.specs.Prelude.{◌≡◌};
ghost use Rattle.go_model.specs.constants.Classes.{class_of};
ghost use Rattle.go_model.specs.constants.Operators.{binary_applies};

use go_model::constants::value::{BinaryOp, Kind};

/// Whether two values of the kind have the operator, after "Arithmetic operators" and "Logical operators"
/// of the Go specification.
pub fn operator_allows(op: BinaryOp, kind: Kind) -> bool
    ensures { result ≡ binary_applies op (class_of kind) }
{
    op.applies_to(kind.class())
}
