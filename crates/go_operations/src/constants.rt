//! Operands that are constants.
ghost use Rattle.std.specs.Prelude.{◌≡◌, IfOk};
ghost use Rattle.go_model.specs.declared.types.package.ConstTerm.TheVariants as constant;
ghost use Rattle.go_rules.specs.Operands.{constant_of};

use go_base::memory::NoMemory;
use go_model::constants::value::{Untyped, Value};
use go_model::types::package::ConstTerm;
use go_rules::operand::{Mode, Operand, Shape};
use std::alloc::Global;

/// A constant of an untyped kind.
pub(crate) fn untyped(kind: Untyped, value: Value) -> Operand
    ensures { result ≡ constant_of (constant.OfKind kind) value }
{
    Operand {
        mode: Mode::Constant,
        shape: Shape::Fixed(ConstTerm::OfKind(kind), value),
    }
}

/// A constant, with an equal type and value.
pub(crate) fn constant(alloc: Global, of: &ConstTerm, value: &Value) -> Result<Operand, NoMemory>
    ensures { IfOk result (λ operand. operand ≡ constant_of of.now value.now) }
{
    let of = of.copy(alloc)?;
    let value = value.copy(alloc)?;
    Ok(Operand {
        mode: Mode::Constant,
        shape: Shape::Fixed(of, value),
    })
}
