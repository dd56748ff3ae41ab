//! Why an expression has no operand, and a type form no type.
use go_base::memory::NoMemory;
use thiserror::Error;

/// Why an expression has no operand, or a type form no type.
#[derive(Clone, Copy, Debug, PartialEq, Eq, Error)]
pub enum ExprError {
    /// The rules give it none.
    #[error("expression has no typing")]
    Untyped,
    #[error("out of memory")]
    NoMemory,
}

impl From<NoMemory> for ExprError {
    ghost use Rattle.std.specs.Prelude.{◌≡◌};
    ghost use Rattle.go_type_terms.specs.declared.error.ExprError.TheVariants.{NoMemory};

    ghost from_gives = { λ _ e. e ≡ NoMemory };

    fn from(_: NoMemory) -> ExprError {
        ExprError::NoMemory
    }
}
