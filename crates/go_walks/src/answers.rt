//! Answers that tell of expressions, as tests and look-ups.
ghost use Rattle.std.specs.Prelude.{◌≡◌};
ghost use Rattle.go_walks.specs.Told.{found_by, holds_by};

use go_base::memory::NoMemory;
use go_expr::go_type_terms::error::ExprError;

/// Whether something is typed.
pub fn holds(answer: Result<(), ExprError>) -> Result<bool, NoMemory>
    ensures { result ≡ holds_by answer }
{
    match answer {
        Ok(()) => Ok(true),
        Err(ExprError::Untyped) => Ok(false),
        Err(ExprError::NoMemory) => Err(NoMemory),
    }
}

/// What something is typed as, where it is typed.
pub fn found<T>(answer: Result<T, ExprError>) -> Result<Option<T>, NoMemory>
    ensures { result ≡ found_by answer }
{
    match answer {
        Ok(value) => Ok(Some(value)),
        Err(ExprError::Untyped) => Ok(None),
        Err(ExprError::NoMemory) => Err(NoMemory),
    }
}
