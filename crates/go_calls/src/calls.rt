//! Calls, by what is called.
ghost use Rattle.std.specs.Prelude.{◌≡◌, IfOk};
ghost use Rattle.go_rules.specs.Operands.{builtin};
ghost use Rattle.go_rules.specs.Scopes.{env_of};
ghost use Rattle.go_elements.specs.go_usability.Answers.{Gives};
ghost use Rattle.go_calls.specs.Calls.{Calls};
ghost use Rattle.go_calls.specs.inner.Conversions.{ConvertsOne};

use crate::arguments::one;
use crate::builtins::call_builtin;
use crate::functions::call_function;
use go_base::memory::NoMemory;
use go_elements::go_operators::conversions::conversion;
use go_elements::go_operators::values::type_in;
use go_elements::go_usability::context::Context;
use go_model::types::term::Term;
use go_rules::operand::{Mode, Operand, Shape};
use go_rules::predeclared::Predeclared;
use std::alloc::Global;

// The builtin function that it is.
fn builtin_in(operand: &Operand) -> Option<Predeclared>
    ensures { Gives (λ f. operand.now ≡ builtin f) result }
{
    match (operand.mode, &operand.shape) {
        (Mode::Builtin, Shape::OfBuiltin(function)) => Some(*function),
        _ => None,
    }
}

// The conversion of one operand.
fn convert_one(
    context: &Context<'_>,
    alloc: Global,
    term: &Term,
    operands: &[Operand],
    dots: bool,
) -> Result<Option<Operand>, NoMemory>
    ensures { IfOk result (Gives (ConvertsOne (env_of context.now.env.now) term.now operands.now dots)) }
{
    match one(operands, dots) {
        Some(operand) => {
            let answer = conversion(context, alloc, operand, term)?;
            Ok(answer)
        }
        None => Ok(None),
    }
}

/// What a call of an operand with these arguments is, the last of which stands before `...` or not; loud tells,
/// for `len` and `cap` of one argument, whether a receive, or a call that is neither a conversion nor constant,
/// stands in its expression. A type converts its one argument, a builtin function is called by its own rule, and
/// a value of a function type takes arguments that fit its parameters. Else it is None.
pub fn call(
    context: &Context<'_>,
    alloc: Global,
    loud: bool,
    operand: &Operand,
    operands: &[Operand],
    dots: bool,
) -> Result<Option<Operand>, NoMemory>
    ensures { IfOk result (Gives (Calls (env_of context.now.env.now) loud operand.now operands.now dots)) }
{
    if let Some(term) = type_in(operand) {
        let converted = convert_one(context, alloc, term, operands, dots)?;
        return Ok(converted);
    }
    match builtin_in(operand) {
        Some(function) => {
            let result = call_builtin(context, alloc, loud, function, operands, dots)?;
            Ok(result)
        }
        None => {
            let answer = call_function(context, alloc, operand, operands, dots)?;
            Ok(answer)
        }
    }
}
