//! Type assertions.
ghost use Rattle.std.specs.Prelude.{◌≡◌, IfOk};
ghost use Rattle.go_rules.specs.Expressions.{MayHold};
ghost use Rattle.go_rules.specs.Scopes.{env_of};
ghost use Rattle.go_operators.specs.go_selectors.Answers.{Decides};
ghost use Rattle.go_operators.specs.go_usability.Answers.{Gives};
ghost use Rattle.go_elements.specs.Assertions.{Asserts};

use go_base::memory::NoMemory;
use go_model::types::term::Term;
use go_operators::go_usability::context::Context;
use go_operators::go_usability::implementing::implements;
use go_operators::levels::is_interface;
use go_operators::operands::plain_where;
use go_operators::values::type_of;
use go_rules::operand::Operand;
use std::alloc::Global;

// Whether a value of an interface type may be of another type.
fn may_hold(
    context: &Context<'_>,
    alloc: Global,
    interface: &Term,
    term: &Term,
) -> Result<bool, NoMemory>
    ensures { IfOk result (λ answer. Decides answer (MayHold (env_of context.now.env.now) interface.now term.now)) }
{
    if is_interface(context, term) {
        return Ok(true);
    }
    let answer = implements(context, alloc, term, interface)?;
    Ok(answer)
}

/// The value of a type that an operand is asserted to be. It is None exactly where the operand is no value of an
/// interface type, or the type is neither an interface nor implements that.
pub fn assertion(
    context: &Context<'_>,
    alloc: Global,
    operand: &Operand,
    term: &Term,
) -> Result<Option<Operand>, NoMemory>
    ensures { IfOk result (Gives (Asserts (env_of context.now.env.now) operand.now term.now)) }
{
    let interface = match type_of(operand) {
        Some(interface) => interface,
        None => return Ok(None),
    };
    if !is_interface(context, interface) {
        return Ok(None);
    }
    let may = may_hold(context, alloc, interface, term)?;
    let answer = plain_where(alloc, may, term)?;
    Ok(answer)
}
