//! Operators before an operand.
ghost use Rattle.std.specs.Prelude.{◌≡◌, IfOk, false};
ghost use Rattle.go_rules.specs.Expressions.{is_constant, receives};
ghost use Rattle.go_rules.specs.Operands.{constant_of};
ghost use Rattle.go_rules.specs.Scopes.{env_of};
ghost use Rattle.go_usability.specs.go_selectors.Answers.{Decides};
ghost use Rattle.go_base.specs.Keys.{item_of};
ghost use Rattle.go_usability.specs.Answers.{Gives};
ghost use Rattle.go_operators.specs.inner.Addresses.{HasAddress};
ghost use Rattle.go_operators.specs.Prefixes.{Addresses, Changes, Dereferences, Prefixes, Receives};

use crate::levels::{channel_under, pointer_under};
use crate::operands::{
    computed_where, constant_like, plain, plain_where, type_name, variable_like,
};
use crate::values::{constant_of, is_constant, is_variable, kind_of, term_of, type_in, type_of};
use go_base::memory::NoMemory;
use go_base::operator::PrefixOperator;
use go_model::constants::value::{UnaryOp, Value};
use go_model::types::package::ConstTerm;
use go_model::types::term::{Direction, Term, pointer_to};
use go_rules::operand::{Mode, Operand};
use go_usability::context::Context;
use go_usability::go_const::operation::unary;
use std::alloc::Global;

fn change_constant(
    context: &Context<'_>,
    alloc: Global,
    op: UnaryOp,
    term: &ConstTerm,
    value: &Value,
) -> Result<Option<Operand>, NoMemory>
    ensures { IfOk result (Gives (Changes (env_of context.now.env.now) op (constant_of term.now value.now))) }
{
    let kind = match kind_of(context, term) {
        Some(kind) => kind,
        None => return Ok(None),
    };
    let changed = unary(op, value, kind, context.env.bits())?;
    let answer = constant_like(alloc, term, changed)?;
    Ok(answer)
}

fn change_value(
    context: &Context<'_>,
    alloc: Global,
    op: UnaryOp,
    operand: &Operand,
) -> Result<Option<Operand>, NoMemory>
    requires { is_constant operand.now.mode ≡ false }
    ensures { IfOk result (Gives (Changes (env_of context.now.env.now) op operand.now)) }
{
    let term = match term_of(alloc, operand)? {
        Some(term) => term,
        None => return Ok(None),
    };
    let kind = match kind_of(context, &term) {
        Some(kind) => kind,
        None => return Ok(None),
    };
    let answer = computed_where(alloc, op.applies_to(kind.class()), &term)?;
    Ok(answer)
}

/// The result of `+`, `-`, `^` or `!`; None exactly where the operand is no value, its kind hasn't the
/// operator, or the result of a constant is out of range.
fn change(
    context: &Context<'_>,
    alloc: Global,
    op: UnaryOp,
    operand: &Operand,
) -> Result<Option<Operand>, NoMemory>
    ensures { IfOk result (Gives (Changes (env_of context.now.env.now) op operand.now)) }
{
    if let Some((term, value)) = constant_of(operand) {
        let answer = change_constant(context, alloc, op, term, value)?;
        return Ok(answer);
    }
    if is_constant(operand.mode) {
        return Ok(None);
    }
    change_value(context, alloc, op, operand)
}

fn dereference(
    context: &Context<'_>,
    alloc: Global,
    operand: &Operand,
) -> Result<Option<Operand>, NoMemory>
    ensures { IfOk result (Gives (Dereferences (env_of context.now.env.now) operand.now)) }
{
    if let Some(term) = type_in(operand) {
        let pointer = pointer_to(alloc, term)?;
        return Ok(Some(type_name(pointer)));
    }
    let term = match type_of(operand) {
        Some(term) => term,
        None => return Ok(None),
    };
    match pointer_under(context, term) {
        Some(base) => {
            let element = variable_like(alloc, base)?;
            Ok(Some(element))
        }
        None => Ok(None),
    }
}

// The type of what has an address.
fn addressed(composite: bool, operand: &Operand) -> Option<&Term>
    ensures { Gives (HasAddress composite operand.now) (item_of result) }
{
    let term = match type_of(operand) {
        Some(term) => term,
        None => return None,
    };
    if is_variable(operand.mode) {
        return Some(term);
    }
    if !composite {
        return None;
    }
    if is_plain(operand.mode) {
        return Some(term);
    }
    None
}

fn is_plain(mode: Mode) -> bool
    ensures { Decides result (mode ≡ Mode.Plain) }
{
    matches!(mode, Mode::Plain)
}

fn address(alloc: Global, composite: bool, operand: &Operand) -> Result<Option<Operand>, NoMemory>
    ensures { IfOk result (Gives (Addresses composite operand.now)) }
{
    match addressed(composite, operand) {
        Some(term) => {
            let pointer = pointer_to(alloc, term)?;
            Ok(Some(plain(pointer)))
        }
        None => Ok(None),
    }
}

fn receives(direction: Direction) -> bool
    ensures { result ≡ receives direction }
{
    matches!(direction, Direction::Both | Direction::ReceiveOnly)
}

fn receive(
    context: &Context<'_>,
    alloc: Global,
    operand: &Operand,
) -> Result<Option<Operand>, NoMemory>
    ensures { IfOk result (Gives (Receives (env_of context.now.env.now) operand.now)) }
{
    let term = match type_of(operand) {
        Some(term) => term,
        None => return Ok(None),
    };
    match channel_under(context, term) {
        Some((direction, element)) => {
            let answer = plain_where(alloc, receives(direction), element)?;
            Ok(answer)
        }
        None => Ok(None),
    }
}

/// What the operator makes of the operand after it, which is a composite literal or not. None: `+`, `-`,
/// `^` and `!` of what is no value or of a kind that hasn't the operator, or of a constant with a result
/// out of range; `*` of what is neither a type nor a pointer; `&` of what is neither a variable nor a
/// composite literal; `<-` of what can't be received from.
pub fn prefix(
    context: &Context<'_>,
    alloc: Global,
    op: PrefixOperator,
    composite: bool,
    operand: &Operand,
) -> Result<Option<Operand>, NoMemory>
    ensures { IfOk result (Gives (Prefixes (env_of context.now.env.now) op composite operand.now)) }
{
    match op {
        PrefixOperator::Plus => change(context, alloc, UnaryOp::Plus, operand),
        PrefixOperator::Minus => change(context, alloc, UnaryOp::Minus, operand),
        PrefixOperator::Not => change(context, alloc, UnaryOp::Not, operand),
        PrefixOperator::Xor => change(context, alloc, UnaryOp::Xor, operand),
        PrefixOperator::Dereference => dereference(context, alloc, operand),
        PrefixOperator::Address => address(alloc, composite, operand),
        PrefixOperator::Receive => receive(context, alloc, operand),
    }
}
