//! Sends to channels.
ghost use Rattle.std.specs.Prelude.{◌≡◌, IfOk};
ghost use Rattle.go_assignments.specs.Simple.{MaySend, Sends, TakesSent};
ghost use Rattle.go_base.specs.Keys.{item_of};
ghost use Rattle.go_rules.specs.Expressions.{sends};
ghost use Rattle.go_selectors.specs.Answers.{Decides};
ghost use Rattle.go_type_terms.specs.Answers.{Tells, env_in};
ghost use Rattle.go_usability.specs.Answers.{Gives};

use go_asks::operands::operand;
use go_base::memory::NoMemory;
use go_model::types::term::{Direction, Term};
use go_operators::levels::channel_under;
use go_operators::values::{is_usable, type_of};
use go_rules::operand::Operand;
use go_syntax::expression::Expr;
use go_type_terms::error::ExprError;
use go_usability::context::Context;
use std::alloc::Global;

fn sends(direction: Direction) -> bool
    ensures { result ≡ sends direction }
{
    matches!(direction, Direction::Both | Direction::SendOnly)
}

// The type of the values that may be sent to a channel.
fn sent_type<'a>(context: &Context<'a>, channel: &'a Operand) -> Option<&'a Term>
    ensures { Gives (TakesSent (env_in context.now) channel.now) (item_of result) }
{
    let term = match type_of(channel) {
        Some(term) => term,
        None => return None,
    };
    match channel_under(context, term) {
        Some((direction, element)) => {
            if sends(direction) {
                Some(element)
            } else {
                None
            }
        }
        None => None,
    }
}

// Whether a value may be sent to a channel.
fn may_send(
    context: &Context<'_>,
    alloc: Global,
    channel: &Operand,
    value: &Operand,
) -> Result<bool, NoMemory>
    ensures { IfOk result (λ answer. Decides answer (MaySend (env_in context.now) channel.now value.now)) }
{
    match sent_type(context, channel) {
        Some(term) => is_usable(context, alloc, value, term),
        None => Ok(false),
    }
}

/// A send of a value to a channel. `Untyped` exactly where it isn't typed.
pub fn send(
    context: &Context<'_>,
    alloc: Global,
    channel: &Expr,
    value: &Expr,
) -> Result<(), ExprError>
    ensures { Tells (λ _. Sends (env_in context.now) channel.now value.now) result }
{
    let to = operand(context, alloc, channel)?;
    let sent = operand(context, alloc, value)?;
    if !may_send(context, alloc, &to, &sent)? {
        return Err(ExprError::Untyped);
    }
    Ok(())
}
