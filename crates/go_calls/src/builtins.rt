//! Calls of builtin functions.
ghost use Rattle.std.specs.Prelude.{◌≡◌, ◌∷◌, [], IfOk, MatchOption, Some, None, false, if◌then◌else◌};
ghost use Rattle.go_base.specs.Lists.{Each};
ghost use Rattle.go_rules.specs.Expressions.{IsPrinted, sends};
ghost use Rattle.go_model.specs.declared.types.term.Term.{Term};
ghost use Rattle.go_rules.specs.Operands.{IsTyped, any_term, constant_of, plain};
ghost use Rattle.go_rules.specs.Scopes.{env_of};
ghost use Rattle.go_rules.specs.declared.operand.Operand.{Operand};
ghost use Rattle.go_selectors.specs.Answers.{Decides};
ghost use Rattle.go_elements.specs.go_usability.Answers.{Gives};
ghost use Rattle.go_calls.specs.Builtins.{CallsBuiltin, Closes, Copies, Deletes, MakesOf, Measures, News, OfAny, OfMore, OfNone, OfOne, OfTwo, Panics, Prints};

use crate::append::{append, copy};
use crate::arguments::{is_none, one, two};
use crate::lengths::measure;
use crate::makes::{make, new};
use go_base::list::List;
use go_base::memory::NoMemory;
use go_base::shared::Shared;
use go_elements::go_operators::conversions::default_holds;
use go_elements::go_operators::levels::{channel_under, map_under};
use go_elements::go_operators::operands::{nothing_where, plain};
use go_elements::go_operators::values::{constant_of, is_usable, loose_of, type_of};
use go_elements::go_usability::context::Context;
use go_model::constants::value::Value;
use go_model::types::package::ConstTerm;
use go_model::types::term::{Direction, Term};
use go_rules::operand::Operand;
use go_rules::predeclared::Predeclared;
use std::alloc::Global;

fn sends(direction: Direction) -> bool
    ensures { result ≡ sends direction }
{
    matches!(direction, Direction::Both | Direction::SendOnly)
}

fn close(context: &Context<'_>, operand: &Operand) -> Option<Operand>
    ensures { Gives (Closes (env_of context.now.env.now) operand.now) result }
{
    let term = match type_of(operand) {
        Some(term) => term,
        None => return None,
    };
    match channel_under(context, term) {
        Some((direction, _)) => nothing_where(sends(direction)),
        None => None,
    }
}

fn delete(
    context: &Context<'_>,
    alloc: Global,
    operand: &Operand,
    key: &Operand,
) -> Result<Option<Operand>, NoMemory>
    ensures { IfOk result (Gives (Deletes (env_of context.now.env.now) operand.now key.now)) }
{
    let term = match type_of(operand) {
        Some(term) => term,
        None => return Ok(None),
    };
    match map_under(context, term) {
        Some((of, _)) => {
            let may = is_usable(context, alloc, key, of)?;
            Ok(nothing_where(may))
        }
        None => Ok(None),
    }
}

fn any(alloc: Global) -> Result<Term, NoMemory>
    ensures { IfOk result (λ term. term ≡ any_term) }
{
    Ok(Term::Interface(Shared::new(alloc, List::new(alloc))?))
}

fn panic(
    context: &Context<'_>,
    alloc: Global,
    operand: &Operand,
) -> Result<Option<Operand>, NoMemory>
    ensures { IfOk result (Gives (Panics (env_of context.now.env.now) operand.now)) }
{
    let any = any(alloc)?;
    let may = is_usable(context, alloc, operand, &any)?;
    Ok(nothing_where(may))
}

// Whether a constant is a value that in the end has a type.
fn is_constant_printed(
    context: &Context<'_>,
    operand: &Operand,
    of: &ConstTerm,
    value: &Value,
) -> bool
    requires constant { operand.now ≡ constant_of of.now value.now }
    requires untyped { (t : Term) → IsTyped operand.now t → ⊥ }
    ensures { Decides result (IsPrinted (env_of context.now.env.now) operand.now) }
{
    match of {
        ConstTerm::OfKind(kind) => default_holds(context, *kind, value),
        ConstTerm::OfTerm(_) => false,
    }
}

// Whether an operand without a type is a value that in the end has one.
fn is_untyped_printed(context: &Context<'_>, operand: &Operand) -> bool
    requires { (t : Term) → IsTyped operand.now t → ⊥ }
    ensures { Decides result (IsPrinted (env_of context.now.env.now) operand.now) }
{
    if let Some((of, value)) = constant_of(operand) {
        return is_constant_printed(context, operand, of, value);
    }
    match loose_of(operand) {
        Some(_) => true,
        None => false,
    }
}

// Whether an operand is a value that in the end has a type.
fn is_printed(context: &Context<'_>, operand: &Operand) -> bool
    ensures { Decides result (IsPrinted (env_of context.now.env.now) operand.now) }
{
    match type_of(operand) {
        Some(_) => true,
        None => is_untyped_printed(context, operand),
    }
}

fn are_printed(context: &Context<'_>, operands: &[Operand]) -> bool
    ensures { Decides result (Each (IsPrinted (env_of context.now.env.now)) operands.now) }
{
    for operand in operands {
        if !is_printed(context, operand) {
            return false;
        }
    }
    true
}

fn print(context: &Context<'_>, operands: &[Operand]) -> Option<Operand>
    ensures { Gives (Prints (env_of context.now.env.now) operands.now) result }
{
    nothing_where(are_printed(context, operands))
}

fn call_measure(
    context: &Context<'_>,
    function: Predeclared,
    loud: bool,
    operands: &[Operand],
    dots: bool,
) -> Option<Operand>
    ensures { Gives (OfOne (Measures (env_of context.now.env.now) function loud) operands.now dots) result }
{
    match one(operands, dots) {
        Some(operand) => measure(context, function, loud, operand),
        None => None,
    }
}

fn call_close(context: &Context<'_>, operands: &[Operand], dots: bool) -> Option<Operand>
    ensures { Gives (OfOne (Closes (env_of context.now.env.now)) operands.now dots) result }
{
    match one(operands, dots) {
        Some(operand) => close(context, operand),
        None => None,
    }
}

fn call_copy(context: &Context<'_>, operands: &[Operand], dots: bool) -> Option<Operand>
    ensures { Gives (OfTwo (Copies (env_of context.now.env.now)) operands.now dots) result }
{
    match two(operands, dots) {
        Some((to, from)) => copy(context, to, from),
        None => None,
    }
}

fn call_delete(
    context: &Context<'_>,
    alloc: Global,
    operands: &[Operand],
    dots: bool,
) -> Result<Option<Operand>, NoMemory>
    ensures { IfOk result (Gives (OfTwo (Deletes (env_of context.now.env.now)) operands.now dots)) }
{
    match two(operands, dots) {
        Some((operand, key)) => {
            let answer = delete(context, alloc, operand, key)?;
            Ok(answer)
        }
        None => Ok(None),
    }
}

fn call_make(
    context: &Context<'_>,
    alloc: Global,
    operands: &[Operand],
    dots: bool,
) -> Result<Option<Operand>, NoMemory>
    ensures { IfOk result (Gives (OfMore (MakesOf (env_of context.now.env.now)) operands.now dots)) }
{
    if dots {
        return Ok(None);
    }
    match operands.split_first() {
        Some((first, rest)) => {
            let answer = make(context, alloc, first, rest)?;
            Ok(answer)
        }
        None => Ok(None),
    }
}

fn call_new(alloc: Global, operands: &[Operand], dots: bool) -> Result<Option<Operand>, NoMemory>
    ensures { IfOk result (Gives (OfOne News operands.now dots)) }
{
    match one(operands, dots) {
        Some(operand) => {
            let answer = new(alloc, operand)?;
            Ok(answer)
        }
        None => Ok(None),
    }
}

fn call_panic(
    context: &Context<'_>,
    alloc: Global,
    operands: &[Operand],
    dots: bool,
) -> Result<Option<Operand>, NoMemory>
    ensures { IfOk result (Gives (OfOne (Panics (env_of context.now.env.now)) operands.now dots)) }
{
    match one(operands, dots) {
        Some(operand) => {
            let answer = panic(context, alloc, operand)?;
            Ok(answer)
        }
        None => Ok(None),
    }
}

fn call_print(context: &Context<'_>, operands: &[Operand], dots: bool) -> Option<Operand>
    ensures { Gives (OfAny (Prints (env_of context.now.env.now)) operands.now dots) result }
{
    if dots {
        return None;
    }
    print(context, operands)
}

fn call_recover(
    alloc: Global,
    operands: &[Operand],
    dots: bool,
) -> Result<Option<Operand>, NoMemory>
    ensures { IfOk result (Gives (OfNone (λ r. r ≡ plain any_term) operands.now dots)) }
{
    if is_none(operands, dots) {
        Ok(Some(plain(any(alloc)?)))
    } else {
        Ok(None)
    }
}

/// What a call of a builtin function with these operands is, `...` after the last or not; loud tells for
/// `len` and `cap` whether a receive, or a call that is neither a conversion nor constant, stands in the
/// expression. None exactly where the function isn't called so: the number of operands, their types, and of
/// a constant result whether it is representable, are as Go's specification says.
pub fn call_builtin(
    context: &Context<'_>,
    alloc: Global,
    loud: bool,
    function: Predeclared,
    operands: &[Operand],
    dots: bool,
) -> Result<Option<Operand>, NoMemory>
    ensures { IfOk result (Gives (CallsBuiltin (env_of context.now.env.now) loud function operands.now dots)) }
{
    match function {
        Predeclared::Append => append(context, alloc, operands, dots),
        Predeclared::Cap => Ok(call_measure(context, Predeclared::Cap, loud, operands, dots)),
        Predeclared::Close => Ok(call_close(context, operands, dots)),
        Predeclared::Copy => Ok(call_copy(context, operands, dots)),
        Predeclared::Delete => call_delete(context, alloc, operands, dots),
        Predeclared::Len => Ok(call_measure(context, Predeclared::Len, loud, operands, dots)),
        Predeclared::Make => call_make(context, alloc, operands, dots),
        Predeclared::New => call_new(alloc, operands, dots),
        Predeclared::Panic => call_panic(context, alloc, operands, dots),
        Predeclared::Print => Ok(call_print(context, operands, dots)),
        Predeclared::Println => Ok(call_print(context, operands, dots)),
        Predeclared::Recover => call_recover(alloc, operands, dots),
        _ => Ok(None),
    }
}
