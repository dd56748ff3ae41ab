//! Comparisons.
ghost use Rattle.std.specs.Prelude.{◌≡◌, ◌&&◌, IfOk, None, Some, false, true, if◌then◌else◌};
ghost use Rattle.go_model.specs.declared.constants.value.Untyped.TheVariants as untyped;
ghost use Rattle.go_rules.specs.Expressions.{Equates, IsComparison, is_constant, is_equality};
ghost use Rattle.go_rules.specs.Operands.{IsTyped, IsUntyped, loose};
ghost use Rattle.go_model.specs.declared.constants.value.Untyped.{Untyped};
ghost use Rattle.go_model.specs.declared.types.package.ConstTerm.TheVariants as constant;
ghost use Rattle.go_model.specs.declared.types.term.Term.{Term};
ghost use Rattle.go_rules.specs.Scopes.{env_of};
ghost use Rattle.go_rules.specs.Usability.{Compares};
ghost use Rattle.go_usability.specs.go_selectors.Answers.{Decides};
ghost use Rattle.go_usability.specs.Answers.{Gives};
ghost use Rattle.go_operators.specs.inner.Comparisons.{ConstantsCompare, EquatesKinds, EquatesType, Orders};

use crate::operands::{loose, truth};
use crate::values::{are_constant, is_nil, is_usable, kind_of, type_of, untyped_of, value_in};
use go_base::memory::NoMemory;
use go_base::operator::CompareOp;
use go_model::constants::value::{Untyped, Value};
use go_model::types::package::ConstTerm;
use go_model::types::term::Term;
use go_rules::operand::Operand;
use go_usability::comparison::compares;
use go_usability::context::Context;
use go_usability::go_const::comparison::compare_values;
use go_usability::matching::matching;
use std::alloc::Global;

fn is_equality(op: CompareOp) -> bool
    ensures { result ≡ is_equality op }
{
    matches!(op, CompareOp::Equal | CompareOp::NotEqual)
}

// Whether the operand and another one match, of a kind that has the comparison.
fn is_ordered(
    context: &Context<'_>,
    alloc: Global,
    op: CompareOp,
    left: &Operand,
    right: &Operand,
) -> Result<bool, NoMemory>
    ensures { IfOk result (λ answer. Decides answer (Orders (env_of context.now.env.now) op left.now right.now)) }
{
    let term = match matching(context, alloc, left, right)? {
        Some(term) => term,
        None => return Ok(false),
    };
    match kind_of(context, &term) {
        Some(kind) => Ok(kind.class().has_comparison(op)),
        None => Ok(false),
    }
}

// The truth of a comparison of two constants' values.
fn truth_of(op: CompareOp, left: &Operand, right: &Operand) -> Option<bool>
    ensures { Gives (ConstantsCompare op left.now right.now) result }
{
    let value = match value_in(left) {
        Some(value) => value,
        None => return None,
    };
    match value_in(right) {
        Some(other) => compare_values(op, value, other),
        None => None,
    }
}

fn compare_constants(
    context: &Context<'_>,
    alloc: Global,
    op: CompareOp,
    left: &Operand,
    right: &Operand,
) -> Result<Option<Operand>, NoMemory>
    requires { (is_constant left.now.mode && is_constant right.now.mode) ≡ true }
    ensures { IfOk result (Gives (IsComparison (env_of context.now.env.now) op left.now right.now)) }
{
    let ordered = is_ordered(context, alloc, op, left, right)?;
    if !ordered {
        return Ok(None);
    }
    match truth_of(op, left, right) {
        Some(holds) => Ok(Some(truth(holds))),
        None => Ok(None),
    }
}

// Whether values of a type can be compared.
fn is_comparable(context: &Context<'_>, alloc: Global, term: &Term) -> Result<bool, NoMemory>
    ensures { IfOk result (λ answer. Decides answer (Compares (env_of context.now.env.now) term.now)) }
{
    compares(context, alloc, term)
}

// Whether values of two types are equal or not: one is usable as the other's type, and both compare.
fn equates_types(
    context: &Context<'_>,
    alloc: Global,
    left: &Operand,
    right: &Operand,
    term: &Term,
    other: &Term,
) -> Result<bool, NoMemory>
    requires left { IsTyped left.now term.now }
    requires right { IsTyped right.now other.now }
    ensures { IfOk result (λ answer. Decides answer (Equates (env_of context.now.env.now) left.now right.now)) }
{
    let left_compares = is_comparable(context, alloc, term)?;
    if !left_compares {
        return Ok(false);
    }
    let right_compares = is_comparable(context, alloc, other)?;
    if !right_compares {
        return Ok(false);
    }
    let forth = is_usable(context, alloc, left, other)?;
    if forth {
        return Ok(true);
    }
    let back = is_usable(context, alloc, right, term)?;
    Ok(back)
}

// Whether an operand of an untyped kind may be compared with a value of this type.
fn equates_kind(
    context: &Context<'_>,
    alloc: Global,
    operand: &Operand,
    kind: Untyped,
    term: &Term,
) -> Result<bool, NoMemory>
    requires { IsUntyped operand.now kind }
    ensures { IfOk result (λ answer. Decides answer (EquatesType (env_of context.now.env.now) operand.now term.now)) }
{
    let compared = is_comparable(context, alloc, term)?;
    if !compared {
        return Ok(false);
    }
    let answer = is_usable(context, alloc, operand, term)?;
    Ok(answer)
}

// Whether an operand without a type may be compared with a value of this type.
fn equates_type(
    context: &Context<'_>,
    alloc: Global,
    operand: &Operand,
    term: &Term,
) -> Result<bool, NoMemory>
    ensures { IfOk result (λ answer. Decides answer (EquatesType (env_of context.now.env.now) operand.now term.now)) }
{
    if is_nil(operand) {
        let answer = is_usable(context, alloc, operand, term)?;
        return Ok(answer);
    }
    match untyped_of(operand) {
        Some(kind) => equates_kind(context, alloc, operand, kind, term),
        None => Ok(false),
    }
}

fn is_kind(of: &ConstTerm) -> bool
    ensures { Decides result ((k : Untyped) × (of.now ≡ constant.OfKind k)) }
{
    match of {
        ConstTerm::OfTerm(_) => false,
        ConstTerm::OfKind(_) => true,
    }
}

// Whether two operands without types match.
fn equates_kinds(
    context: &Context<'_>,
    alloc: Global,
    left: &Operand,
    right: &Operand,
) -> Result<bool, NoMemory>
    ensures { IfOk result (λ answer. Decides answer (EquatesKinds (env_of context.now.env.now) left.now right.now)) }
{
    match matching(context, alloc, left, right)? {
        Some(of) => Ok(is_kind(&of)),
        None => Ok(false),
    }
}

// Whether an operand of this type and another one are equal or not.
fn equates_typed(
    context: &Context<'_>,
    alloc: Global,
    left: &Operand,
    right: &Operand,
    term: &Term,
) -> Result<bool, NoMemory>
    requires { IsTyped left.now term.now }
    ensures { IfOk result (λ answer. Decides answer (Equates (env_of context.now.env.now) left.now right.now)) }
{
    match type_of(right) {
        Some(other) => equates_types(context, alloc, left, right, term, other),
        None => {
            let answer = equates_type(context, alloc, right, term)?;
            Ok(answer)
        }
    }
}

// Whether an operand without a type and another one are equal or not.
fn equates_untyped(
    context: &Context<'_>,
    alloc: Global,
    left: &Operand,
    right: &Operand,
) -> Result<bool, NoMemory>
    requires { (t : Term) → IsTyped left.now t → ⊥ }
    ensures { IfOk result (λ answer. Decides answer (Equates (env_of context.now.env.now) left.now right.now)) }
{
    match type_of(right) {
        Some(term) => {
            let answer = equates_type(context, alloc, left, term)?;
            Ok(answer)
        }
        None => {
            let answer = equates_kinds(context, alloc, left, right)?;
            Ok(answer)
        }
    }
}

fn equates(
    context: &Context<'_>,
    alloc: Global,
    left: &Operand,
    right: &Operand,
) -> Result<bool, NoMemory>
    ensures { IfOk result (λ answer. Decides answer (Equates (env_of context.now.env.now) left.now right.now)) }
{
    match type_of(left) {
        Some(term) => equates_typed(context, alloc, left, right, term),
        None => equates_untyped(context, alloc, left, right),
    }
}

fn as_truth(holds: bool) -> Option<Operand>
    ensures { result ≡ (if holds then Some (loose untyped.BoolKind) else None) }
{
    if holds {
        Some(loose(Untyped::BoolKind))
    } else {
        None
    }
}

/// The truth of a comparison of two constants, and that a comparison of other operands is true or false.
/// Two constants, and the operands of an order, have to match in a kind that has the comparison. For `==` and
/// `!=` of others one may be used as a value of the other's type, and both types are comparable; `nil` may be
/// used as the other's type; and two operands without types match. Else it is None.
pub fn compare(
    context: &Context<'_>,
    alloc: Global,
    op: CompareOp,
    left: &Operand,
    right: &Operand,
) -> Result<Option<Operand>, NoMemory>
    ensures { IfOk result (Gives (IsComparison (env_of context.now.env.now) op left.now right.now)) }
{
    if are_constant(left, right) {
        return compare_constants(context, alloc, op, left, right);
    }
    if is_equality(op) {
        let equal = equates(context, alloc, left, right)?;
        let answer = as_truth(equal);
        return Ok(answer);
    }
    let ordered = is_ordered(context, alloc, op, left, right)?;
    let order = as_truth(ordered);
    Ok(order)
}
