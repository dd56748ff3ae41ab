//! The arguments of calls: how many there are, and where they may be passed to parameters.
ghost use Rattle.std.specs.Prelude.{◌≡◌, ◌∷◌, ◌++◌, [], IfOk, MatchOption, false, true};
ghost use Rattle.go_base.specs.Keys.{item_of};
ghost use Rattle.go_base.specs.Lists.{Each};
ghost use Rattle.go_model.specs.declared.types.term.Term.{Term, Term-F, out-Term};
ghost use Rattle.go_rules.specs.Expressions.{ArgumentsFit};
ghost use Rattle.go_rules.specs.Operands.{tuple};
ghost use Rattle.go_rules.specs.Scopes.{env_of};
ghost use Rattle.go_rules.specs.Usability.{UsableAs};
ghost use Rattle.go_rules.specs.declared.operand.Operand.{Operand};
ghost use Rattle.go_selectors.specs.Answers.{Decides};
ghost use Rattle.go_elements.specs.go_usability.Answers.{Gives};
ghost use Rattle.go_calls.specs.inner.Arguments.{RestFits, UsableEach};

use go_base::memory::NoMemory;
use go_elements::go_operators::values::is_usable;
use go_elements::go_usability::context::Context;
use go_model::types::term::Term;
use go_rules::operand::Operand;
use std::alloc::Global;

// ---- how many there are

/// The one operand, where there is one alone.
pub(crate) fn sole(operands: &[Operand]) -> Option<&Operand>
    ensures { MatchOption result ((o : Operand) → operands.now ≡ o ∷ [] → ⊥) (λ o. operands.now ≡ o.now ∷ []) }
{
    match operands.split_first() {
        Some((operand, rest)) => { if rest.is_empty() { Some(operand) } else { None } }
        None => None,
    }
}

/// Whether there is no operand, and no `...`.
pub(crate) fn is_none(operands: &[Operand], dots: bool) -> bool
    ensures { Decides result ((operands.now ≡ []) × (dots ≡ false)) }
{
    operands.is_empty() && !dots
}

/// The one operand, without `...`.
pub(crate) fn one(operands: &[Operand], dots: bool) -> Option<&Operand>
    ensures { MatchOption result ((o : Operand) → operands.now ≡ o ∷ [] → dots ≡ false → ⊥) (λ o. (operands.now ≡ o.now ∷ []) × (dots ≡ false)) }
{
    if dots {
        return None;
    }
    sole(operands)
}

/// The two operands, without `...`.
pub(crate) fn two(operands: &[Operand], dots: bool) -> Option<(&Operand, &Operand)>
    ensures { MatchOption result ((o q : Operand) → operands.now ≡ o ∷ q ∷ [] → dots ≡ false → ⊥) (λ p. (operands.now ≡ p.0.now ∷ p.1.now ∷ []) × (dots ≡ false)) }
{
    if dots {
        return None;
    }
    match operands.split_first() {
        Some((operand, rest)) => match sole(rest) {
            Some(other) => Some((operand, other)),
            None => None,
        },
        None => None,
    }
}

// ---- where they may be passed

// Whether the operands are usable as values of these types, one for each.
fn usable_each(
    context: &Context<'_>,
    alloc: Global,
    operands: &[Operand],
    terms: &[Term],
) -> Result<bool, NoMemory>
    ensures { IfOk result (λ answer. Decides answer (UsableEach (env_of context.now.env.now) operands.now terms.now)) }
{
    let same = operands.len() == terms.len();
    if !same {
        return Ok(false);
    }
    for (at, operand) in operands.iter().enumerate() {
        let fits = is_usable(context, alloc, operand, &terms[at])?;
        if !fits {
            return Ok(false);
        }
    }
    Ok(true)
}

// Whether all operands are usable as values of a type.
pub(crate) fn usable_all(
    context: &Context<'_>,
    alloc: Global,
    operands: &[Operand],
    term: &Term,
) -> Result<bool, NoMemory>
    ensures { IfOk result (λ answer. Decides answer (Each (λ o. UsableAs (env_of context.now.env.now) o term.now) operands.now)) }
{
    for operand in operands {
        let fits = is_usable(context, alloc, operand, term)?;
        if !fits {
            return Ok(false);
        }
    }
    Ok(true)
}

// The element of a slice type.
fn slice_element(term: &Term) -> Option<&Term>
    ensures { Gives (λ e. out-Term term.now ≡ Term-F.Slice e) (item_of result) }
{
    match term {
        Term::Slice(element) => Some(element.value()),
        _ => None,
    }
}

// Whether the operands may be passed to a variadic parameter of this type.
fn rest_fits(
    context: &Context<'_>,
    alloc: Global,
    dots: bool,
    term: &Term,
    operands: &[Operand],
) -> Result<bool, NoMemory>
    ensures { IfOk result (λ answer. Decides answer (RestFits (env_of context.now.env.now) dots term.now operands.now)) }
{
    if dots {
        return match sole(operands) {
            Some(operand) => {
                let last = is_usable(context, alloc, operand, term)?;
                Ok(last)
            }
            None => Ok(false),
        };
    }
    match slice_element(term) {
        Some(element) => {
            let all = usable_all(context, alloc, operands, element)?;
            Ok(all)
        }
        None => Ok(false),
    }
}

// Whether the operands may be passed to parameters of the first types and a last variadic one.
fn fit_variadic(
    context: &Context<'_>,
    alloc: Global,
    dots: bool,
    params: &[Term],
    first: &[Term],
    last: &Term,
    operands: &[Operand],
) -> Result<bool, NoMemory>
    requires { params.now ≡ first.now ++ last.now ∷ [] }
    ensures { IfOk result (λ answer. Decides answer (ArgumentsFit (env_of context.now.env.now) true dots params.now operands.now)) }
{
    let few = operands.len() < first.len();
    if few {
        return Ok(false);
    }
    let (fixed, rest) = operands.split_at(first.len());
    let each = usable_each(context, alloc, fixed, first)?;
    if !each {
        return Ok(false);
    }
    let answer = rest_fits(context, alloc, dots, last, rest)?;
    Ok(answer)
}

/// Whether the operands may be passed to parameters of these types, the last of which is variadic or not.
pub(crate) fn arguments_fit(
    context: &Context<'_>,
    alloc: Global,
    variadic: bool,
    dots: bool,
    params: &[Term],
    operands: &[Operand],
) -> Result<bool, NoMemory>
    ensures { IfOk result (λ answer. Decides answer (ArgumentsFit (env_of context.now.env.now) variadic dots params.now operands.now)) }
{
    if !variadic {
        if dots {
            return Ok(false);
        }
        let each = usable_each(context, alloc, operands, params)?;
        return Ok(each);
    }
    match params.split_last() {
        Some((last, first)) => fit_variadic(context, alloc, dots, params, first, last, operands),
        None => Ok(false),
    }
}
