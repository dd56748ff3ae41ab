//! What declared names are after the aliases of a package.
ghost use Rattle.std.specs.Prelude.{◌≡◌, ℕ, true, length, IfOk};
ghost use Rattle.go_base.specs.Keys.{item_of};
ghost use Rattle.go_declarations.specs.Listings.{declarations_of};
ghost use Rattle.go_declared.specs.AliasEnds.{AreEnds, aliased_at, name_at};
ghost use Rattle.go_declared.specs.NameTables.{AreDeclared};
ghost use Rattle.go_declared.specs.inner.NextAliases.{AreNames, AreSteps, next, number_by, number_of, step, walked};

use crate::names::{DeclaredNames, NamePlace};
use crate::receivers::aliased_by;
use go_base::memory::NoMemory;
use go_declarations::listing::Declaration;
use go_syntax::name::QualifiedName;
use std::alloc::Global;

/// The name that a table has for the declaration of a number.
pub(crate) fn name_at<'a>(
    names: &[Option<&'a QualifiedName>],
    number: usize,
) -> Option<&'a QualifiedName>
    ensures { item_of result ≡ name_at names.now number }
{
    match names.get(number) {
        Some(name) => *name,
        None => None,
    }
}

// The number that a table has for another; a number past its end stays.
fn step(numbers: &[usize], number: usize) -> usize
    ensures { result ≡ step numbers.now number }
{
    match numbers.get(number) {
        Some(next) => *next,
        None => number,
    }
}

// The names that declarations make their own aliases of.
fn aliased_names<'a>(
    alloc: Global,
    declarations: &[Declaration<'a>],
) -> Result<Vec<Option<&'a QualifiedName>>, NoMemory>
    ensures { IfOk result (λ names. AreNames (length declarations.now) (aliased_at (declarations_of declarations.now)) names.items) }
{
    let mut names = Vec::with_capacity(alloc, declarations.len())?;
    for number in 0..declarations.len() {
        names.push(aliased_by(declarations[number].form))?;
    }
    Ok(names)
}

// The number of the alias that is declared at a place, or the other.
fn number_by(aliased: &[Option<&QualifiedName>], place: Option<NamePlace>, other: usize) -> usize
    ensures { result ≡ number_by aliased.now place other }
{
    match place {
        None => other,
        Some(place) => match name_at(aliased, place.number) {
            None => other,
            Some(_) => place.number,
        },
    }
}

// The number of the alias that a name is, or the other.
fn number_of(
    names: &DeclaredNames,
    aliased: &[Option<&QualifiedName>],
    name: &QualifiedName,
    other: usize,
) -> usize
    ensures { result ≡ number_of names.now aliased.now name.now.qualifier name.now.name other }
{
    if name.qualifier.is_some() {
        return other;
    }
    number_by(aliased, names.get(&name.name.text), other)
}

// The number of the alias that follows that of a number; the same number where none does.
fn next(names: &DeclaredNames, aliased: &[Option<&QualifiedName>], number: usize) -> usize
    ensures { result ≡ next names.now aliased.now number }
{
    match name_at(aliased, number) {
        None => number,
        Some(name) => number_of(names, aliased, name, number),
    }
}

fn nexts(
    alloc: Global,
    names: &DeclaredNames,
    aliased: &[Option<&QualifiedName>],
) -> Result<Vec<usize>, NoMemory>
    ensures { IfOk result (λ numbers. AreSteps (length aliased.now) (next names.now aliased.now) numbers.items) }
{
    let mut numbers = Vec::with_capacity(alloc, aliased.len())?;
    for number in 0..aliased.len() {
        numbers.push(next(names, aliased, number))?;
    }
    Ok(numbers)
}

// Numbers that stay.
fn staying(alloc: Global, count: usize) -> Result<Vec<usize>, NoMemory>
    ensures { IfOk result (λ numbers. AreSteps count (λ i. i) numbers.items) }
{
    let mut numbers = Vec::with_capacity(alloc, count)?;
    for number in 0..count {
        numbers.push(number)?;
    }
    Ok(numbers)
}

// A step by one table, and then one by another.
fn composed(alloc: Global, first: &[usize], second: &[usize]) -> Result<Vec<usize>, NoMemory>
    ensures { IfOk result (λ numbers. AreSteps (length first.now) (λ i. step second.now (step first.now i)) numbers.items) }
{
    let mut numbers = Vec::with_capacity(alloc, first.len())?;
    for number in 0..first.len() {
        numbers.push(step(second, step(first, number)))?;
    }
    Ok(numbers)
}

// So many steps on, by halves.
fn steps_on(alloc: Global, numbers: &[usize], times: usize) -> Result<Vec<usize>, NoMemory>
    ensures { IfOk result (λ walks. AreSteps (length numbers.now) (walked numbers.now times) walks.items) }
{
    if times == 0 {
        return staying(alloc, numbers.len());
    }
    let half = steps_on(alloc, numbers, times / 2)?;
    let twice = composed(alloc, &half, &half)?;
    if times % 2 == 0 {
        return Ok(twice);
    }
    composed(alloc, numbers, &twice)
}

// Whether each number stays.
fn stays(numbers: &[usize]) -> bool
    ensures { result ≡ true → (i : ℕ) → step numbers.now i ≡ i }
{
    for number in 0..numbers.len() {
        if step(numbers, number) != number {
            return false;
        }
    }
    true
}

// So many steps on. Where each number stays, as in most packages, that takes no halves.
fn walks(alloc: Global, numbers: &[usize], times: usize) -> Result<Vec<usize>, NoMemory>
    ensures { IfOk result (λ walks. AreSteps (length numbers.now) (walked numbers.now times) walks.items) }
{
    if stays(numbers) {
        return staying(alloc, numbers.len());
    }
    steps_on(alloc, numbers, times)
}

// The names at the last numbers.
fn names_at<'a>(
    alloc: Global,
    aliased: &[Option<&'a QualifiedName>],
    lasts: &[usize],
) -> Result<Vec<Option<&'a QualifiedName>>, NoMemory>
    ensures { IfOk result (λ ends. AreNames (length lasts.now) (λ i. name_at aliased.now (step lasts.now i)) ends.items) }
{
    let mut ends = Vec::with_capacity(alloc, lasts.len())?;
    for number in 0..lasts.len() {
        ends.push(name_at(aliased, step(lasts, number)))?;
    }
    Ok(ends)
}

/// By the numbers of declarations that are aliases of a name what their own names are after the aliases of the package.
///
/// The time grows with the number of declarations and its logarithm, however long the aliases lead on, or in a circle.
pub fn alias_ends<'a>(
    alloc: Global,
    declarations: &[Declaration<'a>],
    names: &DeclaredNames,
) -> Result<Vec<Option<&'a QualifiedName>>, NoMemory>
    requires { AreDeclared (declarations_of declarations.now) names.now }
    ensures { IfOk result (λ ends. AreEnds (declarations_of declarations.now) ends.items) }
{
    let aliased = aliased_names(alloc, declarations)?;
    let numbers = nexts(alloc, names, &aliased)?;
    let lasts = walks(alloc, &numbers, declarations.len().saturating_sub(1))?;
    names_at(alloc, &aliased, &lasts)
}
