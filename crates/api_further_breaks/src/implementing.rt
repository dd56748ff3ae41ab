//! Which interfaces types don't implement any more.
ghost use Rattle.std.specs.Prelude.{◌≡◌, [], true, false, OnOk};
ghost use Rattle.go_model.specs.types.Terms.{error_type, pointer_to};
ghost use Rattle.go_selectors.specs.Answers.{Decides};
ghost use Rattle.go_selectors.specs.Candidates.{Candidates, HoldMethodSet, IsCandidate, AreCandidates};
ghost use Rattle.api_correspond.specs.Publics.{types_of};
ghost use Rattle.api_correspond.specs.inner.BySel.{places_at};
ghost use Rattle.api_correspond.specs.inner.Tables.{ItemAt};
ghost use Rattle.api_breaks.specs.inner.Telling.{Tells, KeptBy};
ghost use Rattle.api_further_breaks.specs.inner.Sealed.{HoldSealed, AreNowhere};
ghost use Rattle.api_further_breaks.specs.inner.Implementing.{KeepsAt, IsLostAt, KeepsOf, IsLostOf, IsLostBy, IsLostBySome, KeepsInterfaces, IsLostInterface, KeepsBoth, IsImplementingLoss};

use crate::sealed::{SealedPair, SealedPairs};
use api_breaks::broken::Lost;
use api_correspond::by_sel::places_at;
use api_correspond::levels::method_set;
use go_base::list::List;
use go_base::memory::NoMemory;
use go_model::types::names::Sel;
use go_model::types::package::Defined;
use go_model::types::term::{Method, Term, pointer_to};
use go_model::types::world::World;
use go_selectors::candidate::Candidate;
use go_selectors::candidates::{called_at, candidates};
use go_selectors::identity::same_signature;
use go_selectors::lookup::Lookup;
use go_type_images::pair::TypePair;
use std::alloc::Global;
use std::collections::BTreeMap;

fn is_candidate(callable: &BTreeMap<Sel, Candidate<'_>>, method: &Method) -> bool
    ensures { Decides result (IsCandidate callable.now method.now) }
{
    match called_at(callable, &method.sel) {
        Some(signature) => same_signature(signature, &method.signature),
        None => false,
    }
}

// Whether these methods can be called, with identical signatures.
fn are_candidates(callable: &BTreeMap<Sel, Candidate<'_>>, methods: &[Method]) -> bool
    ensures { Decides result (AreCandidates callable.now methods.now) }
{
    for method in methods {
        if !is_candidate(callable, method) {
            return false;
        }
    }
    true
}

fn pair_at<'m, 'a>(pairs: &'m [SealedPair<'a>], at: usize) -> Option<&'m SealedPair<'a>>
    ensures { ItemAt pairs.now at result }
{
    match pairs.get(at) {
        Some(pair) => Some(pair),
        None => None,
    }
}

// Adds the old interface of the pair at a place, where what was called had its methods and what is called has those of the new not.
fn push_at(
    alloc: Global,
    sealed: &[SealedPair<'_>],
    callable: &BTreeMap<Sel, Candidate<'_>>,
    called: &BTreeMap<Sel, Candidate<'_>>,
    at: usize,
    losses: &mut Vec<Lost>,
) -> Result<(), NoMemory>
    ensures { OnOk result (Tells (KeepsAt sealed.now callable.now called.now at) (IsLostAt sealed.now callable.now called.now at) losses.old.items losses.new.items) }
{
    match pair_at(sealed, at) {
        None => Ok(()),
        Some(found) => {
            if !are_candidates(callable, found.old) {
                return Ok(());
            }
            if are_candidates(called, found.new) {
                return Ok(());
            }
            let interface = found.pair.old.copy(alloc)?;
            losses.push(Lost::Implements(interface))?;
            Ok(())
        }
    }
}

// The same of the pairs at places.
fn push_places(
    alloc: Global,
    sealed: &[SealedPair<'_>],
    callable: &BTreeMap<Sel, Candidate<'_>>,
    called: &BTreeMap<Sel, Candidate<'_>>,
    places: &[usize],
    losses: &mut Vec<Lost>,
) -> Result<(), NoMemory>
    ensures { OnOk result (Tells (KeptBy (KeepsAt sealed.now callable.now called.now) places.now) (IsLostOf sealed.now callable.now called.now places.now) losses.old.items losses.new.items) }
{
    for at in places {
        push_at(alloc, sealed, callable, called, *at, losses)?;
    }
    Ok(())
}

// The same of the pairs that stand at the selector of a method.
fn push_method(
    alloc: Global,
    sealed: &SealedPairs<'_>,
    callable: &BTreeMap<Sel, Candidate<'_>>,
    called: &BTreeMap<Sel, Candidate<'_>>,
    method: &Method,
    losses: &mut Vec<Lost>,
) -> Result<(), NoMemory>
    ensures { OnOk result (Tells (KeepsOf sealed.now.pairs.items sealed.now.places callable.now called.now method.now) (IsLostBy sealed.now.pairs.items sealed.now.places callable.now called.now method.now) losses.old.items losses.new.items) }
{
    let places = places_at(&sealed.places, &method.sel);
    push_places(alloc, &sealed.pairs, callable, called, places, losses)?;
    Ok(())
}

fn push_methods(
    alloc: Global,
    sealed: &SealedPairs<'_>,
    callable: &BTreeMap<Sel, Candidate<'_>>,
    called: &BTreeMap<Sel, Candidate<'_>>,
    methods: &[Method],
    losses: &mut Vec<Lost>,
) -> Result<(), NoMemory>
    ensures { OnOk result (Tells (KeptBy (KeepsOf sealed.now.pairs.items sealed.now.places callable.now called.now) methods.now) (IsLostBySome sealed.now.pairs.items sealed.now.places callable.now called.now methods.now) losses.old.items losses.new.items) }
{
    for method in methods {
        push_method(alloc, sealed, callable, called, method, losses)?;
    }
    Ok(())
}

// The same, with what can be called on an old and on a new type.
fn push_called<'a>(
    alloc: Global,
    error: &'a Defined,
    old: &'a World,
    new: &'a World,
    sealed: &SealedPairs<'_>,
    before: &'a Term,
    after: &'a Term,
    methods: &[Method],
    losses: &mut Vec<Lost>,
) -> Result<(), NoMemory>
    requires { error.now ≡ error_type }
    ensures { OnOk result ((callable : Candidates) × (called : Candidates) × HoldMethodSet (types_of old.now) before.now callable × HoldMethodSet (types_of new.now) after.now called × Tells (KeptBy (KeepsOf sealed.now.pairs.items sealed.now.places callable called) methods.now) (IsLostBySome sealed.now.pairs.items sealed.now.places callable called methods.now) losses.old.items losses.new.items) }
{
    let olds = Lookup::new(old, error);
    let news = Lookup::new(new, error);
    let callable = candidates(alloc, &olds, before)?;
    let called = candidates(alloc, &news, after)?;
    push_methods(alloc, sealed, &callable, &called, methods, losses)?;
    Ok(())
}

fn is_nowhere(places: &BTreeMap<Sel, List<usize>>, sel: &Sel) -> bool
    ensures { result ≡ true → places_at places.now sel.now ≡ [] }
{
    places_at(places, sel).is_empty()
}

// Whether a pair stands at the selector of one of these methods.
fn is_somewhere(places: &BTreeMap<Sel, List<usize>>, methods: &[Method]) -> bool
    ensures { result ≡ false → AreNowhere places.now methods.now }
{
    for method in methods {
        if !is_nowhere(places, &method.sel) {
            return true;
        }
    }
    false
}

// Adds the sealed interfaces that an old type implements, and a new type not.
fn push_set(
    alloc: Global,
    error: &Defined,
    old: &World,
    new: &World,
    pairs: &[TypePair],
    sealed: &SealedPairs<'_>,
    before: &Term,
    after: &Term,
    losses: &mut Vec<Lost>,
) -> Result<(), NoMemory>
    requires error { error.now ≡ error_type }
    requires sealed { HoldSealed old.now new.now pairs.now sealed.now }
    ensures { OnOk result (Tells (KeepsInterfaces old.now new.now pairs.now before.now after.now) (IsLostInterface old.now new.now pairs.now before.now after.now) losses.old.items losses.new.items) }
{
    let set = method_set(alloc, error, old, before)?;
    let methods = set.items();
    if !is_somewhere(&sealed.places, methods) {
        return Ok(());
    }
    push_called(
        alloc, error, old, new, sealed, before, after, methods, losses,
    )?;
    Ok(())
}

fn push_pointers(
    alloc: Global,
    error: &Defined,
    old: &World,
    new: &World,
    pairs: &[TypePair],
    sealed: &SealedPairs<'_>,
    pair: &TypePair,
    losses: &mut Vec<Lost>,
) -> Result<(), NoMemory>
    requires error { error.now ≡ error_type }
    requires sealed { HoldSealed old.now new.now pairs.now sealed.now }
    ensures { OnOk result (Tells (KeepsInterfaces old.now new.now pairs.now (pointer_to pair.now.old) (pointer_to pair.now.new)) (IsLostInterface old.now new.now pairs.now (pointer_to pair.now.old) (pointer_to pair.now.new)) losses.old.items losses.new.items) }
{
    let before = pointer_to(alloc, &pair.old)?;
    let after = pointer_to(alloc, &pair.new)?;
    push_set(
        alloc, error, old, new, pairs, sealed, &before, &after, losses,
    )?;
    Ok(())
}

fn is_none(sealed: &SealedPairs<'_>) -> bool
    ensures { result ≡ true → sealed.now.pairs.items ≡ [] }
{
    sealed.pairs.is_empty()
}

/// Adds the sealed interfaces which the old type of a pair implements and the new one not, or the
/// pointer to the one and not to the other.
pub(crate) fn push_implementing(
    alloc: Global,
    error: &Defined,
    old: &World,
    new: &World,
    pairs: &[TypePair],
    sealed: &SealedPairs<'_>,
    pair: &TypePair,
    losses: &mut Vec<Lost>,
) -> Result<(), NoMemory>
    requires error { error.now ≡ error_type }
    requires sealed { HoldSealed old.now new.now pairs.now sealed.now }
    ensures { OnOk result (Tells (KeepsBoth old.now new.now pairs.now pair.now) (IsImplementingLoss old.now new.now pairs.now pair.now) losses.old.items losses.new.items) }
{
    if is_none(sealed) {
        return Ok(());
    }
    push_set(
        alloc, error, old, new, pairs, sealed, &pair.old, &pair.new, losses,
    )?;
    push_pointers(alloc, error, old, new, pairs, sealed, pair, losses)?;
    Ok(())
}
