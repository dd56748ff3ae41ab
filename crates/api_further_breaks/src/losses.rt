//! What the types of each pair lose, by all rules on pairs.
ghost use Rattle.std.specs.Prelude.{◌≡◌, ◌⊎◌, [], true, false, IfOk, OnOk};
ghost use Rattle.go_base.specs.Lists.{Has};
ghost use Rattle.go_model.specs.types.Terms.{error_type};
ghost use Rattle.api_correspond.specs.Rules.{KeepsPair, KeepsAmong};
ghost use Rattle.api_breaks.specs.Breaks.{IsLoss, IsLossAmong};
ghost use Rattle.api_breaks.specs.inner.Telling.{Tells};
ghost use Rattle.api_further_breaks.specs.inner.Partners.{HoldShared};
ghost use Rattle.api_further_breaks.specs.inner.Sealed.{HoldSealed};
ghost use Rattle.api_further_breaks.specs.inner.Losses.{HoldOwned, KeepsAll, IsSomeLoss, AreLosses};

use crate::implementing::push_implementing;
use crate::partners::{push_partners, shared};
use crate::sealed::{SealedPairs, sealed_pairs};
use api_breaks::broken::Lost;
use api_breaks::pairs::push_pair;
use go_base::list::List;
use go_base::memory::NoMemory;
use go_model::types::package::Defined;
use go_model::types::world::World;
use go_selectors::name::Name;
use go_type_images::pair::TypePair;
use indexmap::IndexSet;
use std::alloc::Global;

// What the types of a pair lose by the rules on two pairs.
fn push_among<'a>(
    alloc: Global,
    error: &'a Defined,
    old: &'a World,
    new: &'a World,
    pairs: &'a [TypePair],
    sealed: &SealedPairs<'_>,
    olds: &IndexSet<Name<'a>>,
    news: &IndexSet<Name<'a>>,
    pair: &'a TypePair,
    losses: &mut Vec<Lost>,
) -> Result<(), NoMemory>
    requires error { error.now ≡ error_type }
    requires owned { HoldOwned old.now new.now pairs.now }
    requires there { Has pairs.now pair.now }
    requires sealed { HoldSealed old.now new.now pairs.now sealed.now }
    requires olds { HoldShared true pairs.now olds.now.keys }
    requires news { HoldShared false pairs.now news.now.keys }
    ensures { OnOk result (Tells (KeepsAmong old.now new.now pair.now) (IsLossAmong old.now new.now pair.now) losses.old.items losses.new.items) }
{
    push_implementing(alloc, error, old, new, pairs, sealed, pair, losses)?;
    push_partners(alloc, old, new, pairs, olds, news, pair, losses)?;
    Ok(())
}

// What the types of a pair lose.
fn losses_of<'a>(
    alloc: Global,
    error: &'a Defined,
    old: &'a World,
    new: &'a World,
    pairs: &'a [TypePair],
    sealed: &SealedPairs<'_>,
    olds: &IndexSet<Name<'a>>,
    news: &IndexSet<Name<'a>>,
    pair: &'a TypePair,
) -> Result<List<Lost>, NoMemory>
    requires error { error.now ≡ error_type }
    requires owned { HoldOwned old.now new.now pairs.now }
    requires there { Has pairs.now pair.now }
    requires sealed { HoldSealed old.now new.now pairs.now sealed.now }
    requires olds { HoldShared true pairs.now olds.now.keys }
    requires news { HoldShared false pairs.now news.now.keys }
    ensures { IfOk result (Tells (KeepsAll old.now new.now pair.now) (IsSomeLoss old.now new.now pair.now) []) }
{
    let mut losses = Vec::new(alloc);
    push_pair(alloc, error, old, new, pair, &mut losses)?;
    push_among(
        alloc,
        error,
        old,
        new,
        pairs,
        sealed,
        olds,
        news,
        pair,
        &mut losses,
    )?;
    Ok(List::from_vec(losses))
}

/// What the types of each of these pairs lose, in the same order: they are exactly the owned pairs.
pub(crate) fn all_losses<'a>(
    alloc: Global,
    error: &'a Defined,
    old: &'a World,
    new: &'a World,
    pairs: &'a [TypePair],
) -> Result<Vec<List<Lost>>, NoMemory>
    requires error { error.now ≡ error_type }
    requires owned { HoldOwned old.now new.now pairs.now }
    ensures { IfOk result (λ all. AreLosses old.now new.now pairs.now all.items) }
{
    let sealed = sealed_pairs(alloc, error, old, new, pairs)?;
    let olds = shared(alloc, pairs, true)?;
    let news = shared(alloc, pairs, false)?;
    let mut all = Vec::new(alloc);
    for pair in pairs {
        let losses = losses_of(alloc, error, old, new, pairs, &sealed, &olds, &news, pair)?;
        all.push(losses)?;
    }
    Ok(all)
}
