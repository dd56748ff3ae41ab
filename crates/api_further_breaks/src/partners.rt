//! Types that correspond to several types.
ghost use Rattle.std.specs.Prelude.{◌≡◌, [], true, false, IfOk, OnOk};
ghost use Rattle.go_selectors.specs.Answers.{Decides};
ghost use Rattle.go_base.specs.Lists.{Has, Once};
ghost use Rattle.api_breaks.specs.inner.Telling.{Tells};
ghost use Rattle.api_further_breaks.specs.inner.Partners.{AddsName, NameAt, side_of, NotesName, NotesSide, HoldShared, IsShared, HasOthers, KeepsPartners, IsPartnersLoss};

use api_breaks::broken::Lost;
use api_correspond::publics::are_of_module;
use go_base::memory::NoMemory;
use go_model::types::term::Term;
use go_model::types::world::World;
use go_selectors::name::Name;
use go_type_images::pair::TypePair;
use indexmap::IndexSet;
use std::alloc::Global;

// Adds a name, and tells whether it wasn't there.
fn add<'a>(names: &mut IndexSet<Name<'a>>, name: Name<'a>) -> Result<bool, NoMemory>
    ensures { IfOk result (AddsName names.old.keys names.new.keys name.entry) }
{
    Ok(names.insert(name)?)
}

// Adds a name to the first set, and to the second where it was in the first.
fn note<'a>(
    once: &mut IndexSet<Name<'a>>,
    twice: &mut IndexSet<Name<'a>>,
    name: &Name<'a>,
) -> Result<(), NoMemory>
    ensures { OnOk result (NotesName once.old.keys twice.old.keys once.new.keys twice.new.keys name.now) }
{
    let fresh = add(once, name.again())?;
    if fresh {
        return Ok(());
    }
    let _fresh = add(twice, name.again())?;
    Ok(())
}

// The old type of a pair, or the new one.
fn side_of<'a>(pair: &'a TypePair, is_old: bool) -> &'a Term
    ensures { result.now ≡ side_of is_old pair.now }
{
    if is_old {
        return &pair.old;
    }
    &pair.new
}

// Notes the name of a type, where it has one.
fn note_type<'a>(
    once: &mut IndexSet<Name<'a>>,
    twice: &mut IndexSet<Name<'a>>,
    term: &'a Term,
) -> Result<(), NoMemory>
    ensures { OnOk result (NotesSide once.old.keys twice.old.keys once.new.keys twice.new.keys term.now) }
{
    match term {
        Term::Named(name) => {
            let name = Name::new(name);
            note(once, twice, &name)?;
            Ok(())
        }
        _ => Ok(()),
    }
}

/// The names of the old types of pairs, or of the new ones, that stand in several of them.
pub(crate) fn shared<'a>(
    alloc: Global,
    pairs: &'a [TypePair],
    is_old: bool,
) -> Result<IndexSet<Name<'a>>, NoMemory>
    ensures { IfOk result (λ names. HoldShared is_old pairs.now names.keys) }
{
    let mut once = IndexSet::new(alloc);
    let mut twice = IndexSet::new(alloc);
    for at in 0..pairs.len() {
        note_type(&mut once, &mut twice, side_of(&pairs[at], is_old))?;
    }
    Ok(twice)
}

fn has<'a>(names: &IndexSet<Name<'a>>, name: &Name<'a>) -> bool
    ensures { Decides result (Has names.now.keys name.now) }
{
    names.contains(name)
}

// Whether a type is one of these names.
fn is_shared<'a>(names: &IndexSet<Name<'a>>, term: &'a Term) -> bool
    ensures { Decides result (IsShared names.now.keys term.now) }
{
    match term {
        Term::Named(name) => has(names, &Name::new(name)),
        _ => false,
    }
}

// Whether the old type of a pair stands in several, or the new one.
fn has_others<'a>(olds: &IndexSet<Name<'a>>, news: &IndexSet<Name<'a>>, pair: &'a TypePair) -> bool
    ensures { Decides result (HasOthers olds.now.keys news.now.keys pair.now) }
{
    is_shared(olds, &pair.old) || is_shared(news, &pair.new)
}

/// Adds that the types of a pair are of the module, and one of them stands in another pair too.
pub(crate) fn push_partners<'a>(
    alloc: Global,
    old: &World,
    new: &World,
    pairs: &'a [TypePair],
    olds: &IndexSet<Name<'a>>,
    news: &IndexSet<Name<'a>>,
    pair: &'a TypePair,
    losses: &mut Vec<Lost>,
) -> Result<(), NoMemory>
    requires once { Once pairs.now }
    requires there { Has pairs.now pair.now }
    requires olds { HoldShared true pairs.now olds.now.keys }
    requires news { HoldShared false pairs.now news.now.keys }
    ensures { OnOk result (Tells (KeepsPartners old.now new.now pairs.now pair.now) (IsPartnersLoss old.now new.now pairs.now pair.now) losses.old.items losses.new.items) }
{
    if !are_of_module(old, new, pair) {
        return Ok(());
    }
    if !has_others(olds, news, pair) {
        return Ok(());
    }
    let before = pair.old.copy(alloc)?;
    let after = pair.new.copy(alloc)?;
    losses.push(Lost::OneToOne(before, after))?;
    Ok(())
}
