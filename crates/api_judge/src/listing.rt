//! What is broken, told, gathered, and then listed in the order of its texts.
ghost use Rattle.std.specs.Prelude.{◌≡◌, ◌↔◌, List as Seq, [], IfOk, OnOk};
ghost use Rattle.go_base.specs.Growing.{Grows};
ghost use Rattle.api_correspond.specs.OwnedPairs.{HoldsOwned};
ghost use Rattle.api_correspond.specs.Rules.{Compatible};
ghost use Rattle.go_type_images.specs.declared.pair.TypePair.{TypePair};
ghost use Rattle.api_judge.specs.inner.Listings.{IsToldOf};
ghost use Rattle.api_judge.specs.Verdicts.{AreBreaks};
ghost use Rattle.api_subjects.specs.Told.{IsTold};

use api_breaks::broken::Break;
use api_further_breaks::breaks::breaks;
use api_lines::printed::by_texts;
use api_subjects::broken::Broken;
use api_subjects::laws::one_way;
use api_subjects::told::told;
use go_base::list::List;
use go_base::memory::NoMemory;
use go_model::types::world::World;
use std::alloc::Global;

fn push(all: &mut Vec<Broken>, told: Broken) -> Result<(), NoMemory>
    ensures { OnOk result (Grows (λ b. told ≡ b) all.old.items all.new.items) }
{
    all.push(told)?;
    Ok(())
}

// Adds what is broken, told.
fn tell(
    alloc: Global,
    old: &World,
    new: &World,
    broken: &Break,
    all: &mut Vec<Broken>,
) -> Result<(), NoMemory>
    ensures { OnOk result (Grows (IsTold old.now new.now broken.now) all.old.items all.new.items) }
{
    one_way();
    let told = told(alloc, old, new, broken)?;
    push(all, told)?;
    Ok(())
}

// All of it, told.
fn tell_all(
    alloc: Global,
    old: &World,
    new: &World,
    breaks: &[Break],
) -> Result<Vec<Broken>, NoMemory>
    ensures { IfOk result (λ all. Grows (IsToldOf old.now new.now breaks.now) [] all.items) }
{
    let mut all = Vec::with_capacity(alloc, breaks.len())?;
    for broken in breaks {
        tell(alloc, old, new, broken, &mut all)?;
    }
    Ok(all)
}

/// What is broken where `new` takes the place of `old`, each text once, in the order of bytes: no text exactly where `new` keeps all of
/// `old`.
pub fn told_breaks(alloc: Global, old: &World, new: &World) -> Result<List<Broken>, NoMemory>
    ensures exact { IfOk result (AreBreaks old.now new.now) }
    ensures compatible { IfOk result (λ breaks. (breaks ≡ []) ↔ Compatible old.now new.now) }
    ensures held { IfOk result (λ breaks. (pairs : Seq TypePair) × HoldsOwned old.now new.now pairs) }
{
    let found = breaks(alloc, old, new)?;
    let all = tell_all(alloc, old, new, &found)?;
    let listed = by_texts(alloc, all)?;
    Ok(listed)
}
