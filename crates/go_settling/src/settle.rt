//! Settles what can be settled.
ghost use Rattle.std.specs.Prelude.{◌≡◌, ◌||◌, length, IfOk, OnOk};
ghost use Rattle.go_typings.specs.Declarations.{declarations};
ghost use Rattle.go_soundness.specs.Settled.{AreAll};
ghost use Rattle.go_settling.specs.Settling.{AreFromBelow};
ghost use Rattle.go_settling.specs.inner.Passes.{IsSamePackage, Passed};

use crate::giver::Giver;
use go_base::memory::NoMemory;

// Tries a number that may be that of a declaration.
fn settle_one<G: Giver>(giver: &mut G, count: usize, number: usize) -> Result<(), NoMemory>
    requires count { count ≡ length (declarations (G.source giver.old)) }
    requires held { G.holds giver.old }
    requires below { AreFromBelow (G.setting giver.old) (G.source giver.old) (G.entries giver.old) }
    ensures held { OnOk result (G.holds giver.new) }
    ensures same { IsSamePackage (G.setting giver.old) (G.setting giver.new) (G.source giver.old) (G.source giver.new) }
    ensures below { AreFromBelow (G.setting giver.old) (G.source giver.old) (G.entries giver.new) }
{
    if number >= count {
        return Ok(());
    }
    match giver.settle(number) {
        Err(error) => Err(error),
        Ok(_) => Ok(()),
    }
}

// Tries each of these declarations once.
fn settle_hinted<G: Giver>(giver: &mut G, count: usize, hints: &[u32]) -> Result<(), NoMemory>
    requires count { count ≡ length (declarations (G.source giver.old)) }
    requires held { G.holds giver.old }
    requires below { AreFromBelow (G.setting giver.old) (G.source giver.old) (G.entries giver.old) }
    ensures held { OnOk result (G.holds giver.new) }
    ensures same { IsSamePackage (G.setting giver.old) (G.setting giver.new) (G.source giver.old) (G.source giver.new) }
    ensures below { AreFromBelow (G.setting giver.old) (G.source giver.old) (G.entries giver.new) }
{
    for hint in hints {
        let number = *hint as usize;
        if let Err(error) = settle_one(giver, count, number) {
            return Err(error);
        }
    }
    Ok(())
}

fn either(left: bool, right: bool) -> bool
    ensures { result ≡ (left || right) }
{
    left || right
}

// Tries each declaration once; says whether one got its entry.
fn settle_each<G: Giver>(giver: &mut G, count: usize) -> Result<bool, NoMemory>
    requires count { count ≡ length (declarations (G.source giver.old)) }
    requires held { G.holds giver.old }
    requires below { AreFromBelow (G.setting giver.old) (G.source giver.old) (G.entries giver.old) }
    ensures held { OnOk result (G.holds giver.new) }
    ensures same { IsSamePackage (G.setting giver.old) (G.setting giver.new) (G.source giver.old) (G.source giver.new) }
    ensures below { AreFromBelow (G.setting giver.old) (G.source giver.old) (G.entries giver.new) }
    ensures passed { IfOk result (λ moved. Passed (G.setting giver.old) (G.source giver.old) (G.entries giver.old) count moved (G.entries giver.new)) }
{
    let mut moved = false;
    for number in 0..count {
        match giver.settle(number) {
            Err(error) => return Err(error),
            Ok(settled) => moved = either(moved, settled),
        }
    }
    Ok(moved)
}

/// Settles declarations until none is left that is given an entry: first those that are hinted, in order, and then in passes
/// over all.
///
/// The hints make it fast, and what is had in the end doesn't depend on them. Where no memory is left, what is had is still
/// had from below.
pub fn settle_all<G: Giver>(giver: &mut G, hints: &[u32]) -> Result<(), NoMemory>
    requires held { G.holds giver.old }
    requires below { AreFromBelow (G.setting giver.old) (G.source giver.old) (G.entries giver.old) }
    ensures held { OnOk result (G.holds giver.new) }
    ensures same_setting { G.setting giver.new ≡ G.setting giver.old }
    ensures same_source { G.source giver.new ≡ G.source giver.old }
    ensures below { AreFromBelow (G.setting giver.old) (G.source giver.old) (G.entries giver.new) }
    ensures all { OnOk result (AreAll (G.setting giver.old) (G.source giver.old) (G.entries giver.new)) }
{
    let count = giver.count();
    if let Err(error) = settle_hinted(giver, count, hints) {
        return Err(error);
    }
    'passes: loop {
        match settle_each(giver, count) {
            Err(error) => return Err(error),
            Ok(true) => {}
            Ok(false) => return Ok(()),
        }
    }
}
