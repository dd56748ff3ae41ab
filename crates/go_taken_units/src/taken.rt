//! Packages that are taken over from those that were typed before.
ghost use Rattle.std.specs.Prelude.{◌≡◌, [], None, Ok, Some, true, ℕ, IfOk, slice_get};
ghost use Rattle.std.specs.Option.{option_copied};
ghost use Rattle.go_taken_units.specs.TakenUnits.{TakesOver, with_path};

use crate::same::is_same_unit;
use crate::taken_imports::are_taken;
use go_base::memory::NoMemory;
use go_base::text::Text;
use go_units::unit::Unit;
use std::alloc::Global;
use std::collections::{BTreeMap, BTreeSet};

/// Packages that were typed before, and the paths of those that were taken over so far.
#[derive(Drop)]
pub struct TakenUnits<'a> {
    pub earlier: &'a [Unit],
    pub taken: BTreeSet<Text>,
    numbers: BTreeMap<Text, usize>,
}

fn numbers_of(alloc: Global, units: &[Unit]) -> Result<BTreeMap<Text, usize>, NoMemory> {
    let mut numbers = BTreeMap::new(alloc);
    for (number, unit) in units.iter().enumerate() {
        let path = unit.path.copy()?;
        numbers.insert(path, number)?;
    }
    Ok(numbers)
}

fn unit_at(units: &[Unit], number: usize) -> Option<&Unit>
    ensures { option_copied result ≡ slice_get units.now number }
{
    units.get(number)
}

// Whether a package is taken over from the earlier one of this number.
fn takes_over(earlier: &[Unit], paths: &BTreeSet<Text>, unit: &Unit, number: usize) -> bool
    ensures { result ≡ true → TakesOver earlier.now paths.now.keys unit.now number }
{
    match unit_at(earlier, number) {
        None => false,
        Some(other) => {
            if !are_taken(paths, unit) {
                return false;
            }
            is_same_unit(unit, other)
        }
    }
}

impl<'a> TakenUnits<'a> {
    /// These packages, of which none is taken over yet.
    pub fn new(alloc: Global, earlier: &'a [Unit]) -> Result<TakenUnits<'a>, NoMemory>
        ensures earlier { IfOk result (λ t. t.earlier.now ≡ earlier.entry.now) }
        ensures taken { IfOk result (λ t. t.taken.keys ≡ []) }
    {
        Ok(TakenUnits {
            earlier,
            taken: BTreeSet::new(alloc),
            numbers: numbers_of(alloc, earlier)?,
        })
    }

    /// Takes a package over where the earlier ones have the same and all of its imports that are found were taken over, and gives its number among them.
    pub fn next(&mut self, alloc: Global, unit: &Unit) -> Result<Option<usize>, NoMemory>
        ensures earlier { self.new.earlier.now ≡ self.old.earlier.now }
        ensures fresh { result ≡ Ok None → self.new.taken.keys ≡ self.old.taken.keys }
        ensures takes { (m : ℕ) → result ≡ Ok (Some m) → TakesOver self.old.earlier.now self.old.taken.keys unit.now m }
        ensures taken { (m : ℕ) → result ≡ Ok (Some m) → self.new.taken.keys ≡ with_path self.old.taken.keys unit.now.path }
    {
        match self.numbers.get(&unit.path).copied() {
            None => Ok(None),
            Some(number) => {
                if !takes_over(self.earlier, &self.taken, unit, number) {
                    return Ok(None);
                }
                self.taken.insert(unit.path.copy()?)?;
                Ok(Some(number))
            }
        }
    }
}
