//! The packages that are on a level.
ghost use Rattle.std.specs.Prelude.{◌≡◌, ◌<◌, ◌≤◌, ◌++◌, ◌∷◌, [], ℕ, IfOk, OnOk, length, slice_index};
ghost use Rattle.go_levels.specs.LevelNumbers.{AreOnLevel, on_level};

use go_base::list::List;
use go_base::memory::NoMemory;
use std::alloc::Global;

/// How many levels there are.
pub fn height(levels: &[usize]) -> usize
    requires { (n : ℕ) → slice_index levels.now n < 4294967296 }
    ensures { (n : ℕ) → n < length levels.now → slice_index levels.now n < result }
{
    let mut height = 0;
    for at in 0..levels.len() {
        let level = levels[at];
        if height <= level {
            height = level + 1;
        }
    }
    height
}

// Adds a number where what is found is the level.
fn add_found(
    numbers: &mut List<usize>,
    found: usize,
    level: usize,
    number: usize,
) -> Result<(), NoMemory>
    ensures on { OnOk result (found ≡ level → numbers.new ≡ numbers.old ++ number ∷ []) }
    ensures off { OnOk result ((found ≡ level → ⊥) → numbers.new ≡ numbers.old) }
{
    if found == level {
        return numbers.push(number);
    }
    Ok(())
}

/// The numbers below an end of the packages on a level, each once.
pub fn numbers_on(
    alloc: Global,
    levels: &[usize],
    level: usize,
    end: usize,
) -> Result<List<usize>, NoMemory>
    requires { end ≤ length levels.now }
    ensures numbers { IfOk result (AreOnLevel levels.now level end) }
    ensures few { IfOk result (λ numbers. length numbers ≤ on_level levels.now level) }
{
    let mut numbers = List::new(alloc);
    for number in 0..end {
        add_found(&mut numbers, levels[number], level, number)?;
    }
    Ok(numbers)
}
