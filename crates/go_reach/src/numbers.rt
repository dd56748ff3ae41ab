//! The numbers that are flagged.
ghost use Rattle.std.specs.Prelude.{◌+◌, IfOk, OnOk};
ghost use Rattle.go_reach.specs.Numbers.{AreFlagged};

use go_base::memory::NoMemory;
use go_graphs::flags::flag;
use std::alloc::Global;

fn add_flagged(flags: &[bool], numbers: &mut Vec<u32>, number: u32) -> Result<(), NoMemory>
    ensures { OnOk result (AreFlagged flags.now number numbers.old.items → AreFlagged flags.now (number + 1) numbers.new.items) }
{
    if !flag(flags, number as usize) {
        return Ok(());
    }
    numbers.push(number)?;
    Ok(())
}

/// The numbers below the count that are flagged, in their order. `NoMemory` may come at any time, and comes where a number below the count
/// is no `u32`.
pub fn flagged_numbers(alloc: Global, flags: &[bool], count: usize) -> Result<Vec<u32>, NoMemory>
    ensures { IfOk result (λ numbers. AreFlagged flags.now count numbers.items) }
{
    let mut numbers = Vec::new(alloc);
    for place in 0..count {
        let Ok(number) = u32::try_from(place) else {
            return Err(NoMemory);
        };
        add_flagged(flags, &mut numbers, number)?;
    }
    Ok(numbers)
}
