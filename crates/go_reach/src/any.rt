//! Flags of what is flagged in one of three.
ghost use Rattle.std.specs.Prelude.{◌≡◌, ◌||◌, IfOk};
ghost use Rattle.go_reach.specs.AnyFlags.{AreAny};

use go_base::memory::NoMemory;
use go_graphs::flags::flag;
use std::alloc::Global;

fn any(first: bool, second: bool, third: bool) -> bool
    ensures { result ≡ (first || (second || third)) }
{
    first || (second || third)
}

/// Flags of the numbers below the count that are flagged in one of the three.
pub fn any_of(
    alloc: Global,
    count: usize,
    first: &[bool],
    second: &[bool],
    third: &[bool],
) -> Result<Vec<bool>, NoMemory>
    ensures { IfOk result (λ flags. AreAny first.now second.now third.now count flags.items) }
{
    let mut flags = Vec::new(alloc);
    for number in 0..count {
        let set = any(
            flag(first, number),
            flag(second, number),
            flag(third, number),
        );
        flags.push(set)?;
    }
    Ok(flags)
}
