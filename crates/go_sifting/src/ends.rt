//! The declarations that are lost by themselves.
ghost use Rattle.std.specs.Prelude.{◌≡◌, ◌+◌, IfOk, OnOk};
ghost use Rattle.go_sifting.specs.inner.Ends.{AreEnds, fails};

use go_base::memory::NoMemory;
use go_graphs::flags::flag;
use std::alloc::Global;

fn fails(standing: &[bool], ranked: &[bool], back: &[bool], number: usize) -> bool
    ensures { result ≡ fails standing.now ranked.now back.now number }
{
    if !flag(standing, number) {
        return true;
    }
    if !flag(ranked, number) {
        return true;
    }
    flag(back, number)
}

fn add_end(
    standing: &[bool],
    ranked: &[bool],
    back: &[bool],
    ends: &mut Vec<u32>,
    number: u32,
) -> Result<(), NoMemory>
    ensures { OnOk result (AreEnds standing.now ranked.now back.now number ends.old.items → AreEnds standing.now ranked.now back.now (number + 1) ends.new.items) }
{
    if !fails(standing, ranked, back, number as usize) {
        return Ok(());
    }
    ends.push(number)?;
    Ok(())
}

/// The numbers below the count of those that don't stand, have no rank, or lead back from one of their lengths.
/// `NoMemory` may come at any time, and comes where a number below the count is no `u32`.
pub(crate) fn ends(
    alloc: Global,
    count: usize,
    standing: &[bool],
    ranked: &[bool],
    back: &[bool],
) -> Result<Vec<u32>, NoMemory>
    ensures { IfOk result (λ ends. AreEnds standing.now ranked.now back.now count ends.items) }
{
    let mut ends = Vec::new(alloc);
    for place in 0..count {
        let Ok(number) = u32::try_from(place) else {
            return Err(NoMemory);
        };
        add_end(standing, ranked, back, &mut ends, number)?;
    }
    Ok(ends)
}
