//! Which level each package of a tree is on.
ghost use Rattle.std.specs.Prelude.{◌≡◌, ◌⊎◌, ◌<◌, ◌≤◌, ◌+◌, ℕ, Some, IfOk};
ghost use Rattle.go_base.specs.Lists.{Has};
ghost use Rattle.go_rules.specs.Names.{value_at};
ghost use Rattle.go_levels.specs.UnitLevels.{AreBelow, AreUnitLevels, IsLeastOver};

use crate::known::KnownLevels;
use go_base::list::List;
use go_base::memory::NoMemory;
use go_base::text::Text;
use go_units::unit_list::Units;
use std::alloc::Global;

// The first level above those of these paths, as far as they are known.
fn level_above(known: &KnownLevels, paths: &[Text], count: usize) -> usize
    requires few { count < 4294967296 }
    requires known { AreBelow known.now count }
    ensures above { (path : List ℕ) (level : ℕ) → Has paths.now path → value_at known.now path ≡ Some level → level < result }
    ensures least { IsLeastOver known.now paths.now result }
    ensures within { result ≤ count }
{
    let mut level = 0;
    for path in paths {
        level = level_after(known.of(path), level, count);
    }
    level
}

fn level_after(below: Option<usize>, level: usize, count: usize) -> usize
    requires few { count < 4294967296 }
    requires level { level ≤ count }
    requires below { (b : ℕ) → below ≡ Some b → b < count }
    ensures above { (b : ℕ) → below ≡ Some b → b < result }
    ensures kept { level ≤ result }
    ensures least { (result ≡ level) ⊎ ((b : ℕ) × (below ≡ Some b) × (result ≡ b + 1)) }
    ensures within { result ≤ count }
{
    match below {
        None => level,
        Some(below) => { if level <= below { below + 1 } else { level } }
    }
}

/// The level of each package, by its number in canonical order: 0 where it needs none, else one more than the greatest of those that it needs.
pub fn levels(alloc: Global, units: &Units) -> Result<List<usize>, NoMemory>
    ensures { IfOk result (AreUnitLevels units.now) }
{
    let mut known = KnownLevels::new(alloc);
    let mut levels = List::new(alloc);
    let mut count = 0;
    let all = units.packages.items();
    for unit in all {
        let level = level_above(&known, unit.needs.items(), count);
        known.put(unit.path.copy()?, level)?;
        levels.push(level)?;
        count += 1;
    }
    Ok(levels)
}
