//! Packages of which something is left out.
ghost use Rattle.std.specs.Prelude.{◌≡◌, ◌++◌, OnOk};
ghost use Rattle.go_work.specs.KeptUnits.{kept_unit};

use crate::checked::SkippedUnit;
use go_base::list::List;
use go_base::memory::NoMemory;
use go_exposed::skipped::Skipped;
use go_units::unit::Unit;

/// Keeps a unit where something is left out of it, and else gives up its syntax.
pub(crate) fn keep(
    kept: &mut List<SkippedUnit>,
    unit: Unit,
    skipped: List<Skipped>,
) -> Result<(), NoMemory>
    ensures { OnOk result (kept.new ≡ kept.old ++ kept_unit unit skipped) }
{
    if skipped.items().is_empty() {
        return Ok(());
    }
    kept.push(SkippedUnit { unit, skipped })
}
