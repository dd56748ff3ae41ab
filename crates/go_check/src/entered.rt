//! Which declarations have an entry.
ghost use Rattle.std.specs.Prelude.{◌≡◌, length, true, IfOk};
ghost use Rattle.go_check.specs.inner.Entered.{entered};
ghost use Rattle.go_graphs.specs.Flags.{AreFlagsOf};
ghost use Rattle.go_packages.specs.go_entries.HadEntries.{entries_at};
ghost use Rattle.go_soundness.specs.Settled.{is_had};

use go_base::memory::NoMemory;
use go_packages::go_entries::had::HadEntries;
use std::alloc::Global;

/// Flags of the declarations that have an entry.
pub(crate) fn entered(alloc: Global, had: &HadEntries) -> Result<Vec<bool>, NoMemory>
    ensures { IfOk result (λ flags. AreFlagsOf (length had.now) (λ n. is_had (entries_at had.now) n ≡ true) flags.items) }
{
    let mut flags = Vec::new(alloc);
    for number in 0..had.count() {
        flags.push(had.get(number).is_some())?;
    }
    Ok(flags)
}
