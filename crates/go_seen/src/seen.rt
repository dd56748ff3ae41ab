//! The declarations of a package that other modules see.
ghost use Rattle.std.specs.Prelude.{◌≡◌, length, IfOk};
ghost use Rattle.go_declarations.specs.Listings.{declarations_of};
ghost use Rattle.go_exposed.specs.ExposedDeclarations.{IsExposed};
ghost use Rattle.go_graphs.specs.Flags.{AreFlagsOf};
ghost use Rattle.go_sifting.specs.Graphs.{AreRows};
ghost use Rattle.go_soundness.specs.LostDeclarations.{Depends};
ghost use Rattle.go_sources.specs.UnitSources.{source_of};
ghost use Rattle.go_typings.specs.Declarations.{declarations as all_declarations};
ghost use Rattle.go_typings.specs.PackageEnvironments.{Entries};
ghost use Rattle.go_typings.specs.Sources.{Setting};

use crate::offered::offered;
use go_base::list::List;
use go_base::memory::NoMemory;
use go_declarations::listing::Declaration;
use go_reach::reached::reached;
use go_units::unit::Unit;
use std::alloc::Global;

/// Flags of the declarations of a package that are seen: those that are offered, and all on which a seen one depends, where the rows
/// have those on which each depends. It takes time by the number of the declarations, of the names in them and of the rows' members.
/// For numbers past 32 bits there is no memory.
pub fn seen(
    alloc: Global,
    unit: &Unit,
    declarations: &[Declaration<'_>],
    depends: &[List<u32>],
) -> Result<Vec<bool>, NoMemory>
    requires { declarations_of declarations.now ≡ all_declarations (source_of unit.now) }
    ensures { (s : Setting) (a : Entries) → AreRows s (source_of unit.now) a (Depends s (source_of unit.now) a) depends.now
        → IfOk result (λ flags. AreFlagsOf (length (all_declarations (source_of unit.now))) (IsExposed (source_of unit.now)) flags.items) }
{
    let offered = offered(alloc, unit, declarations)?;
    let seen = reached(alloc, depends, offered)?;
    Ok(seen)
}
