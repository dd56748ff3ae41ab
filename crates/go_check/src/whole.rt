//! What is answered of a package whose entries are all had, where nothing may be left out.
ghost use Rattle.std.specs.Prelude.{◌≡◌, length};
ghost use Rattle.go_check.specs.Answers.{WholeAnswers};
ghost use Rattle.go_declarations.specs.Listings.{declarations_of};
ghost use Rattle.go_declared.specs.PackageTables.{AreTables};
ghost use Rattle.go_graphs.specs.Flags.{is_flagged};
ghost use Rattle.go_packages.specs.go_entries.HadEntries.{entries_at};
ghost use Rattle.go_soundness.specs.Apart.{IsApart};
ghost use Rattle.go_soundness.specs.Settled.{AreAll, AreSifted};
ghost use Rattle.go_sources.specs.UnitSources.{source_of};
ghost use Rattle.go_syntax.specs.declared.name.Place.{Place as Spot};
ghost use Rattle.go_typings.specs.Declarations.{declarations as all_declarations};
ghost use Rattle.go_typings.specs.Redeclarations.{IsRedeclared};
ghost use Rattle.go_typings.specs.Refusals.{IsMissing};
ghost use Rattle.go_typings.specs.Sources.{Setting};

use crate::error::CheckError;
use go_base::memory::NoMemory;
use go_declared::package::PackageTables;
use go_exposed::laws::whole_package;
use go_left_out::places::place_of;
use go_model::types::package::Package;
use go_packages::go_entries::had::HadEntries;
use go_packages::package::package;
use go_sifting::first::first_flagged;
use go_soundness::laws::{typed_or_first_unsound, typed_or_refused};
use go_units::unit::Unit;
use std::alloc::Global;

/// The package of these entries, or its refusal at the first declaration that is lost.
pub(crate) fn whole(
    alloc: Global,
    unit: &Unit,
    tables: &PackageTables<'_>,
    had: &HadEntries,
    lost: &[bool],
) -> Result<Package, CheckError>
    requires listed { declarations_of tables.now.declarations.now ≡ all_declarations (source_of unit.now) }
    requires tables { AreTables tables.now }
    requires flags { length lost.now ≡ length (all_declarations (source_of unit.now)) }
    requires once { (q : Spot) → IsRedeclared (source_of unit.now) q → ⊥ }
    requires found { (q : Spot) → IsMissing (source_of unit.now) q → ⊥ }
    ensures { (s : Setting) → IsApart s (source_of unit.now) → AreAll s (source_of unit.now) (entries_at had.now)
        → AreSifted s (source_of unit.now) (entries_at had.now) (is_flagged lost.now) → WholeAnswers s (source_of unit.now) result }
{
    typed_or_first_unsound();
    typed_or_refused();
    whole_package();
    match first_flagged(lost) {
        Some(number) => Err(CheckError::Unsound(place_of(&tables.declarations[number]))),
        None => match package(alloc, unit, tables, had) {
            Ok(package) => Ok(package),
            Err(NoMemory) => Err(CheckError::NoMemory),
        },
    }
}
