//! The packages of trees on a platform.
ghost use Rattle.go_base.specs.Lists.{Has};
ghost use Rattle.go_model.specs.files.Trees.{IsTree};
ghost use Rattle.go_reading.specs.TreeUnits.{AreUnitsOfTrees};

use crate::trees::PlatformTrees;
use go_base::memory::NoMemory;
use go_reading::known::KnownOutlines;
use go_reading::units::units;
use go_units::unit_error::UnitError;
use go_units::unit_list::Units;
use std::alloc::Global;

/// The packages of trees on a platform. A file whose outline is known isn't parsed again; what is known isn't kept.
pub(crate) fn platform_units(
    alloc: Global,
    trees: &PlatformTrees<'_>,
    known: Result<KnownOutlines, NoMemory>,
) -> Result<Units, UnitError>
    requires tree { IsTree trees.now.tree.now }
    requires std { IsTree trees.now.std_tree.now }
    requires barred { Has trees.now.barred.now trees.now.tree.now.module }
    ensures { AreUnitsOfTrees trees.now.platform trees.now.barred.now trees.now.tree.now trees.now.std_tree.now result }
{
    match known {
        Err(NoMemory) => Err(UnitError::NoMemory),
        Ok(known) => units(
            alloc,
            trees.tree,
            trees.std_tree,
            trees.barred,
            trees.platform,
            &known,
        ),
    }
}
