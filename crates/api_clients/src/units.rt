//! The packages of a module with a client on a platform.
ghost use Rattle.go_base.specs.Lists.{Has};
ghost use Rattle.go_client_unit_laws.specs.go_client_units.ClientUnits.{AreClientUnits};
ghost use Rattle.go_model.specs.files.Trees.{IsTree};

use crate::trees::ClientTrees;
use go_base::memory::NoMemory;
use go_client_unit_laws::go_client_units::units::{ClientUnits, client_units};
use go_model::files::platform::Platform;
use go_reading::known::KnownOutlines;
use go_units::unit_error::UnitError;
use std::alloc::Global;

/// The packages with the client. A file of the packages whose outline is known isn't parsed again; what is known isn't kept.
pub(crate) fn units_over(
    alloc: Global,
    trees: &ClientTrees<'_>,
    platform: Platform,
    known: Result<KnownOutlines, NoMemory>,
) -> Result<ClientUnits, UnitError>
    requires tree { IsTree trees.now.tree.now }
    requires std { IsTree trees.now.std_tree.now }
    requires client { IsTree trees.now.client.now }
    requires barred { Has trees.now.barred.now trees.now.tree.now.module }
    ensures { AreClientUnits platform trees.now.barred.now trees.now.tree.now trees.now.std_tree.now trees.now.client.now result }
{
    match known {
        Err(NoMemory) => Err(UnitError::NoMemory),
        Ok(known) => client_units(
            alloc,
            trees.tree,
            trees.std_tree,
            trees.client,
            trees.barred,
            platform,
            &known,
        ),
    }
}
