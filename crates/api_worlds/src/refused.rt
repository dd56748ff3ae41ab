//! What is refused on a platform.
ghost use Rattle.std.specs.Prelude.{◌≡◌};
ghost use Rattle.api_worlds.specs.Refused.{IsPackageRefusal, IsUnitRefusal, TellsFault};

use crate::error::PlatformError;
use crate::trees::PlatformTrees;
use api_refusals::refusals::{PackageFault, package_line, unit_line};
use api_texts::lines::Side;
use go_base::memory::NoMemory;
use go_model::files::tree::TreeFile;
use go_units::unit::Unit;
use go_units::unit_error::UnitError;
use go_work::go_check::error::CheckError;
use std::alloc::Global;

/// That the packages of trees, or the files of a client over them, aren't taken. Where there is no client it has no files.
pub fn refused_units(
    alloc: Global,
    side: Side,
    trees: &PlatformTrees<'_>,
    client: &[TreeFile],
    error: &UnitError,
) -> PlatformError
    ensures { IsUnitRefusal trees.now.tree.now trees.now.std_tree.now client.now side trees.now.platform error.now result }
{
    match error {
        UnitError::NoMemory => PlatformError::NoMemory,
        _ => match unit_line(
            alloc,
            side,
            trees.platform,
            trees.tree,
            trees.std_tree,
            client,
            error,
        ) {
            Ok(line) => PlatformError::Refused(line),
            Err(NoMemory) => PlatformError::NoMemory,
        },
    }
}

fn fault_of(error: CheckError) -> Option<PackageFault>
    ensures { TellsFault error result }
{
    match error {
        CheckError::Redeclared(place) => Some(PackageFault::Redeclared(place)),
        CheckError::MissingImport(place) => Some(PackageFault::MissingImport(place)),
        CheckError::Unsound(place) => Some(PackageFault::Unsound(place)),
        CheckError::NoMemory => None,
    }
}

/// That a package of trees, or of trees with a client over them, isn't typed. Where there is no client it has no files.
pub fn refused_package(
    alloc: Global,
    side: Side,
    trees: &PlatformTrees<'_>,
    client: &[TreeFile],
    unit: &Unit,
    error: CheckError,
) -> PlatformError
    ensures { IsPackageRefusal trees.now.tree.now trees.now.std_tree.now client.now side trees.now.platform unit.now error result }
{
    match fault_of(error) {
        None => PlatformError::NoMemory,
        Some(fault) => match package_line(
            alloc,
            side,
            trees.platform,
            trees.tree,
            trees.std_tree,
            client,
            unit,
            fault,
        ) {
            Ok(line) => PlatformError::Refused(line),
            Err(NoMemory) => PlatformError::NoMemory,
        },
    }
}
