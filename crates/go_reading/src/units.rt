//! The units of a module's tree.
ghost use Rattle.std.specs.Prelude.{◌≡◌, ◌<◌, ◌≤◌};
ghost use Rattle.go_base.specs.Lists.{Has};
ghost use Rattle.go_model.specs.files.Trees.{IsTree};
ghost use Rattle.go_reading.specs.TreeUnits.{AreUnitsOfTrees};

use crate::folder_list::{TreeFolders, tree_folders};
use crate::known::KnownOutlines;
use crate::reader::TreeReader;
use go_base::text::Text;
use go_model::files::platform::Platform;
use go_model::files::tree::Tree;
use go_units::unit_error::UnitError;
use go_units::unit_list::Units;
use std::alloc::Global;

/// The units of a module's tree on a platform: its packages in canonical order, with those of the standard library's tree that
/// they reach through found imports that they use. The barred paths are the paths of modules, that of this tree among them: a
/// folder of the standard library with one of them, or under one, is ignored. A file whose outline is known isn't parsed again.
///
/// Else the first refusal. The folders of the module are read in the order of their paths, and then always the one with the
/// least path for which a used import asks. In each one the first file that is refused comes first: for its header where the
/// platform allows its name, else, where the platform chooses it, for a place without a token, else for its grammar. Then comes
/// `MixedNames` where its files have several package names, and then `InternalUse` at the first place that uses an import
/// which its package may not import. After all of them comes `Cycle`, with the least package that needs itself, directly or
/// through others.
pub fn units(
    alloc: Global,
    tree: &Tree,
    std_tree: &Tree,
    barred: &[Text],
    platform: Platform,
    known: &KnownOutlines,
) -> Result<Units, UnitError>
    requires tree { IsTree tree.now }
    requires std { IsTree std_tree.now }
    requires barred { Has barred.now tree.now.module }
    ensures { AreUnitsOfTrees platform barred.now tree.now std_tree.now result }
{
    match tree_folders(alloc, platform, barred, tree, std_tree) {
        Err(_) => Err(UnitError::NoMemory),
        Ok(TreeFolders { folders, contents }) => {
            let reader = TreeReader { contents, known };
            go_units::units::units(alloc, &reader, tree.module.bytes(), folders.items())
        }
    }
}
