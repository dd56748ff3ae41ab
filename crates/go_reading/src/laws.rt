//! Laws of the definitions.
ghost use Rattle.std.specs.Prelude.{◌≡◌, ◌≢◌, ℕ, List, [], true, false, Ok};
ghost use Rattle.go_base.specs.Lists.{Has};
ghost use Rattle.go_imports.specs.ImportPaths.{IsUnder};
ghost use Rattle.go_model.specs.declared.files.platform.Platform.{Platform};
ghost use Rattle.go_model.specs.declared.files.tree.Tree.{Tree};
ghost use Rattle.go_model.specs.declared.files.tree.TreeFile.{TreeFile};
ghost use Rattle.go_model.specs.files.Trees.{IsTree, are_elements};
ghost use Rattle.go_model.specs.types.Terms.{client_path};
ghost use Rattle.go_reading.specs.FilesByName.{by_name, AreByName};
ghost use Rattle.go_reading.specs.FolderReadings.{IsReading};
ghost use Rattle.go_reading.specs.TreeFolders.{AreTreeFolders};
ghost use Rattle.go_reading.specs.TreeUnits.{AreUnitsOfTrees};
ghost use Rattle.go_units.specs.declared.folder.Folder.{Folder};
ghost use Rattle.go_units.specs.declared.reader.Reading.{Reading};
ghost use Rattle.go_units.specs.declared.unit.«Unit».{«Unit» as PackageUnit};
ghost use Rattle.go_units.specs.declared.unit_list.Units.{Units};

use go_lex::laws::one_list;
use go_parse::outline::one_tree;
use go_tags::laws::one_header;

/// Files by name are the same files, and none has a name before that of one in front of it.
pub fn files_by_name()
    ensures ordered { (files : List TreeFile) → AreByName (by_name files) }
    ensures sound { (files : List TreeFile) (f : TreeFile) → Has (by_name files) f → Has files f }
    ensures complete { (files : List TreeFile) (f : TreeFile) → Has files f → Has (by_name files) f }
{}

/// The files of a folder give one reading.
pub fn one_reading()
    ensures { (p : Platform) (files : List TreeFile) (a b : Reading) → IsReading p files a → IsReading p files b → a ≡ b }
{
    one_header();
    one_list();
    one_tree();
}

/// Two trees have one list of folders. A folder of the module equals its path or lies under it, and one of the standard library
/// doesn't, where that path is barred.
pub fn one_folder_list()
    ensures one { (p : Platform) (barred : List (List ℕ)) (tree std_tree : Tree) (a b : List Folder) → AreTreeFolders p barred tree std_tree a → AreTreeFolders p barred tree std_tree b → a ≡ b }
    ensures own { (p : Platform) (barred : List (List ℕ)) (tree std_tree : Tree) (folders : List Folder) (f : Folder) → AreTreeFolders p barred tree std_tree folders → Has folders f → f.from_std ≡ false → IsUnder f.path tree.module }
    ensures std { (p : Platform) (barred : List (List ℕ)) (tree std_tree : Tree) (folders : List Folder) (f : Folder) → Has barred tree.module → AreTreeFolders p barred tree std_tree folders → Has folders f → f.from_std ≡ true → IsUnder f.path tree.module → ⊥ }
{}

/// The path of each unit of trees is one or more elements, so it isn't empty, and none is a client's.
pub fn unit_paths()
    ensures { (p : Platform) (barred : List (List ℕ)) (tree std_tree : Tree) (units : Units) → IsTree tree → IsTree std_tree → tree.module ≢ [] → AreUnitsOfTrees p barred tree std_tree (Ok units) → (u : PackageUnit) → Has units.packages u → (u.path ≢ []) × (u.path ≢ client_path) × (are_elements u.path ≡ true) }
{}
