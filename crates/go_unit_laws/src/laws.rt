//! Laws of the units of trees.
ghost use Rattle.std.specs.Prelude.{◌≡◌, ◌≢◌, ℕ, List, Err, Ok, Result, map};
ghost use Rattle.go_file_choices.specs.AlikePlatforms.{AllChosenAlike};
ghost use Rattle.go_model.specs.declared.files.platform.Platform.{Platform};
ghost use Rattle.go_model.specs.declared.files.tree.Tree.{Tree};
ghost use Rattle.go_reading.specs.TreeUnits.{AreUnitsOfTrees};
ghost use Rattle.go_unit_laws.specs.WrittenUnits.{written};
ghost use Rattle.go_units.specs.declared.unit_error.UnitError.{UnitError};
ghost use Rattle.go_units.specs.declared.unit_error.UnitError.TheVariants.{NoMemory};
ghost use Rattle.go_units.specs.declared.unit_list.Units.{Units};

use go_reading::laws::{files_by_name, one_folder_list, one_reading};

/// Trees have one list of units on a platform, or else one refusal: the units are written the same, in the same order. Want of
/// memory apart, which may come at any time.
pub fn one_answer()
    ensures units { (p : Platform) (barred : List (List ℕ)) (tree std_tree : Tree) (a b : Units) → AreUnitsOfTrees p barred tree std_tree (Ok a) → AreUnitsOfTrees p barred tree std_tree (Ok b) → map written a.packages ≡ map written b.packages }
    ensures refusal { (p : Platform) (barred : List (List ℕ)) (tree std_tree : Tree) (d e : UnitError) → d ≢ NoMemory → e ≢ NoMemory → AreUnitsOfTrees p barred tree std_tree (Err d) → AreUnitsOfTrees p barred tree std_tree (Err e) → d ≡ e }
    ensures apart { (p : Platform) (barred : List (List ℕ)) (tree std_tree : Tree) (a : Units) (e : UnitError) → e ≢ NoMemory → AreUnitsOfTrees p barred tree std_tree (Ok a) → AreUnitsOfTrees p barred tree std_tree (Err e) → ⊥ }
{
    one_folder_list();
    one_reading();
}

/// Two platforms that choose the same files of the trees have the same units of them, or the same refusal.
pub fn alike_units()
    ensures { (p q : Platform) (barred : List (List ℕ)) (tree std_tree : Tree) (r : Result Units UnitError) → AllChosenAlike tree.files p q → AllChosenAlike std_tree.files p q → AreUnitsOfTrees p barred tree std_tree r → AreUnitsOfTrees q barred tree std_tree r }
{
    files_by_name();
}
