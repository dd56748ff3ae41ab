//! Laws of the units of a module with a client.
ghost use Rattle.std.specs.Prelude.{◌≡◌, ◌≢◌, ℕ, List, [], Err, Ok, Result, map};
ghost use Rattle.go_base.specs.Lists.{Has};
ghost use Rattle.go_client_unit_laws.specs.WrittenClients.{AreWrittenAlike};
ghost use Rattle.go_client_units.specs.ClientUnits.{AreClientUnits};
ghost use Rattle.go_client_units.specs.declared.units.ClientUnits.{ClientUnits as WithClient};
ghost use Rattle.go_file_choices.specs.AlikePlatforms.{AllChosenAlike};
ghost use Rattle.go_model.specs.declared.files.platform.Platform.{Platform};
ghost use Rattle.go_model.specs.declared.files.tree.Tree.{Tree};
ghost use Rattle.go_model.specs.files.Trees.{IsTree};
ghost use Rattle.go_model.specs.types.Terms.{client_path};
ghost use Rattle.go_unit_laws.specs.WrittenUnits.{written};
ghost use Rattle.go_units.specs.declared.unit.«Unit».{«Unit» as PackageUnit};
ghost use Rattle.go_units.specs.declared.unit_error.UnitError.{UnitError};
ghost use Rattle.go_units.specs.declared.unit_error.UnitError.TheVariants.{NoMemory};

use go_client_units::go_file_blocks::blocks::one_list as one_block_list;
use go_lex::laws::one_list;
use go_reading::go_parse::outline::one_tree;
use go_reading::laws::{files_by_name, one_folder_list, one_reading};
use go_tags::laws::one_header;

/// A module with a client has one list of units on a platform, or else one refusal: the units and the client are written the same, the
/// client with the same blocks. Want of memory apart, which may come at any time.
pub fn one_client_answer()
    ensures units { (p : Platform) (barred : List (List ℕ)) (tree std_tree client : Tree) (a b : WithClient) → AreClientUnits p barred tree std_tree client (Ok a) → AreClientUnits p barred tree std_tree client (Ok b)
        → (map written a.packages.packages ≡ map written b.packages.packages) × AreWrittenAlike a.client b.client }
    ensures refusal { (p : Platform) (barred : List (List ℕ)) (tree std_tree client : Tree) (d e : UnitError) → d ≢ NoMemory → e ≢ NoMemory → AreClientUnits p barred tree std_tree client (Err d) → AreClientUnits p barred tree std_tree client (Err e) → d ≡ e }
    ensures apart { (p : Platform) (barred : List (List ℕ)) (tree std_tree client : Tree) (a : WithClient) (e : UnitError) → e ≢ NoMemory → AreClientUnits p barred tree std_tree client (Ok a) → AreClientUnits p barred tree std_tree client (Err e) → ⊥ }
{
    one_header();
    one_list();
    one_tree();
    one_block_list();
    one_folder_list();
    one_reading();
}

/// Two platforms that choose the same files of the trees and of a client have the same units with it, or the same refusal.
pub fn alike_client_units()
    ensures { (p q : Platform) (barred : List (List ℕ)) (tree std_tree client : Tree) (r : Result WithClient UnitError) → AllChosenAlike tree.files p q → AllChosenAlike std_tree.files p q → AllChosenAlike client.files p q
        → AreClientUnits p barred tree std_tree client r → AreClientUnits q barred tree std_tree client r }
{
    files_by_name();
}

/// The path of each package of a module with a client isn't empty, and none is the client's.
pub fn client_unit_paths()
    ensures { (p : Platform) (barred : List (List ℕ)) (tree std_tree client : Tree) (r : WithClient) → IsTree tree → IsTree std_tree → tree.module ≢ [] → AreClientUnits p barred tree std_tree client (Ok r)
        → (u : PackageUnit) → Has r.packages.packages u → (u.path ≢ []) × (u.path ≢ client_path) }
{}
