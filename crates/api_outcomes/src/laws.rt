//! Laws of what has to come of words and files.
ghost use Rattle.std.specs.Prelude.{◌≢◌, ◌⊎◌, ℕ, [], List, Some};
ghost use Rattle.api_gate.specs.runs.Outcomes.{EndsWith, Outcome};
ghost use Rattle.api_inputs.specs.Inputs.{AreInputs, IsInputRefusal};
ghost use Rattle.api_inputs.specs.declared.inputs.Inputs.{Inputs};
ghost use Rattle.api_texts.specs.declared.lines.Side.{Side};
ghost use Rattle.api_words.specs.declared.request.Request.{Request};
ghost use Rattle.api_worlds.specs.PlatformWorlds.{IsRefusedOn, IsWorldOn};
ghost use Rattle.go_base.specs.Lists.{Has};
ghost use Rattle.go_existence.specs.Existence.{NotNone};
ghost use Rattle.go_model.specs.declared.files.platform.Platform.{Platform};
ghost use Rattle.go_model.specs.declared.files.tree.Tree.{Tree};
ghost use Rattle.go_model.specs.files.Trees.{IsTree};
ghost use Rattle.go_model.specs.worlds.Worlds.{Packages};
ghost use Rattle.go_outside.specs.Stores.{Contents};

use api_break_outcomes::laws::verdict_exists;
use go_client_outcomes::laws::{client_units_or_refusal, vetted_exists};
use go_client_unit_laws::laws::client_unit_paths;
use go_reading::laws::unit_paths;
use go_unit_outcomes::laws::units_or_refusal;
use go_unit_worlds::laws::worlds_of_units;
use go_world_outcomes::laws::{skips_exist, world_or_refusal};

/// A request has inputs over the files that a store tells, or a first refusal.
pub fn inputs_or_refusal()
    ensures { (m : Contents) (r : Request) → NotNone (((i : Inputs) × AreInputs (Some m) r i) ⊎ ((line : List ℕ) × IsInputRefusal (Some m) r line)) }
{}

/// Trees have a world on a platform, or a fault line.
pub fn world_or_fault_line()
    ensures { (barred : List (List ℕ)) (tree std_tree : Tree) (s : Side) (p : Platform) → Has barred tree.module → IsTree tree → tree.module ≢ [] → IsTree std_tree
        → NotNone (((w : Packages) × IsWorldOn barred tree std_tree p w) ⊎ ((line : List ℕ) × IsRefusedOn barred tree std_tree s p line)) }
{
    units_or_refusal();
    unit_paths();
    world_or_refusal();
    skips_exist();
}

/// Words have an outcome over whatever files: so the definitions are never silent, and want of memory never stands in for them.
pub fn outcome_exists()
    ensures { (words : List (List ℕ)) (m : Contents) → NotNone ((o : Outcome) × EndsWith words (Some m) o) }
{
    units_or_refusal();
    unit_paths();
    world_or_refusal();
    skips_exist();
    verdict_exists();
    client_units_or_refusal();
    client_unit_paths();
    worlds_of_units();
    vetted_exists();
}
