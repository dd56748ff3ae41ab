//! Laws of the definitions.
ghost use Rattle.std.specs.Prelude.{◌≡◌, ℕ, List};
ghost use Rattle.api_texts.specs.declared.lines.Side.{Side as SideName};
ghost use Rattle.api_worlds.specs.LeftOut.{AreLeftOutOn};
ghost use Rattle.api_worlds.specs.PlatformWorlds.{IsRefusedOn, IsWorldOn};
ghost use Rattle.go_model.specs.declared.files.platform.Platform.{Platform};
ghost use Rattle.go_model.specs.declared.files.tree.Tree.{Tree};
ghost use Rattle.go_model.specs.worlds.Worlds.{Packages};

use go_exposed::laws::{one_skipped, one_world};
use go_unit_laws::laws::one_answer;

/// On a platform trees have one world, of which one list of declarations is left out, or one refusal, and not both.
pub fn one_world_on()
    ensures world { (barred : List (List ℕ)) (tree std_tree : Tree) (p : Platform) (v w : Packages)
        → IsWorldOn barred tree std_tree p v → IsWorldOn barred tree std_tree p w → v ≡ w }
    ensures left_out { (barred : List (List ℕ)) (tree std_tree : Tree) (p : Platform) (a b : List (List ℕ))
        → AreLeftOutOn barred tree std_tree p a → AreLeftOutOn barred tree std_tree p b → a ≡ b }
    ensures refusal { (barred : List (List ℕ)) (tree std_tree : Tree) (s : SideName) (p : Platform) (a b : List ℕ)
        → IsRefusedOn barred tree std_tree s p a → IsRefusedOn barred tree std_tree s p b → a ≡ b }
    ensures apart { (barred : List (List ℕ)) (tree std_tree : Tree) (s : SideName) (p : Platform) (w : Packages) (line : List ℕ)
        → IsWorldOn barred tree std_tree p w → IsRefusedOn barred tree std_tree s p line → ⊥ }
{
    one_answer();
    one_world();
    one_skipped();
}
