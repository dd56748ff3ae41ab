//! Laws of the definitions: what a run finds in its trees is one thing.
ghost use Rattle.std.specs.Prelude.{◌≡◌, ◌≢◌, ℕ, List, [], Option, map};
ghost use Rattle.api_findings.specs.Findings.{AreFindings, AreLeftOut, IsFirstRefusal, shown};
ghost use Rattle.api_judge.specs.declared.verdict.Verdict.{Verdict as Found};
ghost use Rattle.api_lines.specs.Lines.{IsListing, printed};
ghost use Rattle.api_lines.specs.Merging.{IsMerged};
ghost use Rattle.api_lines.specs.declared.line.Line.{Line as Feature};
ghost use Rattle.api_texts.specs.declared.left_out.LeftOut.{LeftOut as Omitted};
ghost use Rattle.go_model.specs.declared.files.platform.Platform.{Platform};
ghost use Rattle.go_model.specs.declared.files.tree.Tree.{Tree};
ghost use Rattle.go_model.specs.files.Trees.{IsTree};

use api_judge::laws::one_verdict;
use api_worlds::laws::one_world_on;
use go_reading::laws::unit_paths;

/// On some platforms trees have one list of features, by its texts, one list of verdicts, as they are shown, and one of what is left out of
/// them, or one refusal, and not both.
pub fn one_finding()
    ensures features { (barred : List (List ℕ)) (old : Option Tree) (tree std_tree : Tree) (ps : List Platform) (a b : List (List Feature)) (vs ws : List Found)
        (merged other : List Feature) → IsTree tree → IsTree std_tree → tree.module ≢ []
        → AreFindings barred old tree std_tree ps a vs → AreFindings barred old tree std_tree ps b ws → IsListing (IsMerged a ps) merged
        → IsListing (IsMerged b ps) other → map printed merged ≡ map printed other }
    ensures verdicts { (barred : List (List ℕ)) (old : Option Tree) (tree std_tree : Tree) (ps : List Platform) (a b : List (List Feature)) (vs ws : List Found)
        → AreFindings barred old tree std_tree ps a vs → AreFindings barred old tree std_tree ps b ws → map shown vs ≡ map shown ws }
    ensures left_out { (barred : List (List ℕ)) (old : Option Tree) (tree std_tree : Tree) (ps : List Platform) (a b : List Omitted)
        → AreLeftOut barred std_tree old tree ps a → AreLeftOut barred std_tree old tree ps b → a ≡ b }
    ensures refusal { (barred : List (List ℕ)) (old : Option Tree) (tree std_tree : Tree) (ps : List Platform) (a b : List ℕ)
        → IsFirstRefusal barred old tree std_tree ps a → IsFirstRefusal barred old tree std_tree ps b → a ≡ b }
    ensures apart { (barred : List (List ℕ)) (old : Option Tree) (tree std_tree : Tree) (ps : List Platform) (a : List (List Feature)) (vs : List Found) (line : List ℕ)
        → AreFindings barred old tree std_tree ps a vs → IsFirstRefusal barred old tree std_tree ps line → ⊥ }
{
    one_verdict();
    one_world_on();
    unit_paths();
}
