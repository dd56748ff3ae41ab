//! Laws of the definitions: what a run tells of a client is one thing.
ghost use Rattle.std.specs.Prelude.{◌≡◌, ℕ, List};
ghost use Rattle.api_clients.specs.ClientAnswers.{AreAnswers, IsFirstRefusal};
ghost use Rattle.api_reports.specs.declared.clients.ClientAnswer.{ClientAnswer as Told};
ghost use Rattle.go_model.specs.declared.files.platform.Platform.{Platform};
ghost use Rattle.go_model.specs.declared.files.tree.Tree.{Tree};

use go_client_typings::laws::one_answer;
use go_client_unit_laws::laws::one_client_answer;
use go_exposed::laws::one_world;

/// On some platforms one list of answers is told of a client, or one refusal, and not both.
pub fn one_vetting()
    ensures answers { (barred : List (List ℕ)) (tree std_tree client : Tree) (ps : List Platform) (a b : List Told)
        → AreAnswers barred tree std_tree client ps a → AreAnswers barred tree std_tree client ps b → a ≡ b }
    ensures refusal { (barred : List (List ℕ)) (tree std_tree client : Tree) (ps : List Platform) (a b : List ℕ)
        → IsFirstRefusal barred tree std_tree client ps a → IsFirstRefusal barred tree std_tree client ps b → a ≡ b }
    ensures apart { (barred : List (List ℕ)) (tree std_tree client : Tree) (ps : List Platform) (a : List Told) (line : List ℕ)
        → AreAnswers barred tree std_tree client ps a → IsFirstRefusal barred tree std_tree client ps line → ⊥ }
{
    one_answer();
    one_client_answer();
    one_world();
}
