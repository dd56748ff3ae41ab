//! Laws of the definitions: over a store that tells its files, what a request reads is one thing.
ghost use Rattle.std.specs.Prelude.{◌≡◌, ℕ, List, Some};
ghost use Rattle.go_outside.specs.Stores.{Contents};
ghost use Rattle.api_inputs.specs.Inputs.{AreInputs, IsInputRefusal};
ghost use Rattle.api_inputs.specs.declared.inputs.Inputs.{Inputs};
ghost use Rattle.api_words.specs.declared.request.Request.{Request};

use go_load::laws::one_answer;

/// Over a store that tells its files, a request has one list of inputs, or one refusal, and not both.
pub fn one_inputs()
    ensures inputs { (m : Contents) (r : Request) (a b : Inputs) → AreInputs (Some m) r a → AreInputs (Some m) r b → a ≡ b }
    ensures refusal { (m : Contents) (r : Request) (a b : List ℕ) → IsInputRefusal (Some m) r a → IsInputRefusal (Some m) r b → a ≡ b }
    ensures apart { (m : Contents) (r : Request) (a : Inputs) (line : List ℕ) → AreInputs (Some m) r a → IsInputRefusal (Some m) r line → ⊥ }
{
    one_answer();
}
