//! Laws of the definitions: what a run reads, writes and ends with is one thing, and what its verdicts promise clients.
ghost use Rattle.std.specs.Prelude.{◌≡◌, List, Option, ℕ, Some};
ghost use Rattle.go_outside.specs.Stores.{Contents};
ghost use Rattle.api_gate.specs.runs.Clients.{KeepsClients};
ghost use Rattle.api_gate.specs.runs.Outcomes.{EndsWith, Outcome};

use api_advice::laws::one_next;
use api_clients::laws::one_vetting;
use api_findings::laws::one_finding;
use api_inputs::laws::one_inputs;
use api_preservation::laws::preservation;
use api_words::laws::one_request;

/// The definitions give at most one outcome for the words and the files.
pub fn one_outcome()
    ensures { (words : List (List ℕ)) (m : Contents) (a b : Outcome) → EndsWith words (Some m) a → EndsWith words (Some m) b → a ≡ b }
{
    one_request();
    one_inputs();
    one_finding();
    one_vetting();
    one_next();
}

/// On each platform whose verdict tells no break, each client of the profile that is typed against the old tree is typed against the new one.
pub fn clients_kept()
    ensures { (words : List (List ℕ)) (told : Option Contents) → KeepsClients words told }
{
    preservation();
}
