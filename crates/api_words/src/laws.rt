//! Laws of the definitions: words make at most one request.
ghost use Rattle.std.specs.Prelude.{◌≡◌, List, ℕ};
ghost use Rattle.api_words.specs.Words.{IsRequest};
ghost use Rattle.api_words.specs.declared.request.Request.{Request};

use go_tags::laws::one_platform;

/// Words make at most one request.
pub fn one_request()
    ensures { (words : List (List ℕ)) (r s : Request) → IsRequest words r → IsRequest words s → r ≡ s }
{
    one_platform();
}
