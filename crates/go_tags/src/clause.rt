//! The package clause of a file.
ghost use Rattle.std.specs.Prelude.{◌≡◌, ℕ, List, length, take, drop, MatchOption, codes, option_map, IfSome, IsNone, IsTrue, ◌↔◌};
ghost use Rattle.go_base.specs.Keywords.{keywords};
ghost use Rattle.go_model.specs.files.BuildTags.{is_one_of};
ghost use Rattle.go_base.specs.Characters.{is_letter, is_name_character, BeginsPassing, IsRun};
ghost use Rattle.go_tags.specs.inner.PackageKeyword.{IsBehindKeyword};
ghost use Rattle.go_model.specs.files.Headers.{IsPackageName, BeginsClause, IsClause};

use crate::names::is_one_of;
use go_base::characters::{Alphabet, begins_with_letter, run_len};
use go_base::comments::past_front;

#[rattlefmt::skip]
const KEYWORDS: [&[u8]; 25] = [
    b"go",      b"if",      b"for",      b"map",       b"var",
    b"case",    b"chan",    b"else",     b"func",      b"goto",   b"type",
    b"break",   b"const",   b"defer",    b"range",
    b"import",  b"return",  b"select",   b"struct",    b"switch",
    b"default", b"package", b"continue", b"interface", b"fallthrough",
];

#[tactic(auto, unfolding(go_base::specs::Keywords::keywords))]
fn is_keyword(word: &[u8]) -> bool
    ensures { result ≡ is_one_of keywords word.now }
{
    is_one_of(&KEYWORDS, word)
}

fn is_package_name(name: &[u8]) -> bool
    ensures { IsTrue result ↔ IsPackageName name.now }
{
    begins_with_letter(name) && !is_keyword(name) && name != b"_".as_slice()
}

/// What follows the word `package` at the start, and follows it apart.
fn past_keyword(bytes: &[u8]) -> Option<&[u8]>
    ensures some { IfSome result (λ behind. IsBehindKeyword bytes.now behind.now) }
    ensures none { IsNone result → (behind : List ℕ) → IsBehindKeyword bytes.now behind → ⊥ }
{
    let behind = bytes.strip_prefix(b"package")?;
    if run_len(Alphabet::Name, behind) == 0 {
        Some(behind)
    } else {
        None
    }
}

/// The name in the package clause that the bytes begin with.
pub fn clause_name(bytes: &[u8]) -> Option<&[u8]>
    ensures { IsClause bytes.now (option_map (λ n. n.now) result) }
{
    let rest = past_front(past_keyword(bytes)?);
    let name = &rest[..run_len(Alphabet::Name, rest)];
    if is_package_name(name) {
        Some(name)
    } else {
        None
    }
}
