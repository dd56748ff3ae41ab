//! Names at the start of some bytes.
ghost use Rattle.std.specs.Prelude.{IfSome, IfNone};
ghost use Rattle.go_lex.specs.inner.NamePrefixes.{IsLongestName, HasNoName};

use go_base::characters::{Alphabet, begins_with_letter, run_len};

/// The length of the longest name.
pub fn name_len(bytes: &[u8]) -> Option<usize>
    ensures some { IfSome result (IsLongestName bytes.now) }
    ensures none { IfNone result (HasNoName bytes.now) }
{
    if begins_with_letter(bytes) {
        Some(run_len(Alphabet::Name, bytes))
    } else {
        None
    }
}
