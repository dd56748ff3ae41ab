//! What is left of some bytes.
ghost use Rattle.std.specs.Prelude.{◌≡◌, ◌≤◌, length, drop};
ghost use Rattle.go_lex.specs.inner.Starts.{begins_byte};

/// The bytes from this index on.
#[tactic(auto, using(std::proofs::lemmas::List::take_rest))]
pub fn past(bytes: &[u8], at: usize) -> &[u8]
    requires { at ≤ length bytes.now }
    ensures { result.now ≡ drop at bytes.now }
{
    &bytes[at..]
}

/// Whether the first byte is this one.
pub fn begins_byte(c: u8, bytes: &[u8]) -> bool
    ensures { result ≡ begins_byte c bytes.now }
{
    match bytes.first() {
        Some(b) => *b == c,
        None => false,
    }
}
