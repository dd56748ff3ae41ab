//! Exported names.
ghost use Rattle.std.specs.Prelude.{◌≡◌, true};
ghost use Rattle.std.specs.Str.{IsAscii, is_utf8};
ghost use Rattle.go_rules.specs.Environments.{is_exported};

use go_syntax::go_base::characters::is_exported as begins_upper;

// Whether each byte is ASCII: of a few bytes told sooner than by the method of slices, which reads whole words.
fn is_ascii(bytes: &[u8]) -> bool
    ensures { result ≡ true → IsAscii bytes.now }
{
    for byte in bytes {
        if *byte >= 128 {
            return false;
        }
    }
    true
}

fn is_utf8(bytes: &[u8]) -> bool
    ensures { result ≡ is_utf8 bytes.now }
{
    if is_ascii(bytes) {
        return true;
    }
    str::from_utf8(bytes).is_ok()
}

/// Whether a name is exported: whether it is UTF-8 and begins with an upper-case letter.
pub fn is_exported(name: &[u8]) -> bool
    ensures { result ≡ is_exported name.now }
{
    if !is_utf8(name) {
        return false;
    }
    begins_upper(name)
}
