//! The blank name.
ghost use Rattle.std.specs.Prelude.{◌≡◌};
ghost use Rattle.go_rules.specs.Expressions.{is_blank};

/// Whether a name is the blank one.
pub fn is_blank(name: &[u8]) -> bool
    ensures { result ≡ is_blank name.now }
{
    name == b"_".as_slice()
}
