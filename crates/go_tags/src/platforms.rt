//! Platforms by name.
ghost use Rattle.std.specs.Prelude.{◌≡◌, MatchOption};
ghost use Rattle.go_base.specs.Lists.{Has};
ghost use Rattle.go_model.specs.files.Platforms.{name_of};
ghost use Rattle.go_model.specs.declared.files.platform.Platform.{Platform};

use go_model::files::platform::Platform;

/// The platform of this name, or `None` exactly where none has it.
pub fn platform(text: &[u8]) -> Option<Platform>
    ensures { MatchOption result ((p : Platform) → name_of p ≡ text.now → ⊥) (λ p. name_of p ≡ text.now) }
{
    find_named(&Platform::ALL, text)
}

/// The first of the platforms that has the name.
fn find_named(platforms: &[Platform], text: &[u8]) -> Option<Platform>
    ensures { MatchOption result ((p : Platform) → Has platforms.now p → name_of p ≡ text.now → ⊥) (λ p. name_of p ≡ text.now) }
{
    for candidate in platforms {
        if candidate.name() == text {
            return Some(*candidate);
        }
    }
    None
}
