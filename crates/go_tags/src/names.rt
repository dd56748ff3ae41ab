//! A name among names.
ghost use Rattle.std.specs.Prelude.{◌≡◌, map};
ghost use Rattle.go_model.specs.files.BuildTags.{is_one_of};

/// Whether the name is one of these.
pub fn is_one_of(names: &[&[u8]], name: &[u8]) -> bool
    ensures { result ≡ is_one_of (map (λ n. n.now) names.now) name.now }
{
    for candidate in names {
        if name == *candidate {
            return true;
        }
    }
    false
}
