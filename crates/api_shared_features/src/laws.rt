//! Laws of the definitions.
ghost use Rattle.std.specs.Prelude.{◌≡◌, ℕ, Bool, true, List};
ghost use Rattle.go_base.specs.Lists.{Has};
ghost use Rattle.go_model.specs.worlds.Worlds.{IsWorld, Packages};
ghost use Rattle.api_features.specs.Features.{IsFeature};
ghost use Rattle.api_lines.specs.declared.line.Line.{Line as Feature};
ghost use Rattle.api_shared_features.specs.SharedPackages.{AreShared};

/// A feature of a package that two worlds share with all that its types name is one in both, where the package is public there.
pub fn shared_features()
    ensures there { (shared : List ℕ → Bool) (w v : Packages) (l : Feature) → IsWorld w → IsWorld v → AreShared shared w v → shared l.path ≡ true → Has v.publics l.path → IsFeature w l → IsFeature v l }
    ensures turned { (shared : List ℕ → Bool) (w v : Packages) → AreShared shared w v → AreShared shared v w }
{}
