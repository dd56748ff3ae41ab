//! Laws of owned pairs.
ghost use Rattle.api_correspond.specs.OwnedPairs.{Owned};
ghost use Rattle.go_type_images.specs.declared.pair.TypePair.{TypePair};
ghost use Rattle.go_existence.specs.Existence.{AreFinite};
ghost use Rattle.go_model.specs.worlds.Worlds.{Packages};
ghost use Rattle.std.specs.Prelude.{ℕ, List};

/// Finitely many pairs of types of two worlds have an owner.
pub fn owned_pairs_finite()
    ensures { (old new : Packages) → AreFinite (λ (p : TypePair). (owner : List ℕ) × Owned old new owner p) }
{}
