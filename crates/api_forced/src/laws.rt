//! Laws on owned pairs.
ghost use Rattle.std.specs.Prelude.{List, ℕ};
ghost use Rattle.go_model.specs.worlds.Worlds.{Packages};
ghost use Rattle.api_correspond.specs.OwnedPairs.{HoldsOwned};
ghost use Rattle.go_type_images.specs.declared.pair.TypePair.{TypePair};
ghost use Rattle.api_forced.specs.Ownerships.{IsOwnership};
ghost use Rattle.api_forced.specs.declared.claims.Claim.{Claim as Owning};

/// The pairs that are told with their owners are owned pairs, among them those of the exported objects and those to which they lead.
pub fn held_pairs()
    ensures { (old new : Packages) (owners : List (List ℕ)) (pairs : List TypePair) (claims : List Owning) → IsOwnership old new owners pairs claims → HoldsOwned old new pairs }
{}
