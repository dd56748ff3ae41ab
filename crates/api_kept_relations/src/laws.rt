//! Laws of compatible worlds and what a client has of them.
ghost use Rattle.std.specs.Prelude.{List};
ghost use Rattle.go_model.specs.types.Tables.{Table};
ghost use Rattle.go_model.specs.worlds.Worlds.{IsWorld, Packages};
ghost use Rattle.go_rules.specs.Environments.{Env};
ghost use Rattle.go_type_images.specs.NewNames.{new_name};
ghost use Rattle.go_type_images.specs.declared.pair.TypePair.{TypePair};
ghost use Rattle.go_client_types.specs.Keeping.{Keeps};
ghost use Rattle.go_client_types.specs.Preserving.{Preserves};
ghost use Rattle.api_correspond.specs.OwnedPairs.{HoldsOwned};
ghost use Rattle.api_correspond.specs.Rules.{Compatible};
ghost use Rattle.api_correspond.specs.SharedStd.{ShareStd};
ghost use Rattle.api_kept_relations.specs.ClientScopes.{FollowsClient, SeesWorlds};
ghost use Rattle.api_kept_relations.specs.ClientWorlds.{Serves};
ghost use Rattle.api_kept_relations.specs.StdTypes.{StdMethodsStay, StdStandsAlone, is_open_sel, shared_std};

/// Where a new world is compatible with an old one, and a client is typed over both with the packages of the standard library that it
/// brings, the types that it is given are preserved: those of the owned pairs under their new names, and those of the standard library.
pub fn worlds_preserve()
    ensures { (old new before after : Packages) (pairs : List TypePair) (T U : Table) → HoldsOwned old new pairs → Compatible old new → IsWorld old → IsWorld new → ShareStd old new → StdMethodsStay old
        → Serves old before T → Serves new after U → ShareStd before after → StdStandsAlone before → Preserves T U (new_name pairs) pairs (shared_std before after) (is_open_sel before) }
{}

/// So is all that such a client is told: where it imports public packages of the module and packages of the standard library that both
/// sides have, and what it declares itself has the images, the new environment keeps the old one.
pub fn worlds_keep()
    ensures { (old new before after : Packages) (pairs : List TypePair) (E F : Env) → HoldsOwned old new pairs → Compatible old new → IsWorld old → IsWorld new → ShareStd old new → StdMethodsStay old
        → Serves old before E.table → Serves new after F.table → ShareStd before after → StdStandsAlone before → SeesWorlds old before after E F
        → FollowsClient E F (new_name pairs) pairs (shared_std before after) (is_open_sel before) → Keeps E F (new_name pairs) pairs (shared_std before after) (is_open_sel before) }
{}
