//! Laws of a client's package over compatible worlds.
ghost use Rattle.std.specs.Prelude.{◌≡◌, ℕ, List};
ghost use Rattle.go_model.specs.types.Terms.{client_path};
ghost use Rattle.go_model.specs.worlds.Worlds.{IsWorld, Packages};
ghost use Rattle.go_type_images.specs.declared.pair.TypePair.{TypePair};
ghost use Rattle.go_typings.specs.Sources.{PackageSource};
ghost use Rattle.go_client_typings.specs.Clients.{Blocks, IsTypedClient};
ghost use Rattle.api_correspond.specs.OwnedPairs.{HoldsOwned};
ghost use Rattle.api_correspond.specs.Rules.{Compatible};
ghost use Rattle.api_correspond.specs.SharedStd.{ShareStd};
ghost use Rattle.api_kept_clients.specs.ServedClients.{ImportsShown, ServesClients, for_client};
ghost use Rattle.api_kept_clients.specs.ServedUnits.{ServesUnits, ShareStdUnits};
ghost use Rattle.api_std_types.specs.api_kept_relations.StdTypes.{StdMethodsStay, StdStandsAlone};

/// Where a new world is compatible with an old one, a client of the profile that is typed with its bodies over the old one is so over the
/// new one: both with the packages of the standard library that it brings, and it imports public packages of the module and packages of the
/// standard library that both sides have.
pub fn compatible_clients()
    ensures { (old new before after : Packages) (pairs : List TypePair) (bits : ℕ) (u : PackageSource) (blocks : Blocks) → HoldsOwned old new pairs → Compatible old new → IsWorld old → IsWorld new → ShareStd old new → StdMethodsStay old
        → ServesClients old before → ServesClients new after → ShareStd before after → StdStandsAlone before → u.path ≡ client_path → ImportsShown old before after u
        → IsTypedClient (for_client bits before) u blocks → IsTypedClient (for_client bits after) u blocks }
{}

/// So it is over the worlds of lists of packages that are typed one after another, as those of two trees and of a client of each, where the
/// standard library is the same.
pub fn clients_of_units()
    ensures { (bits : ℕ) (us vs bs xs : List PackageSource) (old new before after : Packages) (pairs : List TypePair) (u : PackageSource) (blocks : Blocks) → ServesUnits bits us bs old before → ServesUnits bits vs xs new after
        → ShareStdUnits us vs → ShareStdUnits bs xs → HoldsOwned old new pairs → Compatible old new → u.path ≡ client_path → ImportsShown old before after u
        → IsTypedClient (for_client bits before) u blocks → IsTypedClient (for_client bits after) u blocks }
{}
