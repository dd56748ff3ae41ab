//! The law of preservation.
ghost use Rattle.std.specs.Prelude.{ℕ, List};
ghost use Rattle.api_correspond.specs.OwnedPairs.{HoldsOwned};
ghost use Rattle.api_correspond.specs.Rules.{Compatible};
ghost use Rattle.api_preservation.specs.JudgedTrees.{AreJudged};
ghost use Rattle.api_worlds.specs.PlatformWorlds.{IsWorldOn};
ghost use Rattle.go_clients.specs.ProfileClients.{IsProfileTyped};
ghost use Rattle.go_model.specs.declared.files.platform.Platform.{Platform};
ghost use Rattle.go_model.specs.declared.files.tree.Tree.{Tree};
ghost use Rattle.go_model.specs.files.Platforms.{bits_of};
ghost use Rattle.go_model.specs.worlds.Worlds.{Packages};
ghost use Rattle.go_type_images.specs.declared.pair.TypePair.{TypePair};

use api_kept_clients::laws::clients_of_units;
use go_package_clauses::laws::package_of_outlines;
use go_reading::laws::one_reading;

/// Where the world of a module's new tree on a platform is compatible with that of its old tree, each client of the profile that is typed
/// against the old tree there, bodies and all, is typed against the new one.
pub fn preservation()
    ensures { (p : Platform) (barred : List (List ℕ)) (old_tree new_tree std_tree client : Tree) (old new : Packages) (pairs : List TypePair) → AreJudged barred old_tree new_tree std_tree
        → IsWorldOn barred old_tree std_tree p old → IsWorldOn barred new_tree std_tree p new → HoldsOwned old new pairs → Compatible old new
        → IsProfileTyped p (bits_of p) barred old_tree std_tree client → IsProfileTyped p (bits_of p) barred new_tree std_tree client }
{
    one_reading();
    package_of_outlines();
    clients_of_units();
}
