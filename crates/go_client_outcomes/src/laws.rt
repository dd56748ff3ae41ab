//! Laws of clients.
ghost use Rattle.std.specs.Prelude.{◌≡◌, ◌≢◌, ℕ, List, Err, Result};
ghost use Rattle.go_base.specs.Lists.{Has};
ghost use Rattle.go_client_typings.specs.Clients.{Blocks, IsVetted};
ghost use Rattle.go_client_typings.specs.declared.vetted.Vetted.{Vetted};
ghost use Rattle.go_client_units.specs.ClientUnits.{AreClientUnits};
ghost use Rattle.go_client_units.specs.declared.units.ClientUnits.{ClientUnits as WithClient};
ghost use Rattle.go_existence.specs.Existence.{NotNone};
ghost use Rattle.go_model.specs.declared.files.platform.Platform.{Platform};
ghost use Rattle.go_model.specs.declared.files.tree.Tree.{Tree};
ghost use Rattle.go_model.specs.files.Trees.{IsTree};
ghost use Rattle.go_model.specs.types.Terms.{client_path};
ghost use Rattle.go_model.specs.worlds.Worlds.{IsWorld, Packages};
ghost use Rattle.go_typings.specs.Sources.{PackageSource};
ghost use Rattle.go_units.specs.declared.unit_error.UnitError.{UnitError};
ghost use Rattle.go_units.specs.declared.unit_error.UnitError.TheVariants.{NoMemory};

use go_model::laws::client_absent;
use go_tags::laws::one_header;

/// Trees have units with a client on a platform, or a first refusal, which isn't want of memory.
pub fn client_units_or_refusal()
    ensures { (p : Platform) (barred : List (List ℕ)) (tree std_tree client : Tree) → Has barred tree.module → IsTree tree → IsTree std_tree → IsTree client
        → NotNone ((r : Result WithClient UnitError) × (r ≢ Err NoMemory) × AreClientUnits p barred tree std_tree client r) }
{
    one_header();
}

/// Over a world something is told of each client.
pub fn vetted_exists()
    ensures { (world : Packages) (bits : ℕ) (u : PackageSource) (blocks : Blocks) → IsWorld world → u.path ≡ client_path → NotNone ((v : Vetted) × IsVetted world bits u blocks v) }
{
    client_absent();
}
