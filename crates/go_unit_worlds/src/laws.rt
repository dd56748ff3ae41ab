//! Laws of the worlds of packages that are typed one after another.
ghost use Rattle.std.specs.Prelude.{◌≡◌, ◌≢◌, ℕ, List, [], Some};
ghost use Rattle.go_base.specs.Keys.{first_with};
ghost use Rattle.go_base.specs.Lists.{Has};
ghost use Rattle.go_exposed.specs.OfferedWorlds.{IsWorldOf};
ghost use Rattle.go_model.specs.declared.types.package.Package.{Package};
ghost use Rattle.go_model.specs.types.Terms.{client_path};
ghost use Rattle.go_model.specs.worlds.Worlds.{IsWorld, Packages, path_of};
ghost use Rattle.go_std_worlds.specs.StdSources.{HaveOwnPaths, HavePaths};
ghost use Rattle.go_typings.specs.PackageWorlds as whole_worlds;
ghost use Rattle.go_typings.specs.Sources.{PackageSource};
ghost use Rattle.go_unit_worlds.specs.SharedSources.{HaveSame};

/// The packages of a list with paths of their own, none of them empty or a client's, make a world, whether declarations may be left out of
/// them or not.
pub fn worlds_of_units()
    ensures offered { (bits : ℕ) (us : List PackageSource) (w : Packages) → HaveOwnPaths us → ((u : PackageSource) → Has us u → (u.path ≢ []) × (u.path ≢ client_path)) → IsWorldOf bits us w → IsWorld w }
    ensures whole { (bits : ℕ) (us : List PackageSource) (w : Packages) → HaveOwnPaths us → ((u : PackageSource) → Has us u → (u.path ≢ []) × (u.path ≢ client_path)) → whole_worlds.IsWorldOf bits us w → IsWorld w }
{}

/// In the worlds of two lists of packages those that stand in both are the same, where all that have their paths in both lists are written
/// the same; and where the second list has all packages of the first one, its world has all packages of the other world.
pub fn shared_packages()
    ensures same { (bits : ℕ) (us vs : List PackageSource) (w v : Packages) → HaveOwnPaths us → HaveOwnPaths vs → HavePaths us → HavePaths vs → HaveSame us vs → IsWorldOf bits us w → IsWorldOf bits vs v
        → (path : List ℕ) (p q : Package) → first_with path_of w.packages path ≡ Some p → first_with path_of v.packages path ≡ Some q → p ≡ q }
    ensures held { (bits : ℕ) (us vs : List PackageSource) (w v : Packages) → HaveOwnPaths us → HaveOwnPaths vs → HavePaths vs → ((u : PackageSource) → Has us u → Has vs u) → IsWorldOf bits us w → IsWorldOf bits vs v
        → (path : List ℕ) (p : Package) → first_with path_of w.packages path ≡ Some p → first_with path_of v.packages path ≡ Some p }
{}
