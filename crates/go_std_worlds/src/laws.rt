//! Laws of the definitions.
ghost use Rattle.std.specs.Prelude.{◌≡◌, ◌≢◌, ◌||◌, ℕ, Bool, true, false, List, [], Some, Ok};
ghost use Rattle.std.specs.Str.{bytes_eq};
ghost use Rattle.go_base.specs.Keys.{first_with};
ghost use Rattle.go_base.specs.Lists.{Has, Passes};
ghost use Rattle.go_taken_packages.specs.go_exposed.OfferedPackages.{IsOfferedAs};
ghost use Rattle.go_taken_packages.specs.go_exposed.OfferedWorlds.{IsWorldOf};
ghost use Rattle.go_imports.specs.ImportPaths.{IsUnder};
ghost use Rattle.go_model.specs.declared.files.platform.Platform.{Platform};
ghost use Rattle.go_model.specs.declared.files.tree.Tree.{Tree};
ghost use Rattle.go_model.specs.declared.types.names.TypeName.{TypeName};
ghost use Rattle.go_model.specs.declared.types.package.Package.{Package};
ghost use Rattle.go_model.specs.worlds.PackageTypes.{package_names};
ghost use Rattle.go_model.specs.worlds.Worlds.{Packages, path_of};
ghost use Rattle.go_reading.specs.TreeUnits.{AreUnitsOfTrees};
ghost use Rattle.go_sources.specs.UnitSources.{source_of};
ghost use Rattle.go_std_worlds.specs.StdSources.{KeepStdApart, HavePaths, HaveSameStd};
ghost use Rattle.go_std_worlds.specs.TwoModules.{AreOfTwoModules, sources_of};
ghost use Rattle.go_typings.specs.ReachedPackages.{AreReached, HoldImports, is_reached};
ghost use Rattle.go_typings.specs.Sources.{PackageSource, Setting};
ghost use Rattle.go_units.specs.declared.unit.«Unit».{«Unit» as PackageUnit};
ghost use Rattle.go_units.specs.declared.unit_list.Units.{Units};

use go_reading::laws::one_reading;

/// Each name in the types of a package that is offered is of a type of its own, or of what it reaches.
pub fn typed_names()
    ensures { (s : Setting) (u : PackageSource) (reached : List ℕ → Bool) (p : Package) → AreReached s.world u reached → HoldImports u reached → IsOfferedAs s u p
        → Passes (λ (n : TypeName). bytes_eq u.path n.path || is_reached reached n) (package_names p) }
{}

/// In the worlds of two lists of packages those of the standard library that stand in both are the same, where all that have
/// their paths in both lists are written the same.
pub fn shared_std()
    ensures { (bits : ℕ) (us vs : List PackageSource) (w v : Packages) → KeepStdApart us → KeepStdApart vs → HavePaths us → HavePaths vs → HaveSameStd us vs
        → IsWorldOf bits us w → IsWorldOf bits vs v → (path : List ℕ) (p q : Package) → first_with path_of w.packages path ≡ Some p
        → first_with path_of v.packages path ≡ Some q → p.from_std ≡ true → p ≡ q }
{}

/// The units of trees have paths of their own, and those of the standard library import from it alone. None of these has a barred
/// path or one below, and each unit of the module has the module's path or one below.
pub fn std_units()
    ensures apart { (p : Platform) (barred : List (List ℕ)) (std_tree tree : Tree) (units : Units)
        → AreUnitsOfTrees p barred tree std_tree (Ok units) → KeepStdApart (sources_of units) }
    ensures std { (p : Platform) (barred : List (List ℕ)) (std_tree tree : Tree) (units : Units) (u : PackageUnit) (root : List ℕ)
        → AreUnitsOfTrees p barred tree std_tree (Ok units) → Has units.packages u → u.from_std ≡ true → Has barred root
        → IsUnder u.path root → ⊥ }
    ensures own { (p : Platform) (barred : List (List ℕ)) (std_tree tree : Tree) (units : Units) (u : PackageUnit)
        → AreUnitsOfTrees p barred tree std_tree (Ok units) → Has units.packages u → u.from_std ≡ false → IsUnder u.path tree.module }
{}

/// Units of two modules with one path are both of the standard library, or neither; and where they are, they are the same
/// as they are written: the same files, with the same imports, found or not.
pub fn same_std_units()
    ensures sides { (p : Platform) (barred : List (List ℕ)) (std_tree old_tree new_tree : Tree) (old new : Units) (u v : PackageUnit)
        → AreOfTwoModules p barred std_tree old_tree new_tree old new → Has old.packages u → Has new.packages v → u.path ≡ v.path
        → u.from_std ≡ v.from_std }
    ensures same { (p : Platform) (barred : List (List ℕ)) (std_tree old_tree new_tree : Tree) (old new : Units) (u v : PackageUnit)
        → AreOfTwoModules p barred std_tree old_tree new_tree old new → Has old.packages u → Has new.packages v → u.path ≡ v.path
        → u.from_std ≡ true → source_of u ≡ source_of v }
{
    one_reading();
}

/// In the worlds of two modules' units packages with one path are both of the standard library, or neither; and where they are,
/// they are the same.
pub fn same_std_packages()
    ensures sides { (p : Platform) (barred : List (List ℕ)) (std_tree old_tree new_tree : Tree) (old new : Units) (bits : ℕ)
        (w v : Packages) → AreOfTwoModules p barred std_tree old_tree new_tree old new
        → ((u : PackageUnit) → Has old.packages u → u.path ≢ []) → ((u : PackageUnit) → Has new.packages u → u.path ≢ []) → IsWorldOf bits (sources_of old) w
        → IsWorldOf bits (sources_of new) v → (path : List ℕ) (a b : Package) → first_with path_of w.packages path ≡ Some a
        → first_with path_of v.packages path ≡ Some b → a.from_std ≡ b.from_std }
    ensures same { (p : Platform) (barred : List (List ℕ)) (std_tree old_tree new_tree : Tree) (old new : Units) (bits : ℕ)
        (w v : Packages) → AreOfTwoModules p barred std_tree old_tree new_tree old new
        → ((u : PackageUnit) → Has old.packages u → u.path ≢ []) → ((u : PackageUnit) → Has new.packages u → u.path ≢ []) → IsWorldOf bits (sources_of old) w
        → IsWorldOf bits (sources_of new) v → (path : List ℕ) (a b : Package) → first_with path_of w.packages path ≡ Some a
        → first_with path_of v.packages path ≡ Some b → a.from_std ≡ true → a ≡ b }
{
    one_reading();
}
