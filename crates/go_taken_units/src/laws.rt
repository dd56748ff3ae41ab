//! Laws of packages that are taken over.
ghost use Rattle.std.specs.Prelude.{◌≡◌, ◌++◌, ◌∷◌, [], ℕ, List, map};
ghost use Rattle.go_sources.specs.UnitSources.{source_of};
ghost use Rattle.go_taken_packages.specs.InOrder.{HavePathsOfTheirOwn};
ghost use Rattle.go_taken_packages.specs.TakenPaths.{AreTaken};
ghost use Rattle.go_taken_packages.specs.ToldPackages.{is_among};
ghost use Rattle.go_taken_units.specs.TakenUnits.{TakesOver, with_path};
ghost use Rattle.go_typings.specs.Sources.{PackageSource};
ghost use Rattle.go_units.specs.declared.unit.«Unit».{«Unit» as PackageUnit};

/// Where packages are taken over one after another, the paths that were taken over are taken between the earlier packages and those so far.
pub fn taken_so_far()
    ensures none { (earlier : List PackageUnit) → AreTaken (map source_of earlier) [] (is_among []) }
    ensures fresh { (earlier : List PackageUnit) (before : List PackageSource) (paths : List (List ℕ)) (u : PackageSource) → AreTaken (map source_of earlier) before (is_among paths) → AreTaken (map source_of earlier) (before ++ u ∷ []) (is_among paths) }
    ensures taken { (earlier : List PackageUnit) (before : List PackageSource) (paths : List (List ℕ)) (u : PackageUnit) (m : ℕ) → HavePathsOfTheirOwn (map source_of earlier) → AreTaken (map source_of earlier) before (is_among paths) → TakesOver earlier paths u m
        → AreTaken (map source_of earlier) (before ++ source_of u ∷ []) (is_among (with_path paths u.path)) }
{}
