//! Laws of the definitions.
ghost use Rattle.std.specs.Prelude.{◌≡◌, ◌++◌, ℕ, Bool, true, List, [], ◌∷◌, Some, map, slice_get};
ghost use Rattle.go_base.specs.Keys.{first_with};
ghost use Rattle.go_base.specs.Lists.{Has, Passes};
ghost use Rattle.go_exposed.specs.OfferedPackages.{IsOfferedAs};
ghost use Rattle.go_exposed.specs.OfferedWorlds.{Becomes, IsWorldOf};
ghost use Rattle.go_exposed.specs.SkippedDeclarations.{Skipped};
ghost use Rattle.go_exposed.specs.SkippedWorlds.{AreSkipped, IsSkipped, IsSkippedAs};
ghost use Rattle.go_model.specs.declared.types.package.Package.{Package};
ghost use Rattle.go_model.specs.worlds.Worlds.{Packages, path_of};
ghost use Rattle.go_taken_packages.specs.InOrder.{BecomeInOrder, HavePathsOfTheirOwn, typed_package};
ghost use Rattle.go_taken_packages.specs.TakenPaths.{AreTaken, ImportsAreOf};
ghost use Rattle.go_taken_packages.specs.ToldPackages.{Told, is_among, is_taken, taken_paths, told_source, with_taken};
ghost use Rattle.go_typings.specs.PackageWorlds.{AreTyped, Outcome, is_typed, over};
ghost use Rattle.go_typings.specs.ReachedPackages.{ReachesSame};
ghost use Rattle.go_typings.specs.Sources.{PackageSource};

/// What is told as taken, package by package, is taken, where each package that is told as the same stands in the other list.
pub fn told_packages()
    ensures taken { (ts : List Told) (vs : List PackageSource) → HavePathsOfTheirOwn (map told_source ts) → ((t : Told) → Has ts t → t.same ≡ true → Has vs t.source)
        → AreTaken (map told_source ts) vs (is_among (taken_paths [] ts)) }
    ensures next { (paths : List (List ℕ)) (ts : List Told) (t : Told) → taken_paths paths (ts ++ t ∷ []) ≡ with_taken (taken_paths paths ts) t }
    ensures imports { (paths : List (List ℕ)) (t : Told) → is_taken paths t ≡ true → (t.same ≡ true) × ImportsAreOf (is_among paths) t.source }
{}

/// Paths that are taken between two lists are so the other way round, and from a list that has more packages.
pub fn taken_both_ways()
    ensures turned { (us vs : List PackageSource) (taken : List ℕ → Bool) → HavePathsOfTheirOwn vs → AreTaken us vs taken → AreTaken vs us taken }
    ensures more { (us vs more : List PackageSource) (taken : List ℕ → Bool) → HavePathsOfTheirOwn more → ((u : PackageSource) → Has us u → Has more u) → AreTaken us vs taken → AreTaken more vs taken }
{}

/// The packages of a world come after those that they import.
pub fn worlds_in_order()
    ensures { (bits : ℕ) (us : List PackageSource) (w : Packages) → IsWorldOf bits us w → (xs : List Outcome) × BecomeInOrder bits us xs w × Passes is_typed xs }
{}

/// What becomes of a package over those before it becomes of it over all that are typed of the list, too: there it stands at its path where it
/// is typed, and nothing else does; and the same is left out of it.
pub fn over_all()
    ensures becomes { (bits : ℕ) (us : List PackageSource) (xs : List Outcome) (w : Packages) → HavePathsOfTheirOwn us → BecomeInOrder bits us xs w
        → (n : ℕ) (u : PackageSource) (x : Outcome) → slice_get us n ≡ Some u → slice_get xs n ≡ Some x → Becomes (over bits w) u x × (first_with path_of w.packages u.path ≡ typed_package x) }
    ensures skipped { (bits : ℕ) (us : List PackageSource) (xs : List Outcome) (w : Packages) (xss : List (List Skipped)) → HavePathsOfTheirOwn us → BecomeInOrder bits us xs w → AreSkipped bits us xss
        → (n : ℕ) (u : PackageSource) (x : Outcome) (s : List Skipped) → slice_get us n ≡ Some u → slice_get xs n ≡ Some x → slice_get xss n ≡ Some s → IsSkippedAs (over bits w) u x s }
{}

/// A package whose imports that are found are of taken paths reaches the same in both lists' worlds, stands it in a list or not: so the same
/// becomes of it there, and the same is left out of it.
pub fn same_over_both()
    ensures reaches { (bits : ℕ) (us vs : List PackageSource) (xs ys : List Outcome) (w v : Packages) (taken : List ℕ → Bool) → HavePathsOfTheirOwn us → HavePathsOfTheirOwn vs → BecomeInOrder bits us xs w → BecomeInOrder bits vs ys v
        → AreTaken us vs taken → (u : PackageSource) → ImportsAreOf taken u → ReachesSame u (over bits w) (over bits v) }
    ensures becomes { (bits : ℕ) (us vs : List PackageSource) (xs ys : List Outcome) (w v : Packages) (taken : List ℕ → Bool) → HavePathsOfTheirOwn us → HavePathsOfTheirOwn vs → BecomeInOrder bits us xs w → BecomeInOrder bits vs ys v
        → AreTaken us vs taken → (u : PackageSource) (x : Outcome) → ImportsAreOf taken u → Becomes (over bits w) u x → Becomes (over bits v) u x }
    ensures skipped { (bits : ℕ) (us vs : List PackageSource) (xs ys : List Outcome) (w v : Packages) (taken : List ℕ → Bool) → HavePathsOfTheirOwn us → HavePathsOfTheirOwn vs → BecomeInOrder bits us xs w → BecomeInOrder bits vs ys v
        → AreTaken us vs taken → (u : PackageSource) (s : List Skipped) → ImportsAreOf taken u → IsSkipped (over bits w) u s → IsSkipped (over bits v) u s }
{}

/// In the worlds of two lists, with one size of `int`, the same package stands at each taken path; and where packages of the lists are refused, or
/// import one that isn't typed, the same becomes in both of a package of a taken path: it's the same package, refused for the same cause, or blocked.
pub fn taken_over()
    ensures packages { (bits : ℕ) (us vs : List PackageSource) (w v : Packages) (taken : List ℕ → Bool) → HavePathsOfTheirOwn us → HavePathsOfTheirOwn vs → AreTaken us vs taken → IsWorldOf bits us w → IsWorldOf bits vs v
        → (path : List ℕ) → taken path ≡ true → (p : Package) × (first_with path_of w.packages path ≡ Some p) × (first_with path_of v.packages path ≡ Some p) }
    ensures outcomes { (bits : ℕ) (us vs : List PackageSource) (xs ys : List Outcome) (w v : Packages) (taken : List ℕ → Bool) → HavePathsOfTheirOwn us → HavePathsOfTheirOwn vs → AreTaken us vs taken → BecomeInOrder bits us xs w → BecomeInOrder bits vs ys v
        → (m n : ℕ) (u : PackageSource) (x y : Outcome) → slice_get us m ≡ Some u → slice_get vs n ≡ Some u → slice_get xs m ≡ Some x → slice_get ys n ≡ Some y → taken u.path ≡ true → x ≡ y }
{}

/// The form for a step: where the second world is that of the packages that were added so far, a package of the first list whose imports that are found
/// are of taken paths is typed over it as the one that stands at its path in the first world, and the same is left out of it.
pub fn taken_next()
    ensures offered { (bits : ℕ) (us vs : List PackageSource) (w v : Packages) (taken : List ℕ → Bool) → HavePathsOfTheirOwn us → HavePathsOfTheirOwn vs → AreTaken us vs taken → IsWorldOf bits us w → IsWorldOf bits vs v
        → (u : PackageSource) (p : Package) → Has us u → ImportsAreOf taken u → first_with path_of w.packages u.path ≡ Some p → AreTyped v u × IsOfferedAs (over bits v) u p }
    ensures skipped { (bits : ℕ) (us vs : List PackageSource) (w v : Packages) (taken : List ℕ → Bool) (xss : List (List Skipped)) → HavePathsOfTheirOwn us → HavePathsOfTheirOwn vs → AreTaken us vs taken → IsWorldOf bits us w → IsWorldOf bits vs v
        → AreSkipped bits us xss → (n : ℕ) (u : PackageSource) (s : List Skipped) → slice_get us n ≡ Some u → slice_get xss n ≡ Some s → ImportsAreOf taken u → IsSkipped (over bits v) u s }
{}
