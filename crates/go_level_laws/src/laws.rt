//! Laws of packages that are checked level by level.
ghost use Rattle.std.specs.Prelude.{◌≡◌, ◌≤◌, ◌<◌, ℕ, false, List, None, Some, length, slice_get, slice_set};
ghost use Rattle.go_base.specs.Keys.{first_with};
ghost use Rattle.go_base.specs.Lists.{Has, Once};
ghost use Rattle.go_exposed.specs.OfferedWorlds.{Become, Becomes, IsFirstRefused, IsWorldOf};
ghost use Rattle.go_exposed.specs.SkippedDeclarations.{Skipped};
ghost use Rattle.go_exposed.specs.SkippedWorlds.{AreSkipped, IsSkippedAs};
ghost use Rattle.go_level_laws.specs.ByLevels.{AreSkippedByLevels, BecomeByLevels, Outcomes, added_in, with_one, world_below, world_of};
ghost use Rattle.go_level_laws.specs.Levels.{AreLevels, ComeInOrder, NeedsOther, Rises};
ghost use Rattle.go_model.specs.declared.types.package.Package.{Package};
ghost use Rattle.go_model.specs.worlds.Worlds.{Packages, path_of};
ghost use Rattle.go_unit_worlds.specs.go_std_worlds.StdSources.{HaveOwnPaths, HavePaths};
ghost use Rattle.go_unit_worlds.specs.go_std_worlds.TwoModules.{sources_of};
ghost use Rattle.go_typings.specs.Assignments.{At};
ghost use Rattle.go_typings.specs.PackageWorlds.{Outcome, is_refused, no_packages, over, refused, typed, with_outcome};
ghost use Rattle.go_typings.specs.Refusals.{Refusal};
ghost use Rattle.go_typings.specs.Sources.{PackageSource};
ghost use Rattle.go_units.specs.declared.unit_list.Units.{Units};

/// Packages that come in order have one level each, and the units of trees come in order.
pub fn levels()
    ensures some { (us : List PackageSource) → ComeInOrder us → (level : ℕ → ℕ) × AreLevels us level }
    ensures one { (us : List PackageSource) (f g : ℕ → ℕ) (n : ℕ) → AreLevels us f → AreLevels us g → n < length us → f n ≡ g n }
    ensures order { (units : Units) → HavePaths (sources_of units) → ComeInOrder (sources_of units) }
{}

/// A world is ordered by path: in whatever order packages are added to it, those of one level first or not, it is the same.
pub fn any_order()
    ensures next { (bits : ℕ) (us : List PackageSource) (level : ℕ → ℕ) (a : Outcomes) (n : ℕ) (u : PackageSource) (x : Outcome) (w : Packages) → HaveOwnPaths us → BecomeByLevels bits us level a
        → a n ≡ None → slice_get us n ≡ Some u → Becomes (over bits w) u x → world_of us (with_one n x a) ≡ with_outcome (world_of us a) u x }
    ensures all { (bits : ℕ) (us : List PackageSource) (level : ℕ → ℕ) (a : Outcomes) (ns : List ℕ) → HaveOwnPaths us → BecomeByLevels bits us level a
        → Once ns → ((n : ℕ) (x : Outcome) → a n ≡ Some x → Has ns n) → added_in us a no_packages ns ≡ world_of us a }
{}

/// It holds each package that is typed so far under its path, and nothing else.
pub fn known_packages()
    ensures held { (bits : ℕ) (us : List PackageSource) (level : ℕ → ℕ) (a : Outcomes) (n : ℕ) (u : PackageSource) (p : Package) → HaveOwnPaths us → BecomeByLevels bits us level a
        → slice_get us n ≡ Some u → a n ≡ Some (typed p) → first_with path_of (world_of us a).packages u.path ≡ Some p }
    ensures found { (bits : ℕ) (us : List PackageSource) (level : ℕ → ℕ) (a : Outcomes) (path : List ℕ) (p : Package) → HaveOwnPaths us → BecomeByLevels bits us level a
        → first_with path_of (world_of us a).packages path ≡ Some p → (n : ℕ) × (a n ≡ Some (typed p)) × At us n (λ u. u.path ≡ path) }
    ensures absent { (bits : ℕ) (us : List PackageSource) (level : ℕ → ℕ) (a : Outcomes) (n : ℕ) (u : PackageSource) → HaveOwnPaths us → BecomeByLevels bits us level a
        → slice_get us n ≡ Some u → a n ≡ None → first_with path_of (world_of us a).packages u.path ≡ None }
{}

/// Level by level: nothing is known at first; where all that are known are below a level, their world is that below it; one more on the
/// highest level became what it becomes over the lower ones; and it doesn't change these.
pub fn next_outcome()
    ensures none { (bits : ℕ) (us : List PackageSource) (level : ℕ → ℕ) → BecomeByLevels bits us level (λ n. None) }
    ensures below { (us : List PackageSource) (level : ℕ → ℕ) (a : Outcomes) (k : ℕ) → ((m : ℕ) (y : Outcome) → a m ≡ Some y → level m < k) → world_below us level k a ≡ world_of us a }
    ensures next { (bits : ℕ) (us : List PackageSource) (level : ℕ → ℕ) (a : Outcomes) (n : ℕ) (u : PackageSource) (x : Outcome) → BecomeByLevels bits us level a
        → ((m : ℕ) (y : Outcome) → a m ≡ Some y → level m ≤ level n) → slice_get us n ≡ Some u → ((m : ℕ) → NeedsOther us n m → (y : Outcome) × (a m ≡ Some y))
        → Becomes (over bits (world_below us level (level n) a)) u x → BecomeByLevels bits us level (with_one n x a) }
    ensures kept { (us : List PackageSource) (level : ℕ → ℕ) (a : Outcomes) (n : ℕ) (x : Outcome) (k : ℕ) → k ≤ level n → world_below us level k (with_one n x a) ≡ world_below us level k a }
    ensures skipped { (bits : ℕ) (us : List PackageSource) (level : ℕ → ℕ) (a : Outcomes) (n : ℕ) (u : PackageSource) (x : Outcome) (xss : List (List Skipped)) (xs : List Skipped)
        → ((m : ℕ) (y : Outcome) → a m ≡ Some y → level m ≤ level n) → slice_get us n ≡ Some u → AreSkippedByLevels bits us level a xss
        → IsSkippedAs (over bits (world_below us level (level n) a)) u x xs → AreSkippedByLevels bits us level (with_one n x a) (slice_set xss n xs) }
{}

/// What becomes of packages in turn, each over those before it, is what becomes of them level by level, and the other way round: typed,
/// refused or blocked.
pub fn same_by_levels()
    ensures levels { (bits : ℕ) (us : List PackageSource) (level : ℕ → ℕ) (xs : List Outcome) (w : Packages) → ComeInOrder us → Rises us level
        → Become bits no_packages us xs w → BecomeByLevels bits us level (slice_get xs) }
    ensures turns { (bits : ℕ) (us : List PackageSource) (level : ℕ → ℕ) (xs : List Outcome) → ComeInOrder us → Rises us level → length xs ≡ length us
        → BecomeByLevels bits us level (slice_get xs) → Become bits no_packages us xs (world_of us (slice_get xs)) }
{}

/// So where all are typed, theirs is the world, and the same is left out of them.
pub fn world_by_levels()
    ensures world { (bits : ℕ) (us : List PackageSource) (level : ℕ → ℕ) (a : Outcomes) → ComeInOrder us → Rises us level → BecomeByLevels bits us level a
        → ((n : ℕ) → n < length us → (p : Package) × (a n ≡ Some (typed p))) → IsWorldOf bits us (world_of us a) }
    ensures skipped { (bits : ℕ) (us : List PackageSource) (level : ℕ → ℕ) (a : Outcomes) (xss : List (List Skipped)) → ComeInOrder us → Rises us level → BecomeByLevels bits us level a
        → ((n : ℕ) → n < length us → (x : Outcome) × (a n ≡ Some x)) → length xss ≡ length us → AreSkippedByLevels bits us level a xss → AreSkipped bits us xss }
{}

/// A refused package is the first where all before it are known and none of them is refused, whether those behind it are looked at or not; and
/// none is refused before the first.
pub fn first_by_levels()
    ensures first { (bits : ℕ) (us : List PackageSource) (level : ℕ → ℕ) (a : Outcomes) (n : ℕ) (r : Refusal) → ComeInOrder us → Rises us level → BecomeByLevels bits us level a
        → a n ≡ Some (refused r) → ((m : ℕ) → m < n → (x : Outcome) × (a m ≡ Some x) × (is_refused x ≡ false)) → IsFirstRefused bits us n r }
    ensures none_before { (bits : ℕ) (us : List PackageSource) (level : ℕ → ℕ) (a : Outcomes) (m n : ℕ) (q r : Refusal) → ComeInOrder us → Rises us level → BecomeByLevels bits us level a
        → IsFirstRefused bits us m q → a n ≡ Some (refused r) → m ≤ n }
{}

/// Whichever packages are looked at besides, and on whatever levels, one thing becomes of each.
pub fn one_by_levels()
    ensures { (bits : ℕ) (us : List PackageSource) (f g : ℕ → ℕ) (a b : Outcomes) (n : ℕ) (x y : Outcome) → ComeInOrder us → Rises us f → Rises us g → BecomeByLevels bits us f a
        → BecomeByLevels bits us g b → a n ≡ Some x → b n ≡ Some y → x ≡ y }
{}
