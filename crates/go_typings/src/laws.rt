//! Laws of the definitions.
ghost use Rattle.std.specs.Prelude.{◌≡◌, ◌<◌, ◌||◌, ◌⊎◌, ℕ, Bool, true, List, [], None, Some, length};
ghost use Rattle.go_references.specs.go_base.Keys.{first_with};
ghost use Rattle.go_rules.specs.go_model.declared.types.package.Package.{Package};
ghost use Rattle.go_rules.specs.go_model.worlds.Worlds.{Packages, path_of};
ghost use Rattle.go_typings.specs.Assignments.{At, Below, joined};
ghost use Rattle.go_typings.specs.ConstantKinds.{EntriesKept, ImportsKept, ReachedKept};
ghost use Rattle.go_typings.specs.Declarations.{declarations};
ghost use Rattle.go_typings.specs.PackageEnvironments.{Entries, Entry};
ghost use Rattle.go_typings.specs.PackageWorlds.{Become, ComeAfterImports, IsFirstRefused, IsWorldOf, Outcome, no_packages};
ghost use Rattle.go_typings.specs.ReachedPackages.{AreReached, ReachesSame};
ghost use Rattle.go_typings.specs.Refusals.{IsRefused, Refusal};
ghost use Rattle.go_typings.specs.Sources.{AreFound, PackageSource, Setting};
ghost use Rattle.go_typings.specs.TypedPackages.{IsTypedAs};
ghost use Rattle.go_typings.specs.Typings.{IsSound, IsTyping, Typing, given};

/// A package has at most one typing, and two typings of some of its declarations agree on those that they share.
pub fn one_typing()
    ensures whole { (s : Setting) (u : PackageSource) (a b : Entries) → IsTyping s u a → IsTyping s u b → (n : ℕ) → a n ≡ b n }
    ensures shared { (s : Setting) (u : PackageSource) (S T : ℕ → Bool) (a b : Entries) → Typing s u S a → Typing s u T b → (n : ℕ) → S n ≡ true → T n ≡ true → a n ≡ b n }
{}

/// In a typing the rule of each declaration gives its entry where all entries are had.
pub fn rules_hold()
    ensures { (s : Setting) (u : PackageSource) (S : ℕ → Bool) (a : Entries) (n : ℕ) → Typing s u S a → S n ≡ true → At (declarations u) n (λ d. (x : Entry) × (a n ≡ Some x) × given s u a d x) }
{}

/// The value of each constant of a typing is of its type or untyped kind, where those of all packages are, or of those
/// that it reaches, and the package isn't one of them.
pub fn kept_constants()
    ensures reached { (s : Setting) (u : PackageSource) (reached : List ℕ → Bool) (S : ℕ → Bool) (a : Entries) → first_with path_of s.world.packages u.path ≡ None → AreFound u → AreReached s.world u reached → ReachedKept s reached → Typing s u S a → EntriesKept s u a }
    ensures all { (s : Setting) (u : PackageSource) (S : ℕ → Bool) (a : Entries) → first_with path_of s.world.packages u.path ≡ None → ImportsKept s → Typing s u S a → EntriesKept s u a }
{}

/// In two settings that are the same in all that a package reaches, it has the same typings, is typed as the same
/// packages, and is refused for the same cause.
pub fn same_imports()
    ensures typing { (u : PackageSource) (s t : Setting) (S : ℕ → Bool) (a : Entries) → AreFound u → ReachesSame u s t → Typing s u S a → Typing t u S a }
    ensures typed { (u : PackageSource) (s t : Setting) (p : Package) → ReachesSame u s t → IsTypedAs s u p → IsTypedAs t u p }
    ensures refused { (u : PackageSource) (s t : Setting) (r : Refusal) → ReachesSame u s t → IsRefused s u r → IsRefused t u r }
    ensures turned { (u : PackageSource) (s t : Setting) → ReachesSame u s t → ReachesSame u t s }
{}

/// In a package that has a typing each declaration is sound.
pub fn sound_declarations()
    ensures { (s : Setting) (u : PackageSource) (a : Entries) (n : ℕ) → IsTyping s u a → n < length (declarations u) → IsSound s u n }
{}

/// A package is refused for one cause, at one place, and isn't where it is typed.
pub fn one_refusal()
    ensures cause { (s : Setting) (u : PackageSource) (q r : Refusal) → IsRefused s u q → IsRefused s u r → q ≡ r }
    ensures apart { (s : Setting) (u : PackageSource) (p : Package) (r : Refusal) → IsTypedAs s u p → IsRefused s u r → ⊥ }
{}

/// A package is typed as at most one package.
pub fn one_package()
    ensures { (s : Setting) (u : PackageSource) (p q : Package) → IsTypedAs s u p → IsTypedAs s u q → p ≡ q }
{}

/// Packages in a list become one thing each: they have at most one world and one first refusal, and not both.
pub fn one_world()
    ensures outcomes { (bits : ℕ) (w : Packages) (us : List PackageSource) (xs ys : List Outcome) (v z : Packages) → Become bits w us xs v → Become bits w us ys z → (xs ≡ ys) × (v ≡ z) }
    ensures world { (bits : ℕ) (us : List PackageSource) (v w : Packages) → IsWorldOf bits us v → IsWorldOf bits us w → v ≡ w }
    ensures refusal { (bits : ℕ) (us : List PackageSource) (m n : ℕ) (q r : Refusal) → IsFirstRefused bits us m q → IsFirstRefused bits us n r → (m ≡ n) × (q ≡ r) }
    ensures apart { (bits : ℕ) (us : List PackageSource) (w : Packages) (n : ℕ) (r : Refusal) → IsWorldOf bits us w → IsFirstRefused bits us n r → ⊥ }
{}

/// Where packages come after those that they import, and became something, they have a world or one that is refused first.
pub fn world_or_refusal()
    ensures { (bits : ℕ) (us : List PackageSource) (xs : List Outcome) (w : Packages) → Become bits no_packages us xs w → ComeAfterImports [] us → IsWorldOf bits us w ⊎ ((n : ℕ) × (r : Refusal) × IsFirstRefused bits us n r) }
{}

/// Entries that are had from below of two sets of declarations are had of both together.
pub fn joined_entries()
    ensures { (s : Setting) (u : PackageSource) (S T : ℕ → Bool) (a b : Entries) → Below (given s u) (declarations u) S a → Below (given s u) (declarations u) T b → Below (given s u) (declarations u) (λ n. S n || T n) (joined a b) }
{}
