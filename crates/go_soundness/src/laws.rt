//! Laws of the definitions.
ghost use Rattle.std.specs.Prelude.{◌≡◌, ◌≢◌, ◌<◌, ℕ, Bool, true, false, [], None, Option, Some, length};
ghost use Rattle.go_base.specs.Keys.{first_with};
ghost use Rattle.go_typings.specs.go_model.declared.types.package.Package.{Package};
ghost use Rattle.go_typings.specs.go_model.worlds.Worlds.{IsWorld, path_of};
ghost use Rattle.go_typings.specs.go_syntax.declared.name.Place.{Place};
ghost use Rattle.go_typings.specs.Assignments.{At};
ghost use Rattle.go_typings.specs.Declarations.{declarations};
ghost use Rattle.go_typings.specs.PackageEnvironments.{Entries};
ghost use Rattle.go_typings.specs.Redeclarations.{IsRedeclared};
ghost use Rattle.go_typings.specs.Refusals.{IsMissing, IsRefused, place_of, unsound};
ghost use Rattle.go_typings.specs.Sources.{PackageSource, Setting};
ghost use Rattle.go_typings.specs.TypedPackages.{IsPackageOf, IsTypedAs};
ghost use Rattle.go_typings.specs.Typings.{IsFirstUnsound, IsSound, IsTyping, Typing};
ghost use Rattle.go_soundness.specs.Apart.{IsApart};
ghost use Rattle.go_soundness.specs.LostDeclarations.{IsLost};
ghost use Rattle.go_soundness.specs.Ranks.{AreRanks, HasRank};
ghost use Rattle.go_soundness.specs.Settled.{AreAll, AreSifted};

/// Where no further entry is given, a typing of some declarations has the entries of these, and so such entries are
/// the same in all.
pub fn entries_of_all()
    ensures one { (s : Setting) (u : PackageSource) (a b : Entries) → AreAll s u a → AreAll s u b → (n : ℕ) → a n ≡ b n }
    ensures shared { (s : Setting) (u : PackageSource) (a : Entries) (S : ℕ → Bool) (b : Entries) (n : ℕ) → AreAll s u a → Typing s u S b → S n ≡ true → b n ≡ a n }
{}

/// Where no further entry is given, a lost declaration isn't sound, and one that a sieve lets through is.
pub fn sound_or_lost()
    ensures lost { (s : Setting) (u : PackageSource) (a : Entries) (n : ℕ) → IsApart s u → AreAll s u a → IsLost s u a n → IsSound s u n → ⊥ }
    ensures sound { (s : Setting) (u : PackageSource) (a : Entries) (lost : ℕ → Bool) (n : ℕ) → IsApart s u → AreAll s u a → AreSifted s u a lost → n < length (declarations u) → lost n ≡ false → IsSound s u n }
{}

/// Where a sieve lets all declarations through, their entries are the typing of the package; else the first that it
/// holds back is the first unsound one.
pub fn typed_or_first_unsound()
    ensures typed { (s : Setting) (u : PackageSource) (a : Entries) (lost : ℕ → Bool) → AreAll s u a → AreSifted s u a lost → ((n : ℕ) → n < length (declarations u) → lost n ≡ false) → IsTyping s u a }
    ensures first { (s : Setting) (u : PackageSource) (a : Entries) (lost : ℕ → Bool) (n : ℕ) → IsApart s u → AreAll s u a → AreSifted s u a lost → n < length (declarations u) → lost n ≡ true → ((m : ℕ) → m < n → lost m ≡ false) → IsFirstUnsound s u n }
{}

/// So a package in which no name is declared twice and each used import is found is typed as the package of these
/// entries, or is refused at the place of the first declaration that is held back.
pub fn typed_or_refused()
    ensures typed { (s : Setting) (u : PackageSource) (a : Entries) (lost : ℕ → Bool) (p : Package) → ((q : Place) → IsRedeclared u q → ⊥) → ((q : Place) → IsMissing u q → ⊥) → AreAll s u a → AreSifted s u a lost → ((n : ℕ) → n < length (declarations u) → lost n ≡ false) → IsPackageOf u a p → IsTypedAs s u p }
    ensures refused { (s : Setting) (u : PackageSource) (a : Entries) (lost : ℕ → Bool) (n : ℕ) (p : Place) → IsApart s u → ((q : Place) → IsRedeclared u q → ⊥) → ((q : Place) → IsMissing u q → ⊥) → AreAll s u a → AreSifted s u a lost → lost n ≡ true → ((m : ℕ) → m < n → lost m ≡ false) → At (declarations u) n (λ d. place_of d ≡ p) → IsRefused s u (unsound p) }
{}

/// The entries of a package's typing are all that can be given, and a sieve lets all of its declarations through.
pub fn sieve_of_typing()
    ensures all { (s : Setting) (u : PackageSource) (a : Entries) → IsTyping s u a → AreAll s u a }
    ensures through { (s : Setting) (u : PackageSource) (a : Entries) → IsTyping s u a → AreSifted s u a (λ n. false) }
{}

/// A package of which each declaration is sound has a typing.
pub fn typing_of_sound()
    ensures { (s : Setting) (u : PackageSource) → IsApart s u → ((n : ℕ) → n < length (declarations u) → IsSound s u n) → (a : Entries) × IsTyping s u a }
{}

/// Ranks tell which declarations have one.
pub fn ranks_tell()
    ensures some { (s : Setting) (u : PackageSource) (a : Entries) (ranks : ℕ → Option ℕ) (n r : ℕ) → AreRanks s u a ranks → ranks n ≡ Some r → HasRank s u a n }
    ensures none { (s : Setting) (u : PackageSource) (a : Entries) (ranks : ℕ → Option ℕ) (n : ℕ) → AreRanks s u a ranks → n < length (declarations u) → ranks n ≡ None → HasRank s u a n → ⊥ }
{}

/// The packages of a world know nothing of a package with a new path.
pub fn apart_from_world()
    ensures { (s : Setting) (u : PackageSource) → IsWorld s.world → u.path ≢ [] → first_with path_of s.world.packages u.path ≡ None → IsApart s u }
{}
