//! Laws of the definitions.
ghost use Rattle.std.specs.Prelude.{◌≡◌, ◌<◌, ◌⊎◌, ℕ, Bool, true, false, List, [], None, Some, length};
ghost use Rattle.go_base.specs.Keys.{first_with};
ghost use Rattle.go_base.specs.Lists.{Has};
ghost use Rattle.go_model.specs.declared.types.names.TypeName.{TypeName};
ghost use Rattle.go_model.specs.declared.types.package.Defined.{Defined};
ghost use Rattle.go_model.specs.declared.types.package.Package.{Package};
ghost use Rattle.go_model.specs.worlds.PackageTypes.{package_names};
ghost use Rattle.go_model.specs.worlds.Worlds.{Packages, name_of, object_name, path_of, type_object};
ghost use Rattle.go_typings.specs.go_rules.Scopes.{entity_of};
ghost use Rattle.go_syntax.specs.declared.name.Place.{Place};
ghost use Rattle.go_typings.specs.Assignments.{At, all_of};
ghost use Rattle.go_typings.specs.Declarations.{Declared, declarations, declared};
ghost use Rattle.go_typings.specs.PackageEnvironments.{Entries, own_entity};
ghost use Rattle.go_typings.specs.PackageWorlds as whole_worlds;
ghost use Rattle.go_typings.specs.PackageWorlds.{ComeAfterImports, Outcome, no_packages};
ghost use Rattle.go_typings.specs.ReachedPackages.{ReachesSame};
ghost use Rattle.go_typings.specs.Redeclarations.{IsRedeclared};
ghost use Rattle.go_typings.specs.Refusals as whole;
ghost use Rattle.go_typings.specs.Refusals.{Refusal, missing_import, place_of, redeclared, unsound};
ghost use Rattle.go_typings.specs.Sources.{Import, PackageSource, Setting};
ghost use Rattle.go_typings.specs.TypedPackages.{IsTypedAs};
ghost use Rattle.go_typings.specs.Typings.{IsClosed, IsFirstUnsound, IsSound, IsTyping, Typing};
ghost use Rattle.go_soundness.specs.Apart.{IsApart};
ghost use Rattle.go_soundness.specs.Settled.{AreAll, AreSifted};
ghost use Rattle.go_exposed.specs.BeyondProfile.{IsBeyond};
ghost use Rattle.go_exposed.specs.Causes.{Cause, HasCause, HasToldCause};
ghost use Rattle.go_exposed.specs.ExposedDeclarations.{IsExposed};
ghost use Rattle.go_exposed.specs.ImportUses.{SelectsFrom};
ghost use Rattle.go_exposed.specs.KeptDeclarations.{LeavesOut, entries_of, not_lost};
ghost use Rattle.go_exposed.specs.OfferedPackages.{IsOfferedAs, IsPackageOf};
ghost use Rattle.go_exposed.specs.OfferedWorlds.{Become, IsFirstRefused, IsWorldOf};
ghost use Rattle.go_exposed.specs.SkippedDeclarations.{IsSkippedOf, Skipped};
ghost use Rattle.go_exposed.specs.SkippedWorlds.{AreSkipped};
ghost use Rattle.go_exposed.specs.ToldBeyond.{IsToldBeyond};
ghost use Rattle.go_exposed.specs.Refusals.{IsMissing, IsRefused, IsSeenIn, import_place};

/// The declarations of a package that are kept are the same, and have the same entries, wherever some are left out of it.
pub fn one_kept_set()
    ensures within { (s : Setting) (u : PackageSource) (S T : ℕ → Bool) (a b : Entries) → LeavesOut s u S a → LeavesOut s u T b → (n : ℕ) → S n ≡ T n }
    ensures entries { (s : Setting) (u : PackageSource) (S T : ℕ → Bool) (a b : Entries) → LeavesOut s u S a → LeavesOut s u T b → (n : ℕ) → a n ≡ b n }
{}

/// So a package is offered as at most one package, or is refused for one cause at one place, and not both.
pub fn one_offer()
    ensures offer { (s : Setting) (u : PackageSource) (p q : Package) → IsOfferedAs s u p → IsOfferedAs s u q → p ≡ q }
    ensures cause { (s : Setting) (u : PackageSource) (q r : Refusal) → IsRefused s u q → IsRefused s u r → q ≡ r }
    ensures apart { (s : Setting) (u : PackageSource) (p : Package) (r : Refusal) → IsOfferedAs s u p → IsRefused s u r → ⊥ }
{}

/// A package that has a typing is kept whole, and offered as the package as which it is typed. The other way round, where a package
/// has a typing and each import is found, it is typed as what it is offered as.
pub fn whole_package()
    ensures kept { (s : Setting) (u : PackageSource) (a : Entries) → IsTyping s u a → LeavesOut s u (all_of (declarations u)) a }
    ensures offered { (s : Setting) (u : PackageSource) (p : Package) → IsTypedAs s u p → IsOfferedAs s u p }
    ensures typed { (s : Setting) (u : PackageSource) (a : Entries) (p : Package) → IsTyping s u a → ((q : Place) → whole.IsMissing u q → ⊥) → IsOfferedAs s u p → IsTypedAs s u p }
{}

/// A package that is refused where nothing may be left out is refused for the same cause at the same place where something may: for a
/// name that is declared twice; for an import that isn't found, where what is seen selects from it; and for the first declaration
/// without a typing, where it is seen or isn't beyond the profile.
pub fn same_refusals()
    ensures redeclared { (s : Setting) (u : PackageSource) (q : Place) → whole.IsRefused s u (redeclared q) → IsRefused s u (redeclared q) }
    ensures missing { (s : Setting) (u : PackageSource) (q : Place) → ((file : ℕ) (i : Import) → i.is_found ≡ false → import_place (file, i) ≡ q → IsSeenIn u file i)
        → whole.IsRefused s u (missing_import q) → IsRefused s u (missing_import q) }
    ensures unsound { (s : Setting) (u : PackageSource) (q : Place) → ((n : ℕ) → IsFirstUnsound s u n → IsExposed u n ⊎ (IsBeyond s u n → ⊥))
        → whole.IsRefused s u (unsound q) → IsRefused s u (unsound q) }
{}

/// Each declaration that is seen is kept, so each of a package that is offered is sound, and the imports are found from which it selects;
/// and a package isn't without a refusal where one that is seen isn't sound.
pub fn seen_declarations()
    ensures kept { (s : Setting) (u : PackageSource) (S : ℕ → Bool) (a : Entries) (n : ℕ) → LeavesOut s u S a → IsExposed u n → S n ≡ true }
    ensures sound { (s : Setting) (u : PackageSource) (p : Package) (n : ℕ) → IsOfferedAs s u p → IsExposed u n → IsSound s u n }
    ensures found { (s : Setting) (u : PackageSource) (p : Package) (n : ℕ) (i : Import) → IsOfferedAs s u p → IsExposed u n → At (declarations u) n (λ d. SelectsFrom u d i) → i.is_found ≡ true }
    ensures refused { (s : Setting) (u : PackageSource) (n : ℕ) → IsExposed u n → (IsSound s u n → ⊥) → ((r : Refusal) → IsRefused s u r → ⊥) → ⊥ }
{}

/// In a package that is offered the name of a declaration that is left out has no object and no defined type, and that of one that is
/// kept has the object that its entry gives it.
pub fn kept_names()
    ensures kept { (s : Setting) (u : PackageSource) (p : Package) (o : IsOfferedAs s u p) (name : List ℕ) (d : Declared) → declared (declarations u) name ≡ Some d → o.within d.number ≡ true
        → entity_of (first_with object_name p.objects name) ≡ own_entity u o.entries name }
    ensures object { (s : Setting) (u : PackageSource) (p : Package) (o : IsOfferedAs s u p) (name : List ℕ) (d : Declared) → declared (declarations u) name ≡ Some d → o.within d.number ≡ false
        → entity_of (first_with object_name p.objects name) ≡ None }
    ensures defined { (s : Setting) (u : PackageSource) (p : Package) (o : IsOfferedAs s u p) (name : List ℕ) (d : Declared) → declared (declarations u) name ≡ Some d → o.within d.number ≡ false
        → first_with name_of p.defined name ≡ None }
{}

/// No type of the package that is left out stands in the types of one that is offered, and each defined type of it has its object.
pub fn kept_types()
    ensures object { (s : Setting) (u : PackageSource) (p : Package) (d : Defined) → IsOfferedAs s u p → Has p.defined d → first_with object_name p.objects d.name ≡ Some (type_object p.path d.name) }
    ensures names { (s : Setting) (u : PackageSource) (p : Package) (o : IsOfferedAs s u p) (n : TypeName) (d : Declared) → IsApart s u → Has (package_names p) n → n.path ≡ u.path
        → declared (declarations u) n.name ≡ Some d → o.within d.number ≡ true }
{}

/// What a sieve lets through is closed, and the entries that are had are its typing; and where some declarations may be left out, these
/// are the ones that are kept.
pub fn sieve_of_kept()
    ensures closed { (s : Setting) (u : PackageSource) (a : Entries) (lost : ℕ → Bool) → IsApart s u → AreAll s u a → AreSifted s u a lost → IsClosed s u (not_lost u lost) }
    ensures typing { (s : Setting) (u : PackageSource) (a : Entries) (lost : ℕ → Bool) → IsApart s u → AreAll s u a → AreSifted s u a lost → Typing s u (not_lost u lost) (entries_of (not_lost u lost) a) }
    ensures within { (s : Setting) (u : PackageSource) (a : Entries) (lost : ℕ → Bool) (S : ℕ → Bool) (b : Entries) (n : ℕ) → IsApart s u → AreAll s u a → AreSifted s u a lost → LeavesOut s u S b → S n ≡ not_lost u lost n }
    ensures entries { (s : Setting) (u : PackageSource) (a : Entries) (lost : ℕ → Bool) (S : ℕ → Bool) (b : Entries) (n : ℕ) → IsApart s u → AreAll s u a → AreSifted s u a lost → LeavesOut s u S b → b n ≡ entries_of (not_lost u lost) a n }
{}

/// Which declarations are beyond the profile is told in the entries that are had: an inexact constant counts where a sieve holds nothing
/// back on which it depends.
pub fn beyond_of_sieve()
    ensures tells { (s : Setting) (u : PackageSource) (a : Entries) (lost : ℕ → Bool) (n : ℕ) → IsApart s u → AreAll s u a → AreSifted s u a lost → IsToldBeyond s u a lost n → IsBeyond s u n }
    ensures told { (s : Setting) (u : PackageSource) (a : Entries) (lost : ℕ → Bool) (n : ℕ) → IsApart s u → AreAll s u a → AreSifted s u a lost → IsBeyond s u n → IsToldBeyond s u a lost n }
{}

/// So is the cause for which a declaration is beyond the profile.
pub fn cause_of_sieve()
    ensures tells { (s : Setting) (u : PackageSource) (a : Entries) (lost : ℕ → Bool) (n : ℕ) (c : Cause) → IsApart s u → AreAll s u a → AreSifted s u a lost → HasToldCause s u a lost n c → HasCause s u n c }
    ensures told { (s : Setting) (u : PackageSource) (a : Entries) (lost : ℕ → Bool) (n : ℕ) (c : Cause) → IsApart s u → AreAll s u a → AreSifted s u a lost → HasCause s u n c → HasToldCause s u a lost n c }
{}

/// A declaration is beyond the profile for at most one cause, and there is at most one list of what is left out: of a package, and of
/// packages in a list.
pub fn one_skipped()
    ensures cause { (s : Setting) (u : PackageSource) (n : ℕ) (c d : Cause) → HasCause s u n c → HasCause s u n d → c ≡ d }
    ensures package { (s : Setting) (u : PackageSource) (S T : ℕ → Bool) (a b : Entries) (xs ys : List Skipped) → LeavesOut s u S a → LeavesOut s u T b → IsSkippedOf s u S xs → IsSkippedOf s u T ys → xs ≡ ys }
    ensures packages { (bits : ℕ) (us : List PackageSource) (xs ys : List (List Skipped)) → AreSkipped bits us xs → AreSkipped bits us ys → xs ≡ ys }
{}

/// Where a sieve holds back only what nobody sees and what is beyond the profile, the others are kept, and the package of their entries
/// is offered; else the package is refused at the place of the first other one that it holds back.
pub fn offered_or_refused()
    ensures kept { (s : Setting) (u : PackageSource) (a : Entries) (lost : ℕ → Bool) → IsApart s u → AreAll s u a → AreSifted s u a lost
        → ((n : ℕ) → n < length (declarations u) → lost n ≡ true → (IsExposed u n → ⊥) × IsBeyond s u n) → LeavesOut s u (not_lost u lost) (entries_of (not_lost u lost) a) }
    ensures offered { (s : Setting) (u : PackageSource) (a : Entries) (lost : ℕ → Bool) (p : Package) → IsApart s u → ((q : Place) → IsRedeclared u q → ⊥) → ((q : Place) → IsMissing u q → ⊥) → AreAll s u a → AreSifted s u a lost
        → ((n : ℕ) → n < length (declarations u) → lost n ≡ true → (IsExposed u n → ⊥) × IsBeyond s u n) → IsPackageOf u (entries_of (not_lost u lost) a) p → IsOfferedAs s u p }
    ensures refused { (s : Setting) (u : PackageSource) (a : Entries) (lost : ℕ → Bool) (n : ℕ) (p : Place) → IsApart s u → ((q : Place) → IsRedeclared u q → ⊥) → ((q : Place) → IsMissing u q → ⊥) → AreAll s u a → AreSifted s u a lost
        → lost n ≡ true → IsExposed u n ⊎ (IsBeyond s u n → ⊥) → ((m : ℕ) → m < n → lost m ≡ true → (IsExposed u m → ⊥) × IsBeyond s u m) → At (declarations u) n (λ d. place_of d ≡ p) → IsRefused s u (unsound p) }
{}

/// In two settings that are the same in all that a package reaches, and in which no package has the empty path, the same declarations are
/// kept with the same entries, and it is offered as the same packages and refused for the same cause.
pub fn same_imports()
    ensures kept { (u : PackageSource) (s t : Setting) (S : ℕ → Bool) (a : Entries) → first_with path_of s.world.packages [] ≡ None → first_with path_of t.world.packages [] ≡ None → ReachesSame u s t → LeavesOut s u S a → LeavesOut t u S a }
    ensures offered { (u : PackageSource) (s t : Setting) (p : Package) → first_with path_of s.world.packages [] ≡ None → first_with path_of t.world.packages [] ≡ None → ReachesSame u s t → IsOfferedAs s u p → IsOfferedAs t u p }
    ensures refused { (u : PackageSource) (s t : Setting) (r : Refusal) → first_with path_of s.world.packages [] ≡ None → first_with path_of t.world.packages [] ≡ None → ReachesSame u s t → IsRefused s u r → IsRefused t u r }
{}

/// Packages in a list become one thing each: they have at most one world and one first refusal, and not both. Where all of them are typed
/// whole, their world is the same.
pub fn one_world()
    ensures outcomes { (bits : ℕ) (w : Packages) (us : List PackageSource) (xs ys : List Outcome) (v z : Packages) → Become bits w us xs v → Become bits w us ys z → (xs ≡ ys) × (v ≡ z) }
    ensures world { (bits : ℕ) (us : List PackageSource) (v w : Packages) → IsWorldOf bits us v → IsWorldOf bits us w → v ≡ w }
    ensures refusal { (bits : ℕ) (us : List PackageSource) (m n : ℕ) (q r : Refusal) → IsFirstRefused bits us m q → IsFirstRefused bits us n r → (m ≡ n) × (q ≡ r) }
    ensures apart { (bits : ℕ) (us : List PackageSource) (w : Packages) (n : ℕ) (r : Refusal) → IsWorldOf bits us w → IsFirstRefused bits us n r → ⊥ }
    ensures whole { (bits : ℕ) (us : List PackageSource) (w : Packages) → whole_worlds.IsWorldOf bits us w → IsWorldOf bits us w }
{}

/// Where packages come after those that they import, and became something, they have a world or one that is refused first.
pub fn world_or_refusal()
    ensures { (bits : ℕ) (us : List PackageSource) (xs : List Outcome) (w : Packages) → Become bits no_packages us xs w → ComeAfterImports [] us → IsWorldOf bits us w ⊎ ((n : ℕ) × (r : Refusal) × IsFirstRefused bits us n r) }
{}
