//! Laws of what becomes of packages.
ghost use Rattle.std.specs.Prelude.{◌≡◌, ◌≢◌, ◌⊎◌, ℕ, Bool, List, [], None, length};
ghost use Rattle.go_base.specs.Keys.{first_with};
ghost use Rattle.go_existence.specs.Existence.{NotNone};
ghost use Rattle.go_exposed.specs.OfferedPackages.{IsOfferedAs, IsPackageOf};
ghost use Rattle.go_exposed.specs.OfferedWorlds.{IsFirstRefused, IsWorldOf};
ghost use Rattle.go_exposed.specs.Refusals.{IsRefused};
ghost use Rattle.go_exposed.specs.SkippedDeclarations.{Skipped};
ghost use Rattle.go_exposed.specs.SkippedWorlds.{AreSkipped};
ghost use Rattle.go_model.specs.declared.types.package.Package.{Package};
ghost use Rattle.go_model.specs.worlds.Worlds.{IsWorld, Packages, path_of};
ghost use Rattle.go_typings.specs.PackageEnvironments.{Entries};
ghost use Rattle.go_typings.specs.Refusals.{Refusal};
ghost use Rattle.go_typings.specs.Sources.{PackageSource, Setting};
ghost use Rattle.go_typings.specs.TypedPackages as whole;
ghost use Rattle.go_typings.specs.Typings.{IsTyping, Typing};
ghost use Rattle.go_units.specs.declared.unit_list.Units.{Units};
ghost use Rattle.go_work.specs.Answers.{sources};
ghost use Rattle.go_work.specs.Paths.{AreOfPackages};

/// A typing is that of some package.
pub fn package_of_typing()
    ensures { (s : Setting) (u : PackageSource) (a : Entries) → IsTyping s u a → (p : Package) × whole.IsPackageOf u a p }
{}

/// So is a typing of some declarations, which gives objects to these alone.
pub fn package_of_kept()
    ensures { (s : Setting) (u : PackageSource) (S : ℕ → Bool) (a : Entries) → Typing s u S a → (p : Package) × IsPackageOf u a p }
{}

/// Over a world that doesn't have its path, a package is offered as one, or is refused for a first cause.
pub fn offered_or_refused()
    ensures { (s : Setting) (u : PackageSource) → IsWorld s.world → u.path ≢ [] → first_with path_of s.world.packages u.path ≡ None
        → NotNone (((p : Package) × IsOfferedAs s u p) ⊎ ((r : Refusal) × IsRefused s u r)) }
{}

/// Of the packages of a world some list is what is left out.
pub fn skips_exist()
    ensures { (bits : ℕ) (us : List PackageSource) (w : Packages) → IsWorldOf bits us w → NotNone ((xss : List (List Skipped)) × AreSkipped bits us xss) }
{}

/// The units of a tree have a world, or one of them is the first that is refused.
pub fn world_or_refusal()
    ensures { (bits : ℕ) (units : Units) → AreOfPackages units.packages
        → NotNone (((w : Packages) × IsWorldOf bits (sources units.packages) w)
        ⊎ ((n : ℕ) × (r : Refusal) × IsFirstRefused bits (sources units.packages) n r)) }
{}
