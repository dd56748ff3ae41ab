//! The law of the types of the standard library in the worlds of packages that are typed one after another.
ghost use Rattle.std.specs.Prelude.{ℕ, List};
ghost use Rattle.go_exposed.specs.OfferedWorlds.{IsWorldOf};
ghost use Rattle.go_model.specs.worlds.Worlds.{Packages};
ghost use Rattle.go_unit_worlds.specs.go_std_worlds.StdSources.{HavePaths, KeepStdApart};
ghost use Rattle.go_typings.specs.Sources.{PackageSource};
ghost use Rattle.api_kept_relations.specs.StdTypes.{StdMethodsStay, StdStandsAlone};

/// In the world of packages with paths of their own, among which the standard library imports itself alone, its types lead to its like
/// alone, and wherever a method by an unexported selector of it stands it has a type of it.
pub fn std_types()
    ensures alone { (bits : ℕ) (us : List PackageSource) (w : Packages) → KeepStdApart us → HavePaths us → IsWorldOf bits us w → StdStandsAlone w }
    ensures stay { (bits : ℕ) (us : List PackageSource) (w : Packages) → KeepStdApart us → HavePaths us → IsWorldOf bits us w → StdMethodsStay w }
{}
