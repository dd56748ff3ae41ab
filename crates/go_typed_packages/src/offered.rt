//! Laws of packages that are offered, of which declarations may be left out.
ghost use Rattle.std.specs.Prelude.{◌≡◌, ◌≢◌, ◌∷◌, [], Bool, None, map};
ghost use Rattle.go_base.specs.Keys.{first_with};
ghost use Rattle.go_base.specs.Lists.{Each};
ghost use Rattle.go_exposed.specs.OfferedPackages.{IsOfferedAs};
ghost use Rattle.go_model.specs.declared.types.package.Package.{Package};
ghost use Rattle.go_model.specs.types.Members.{IsWellFormed};
ghost use Rattle.go_model.specs.types.Terms.{client_path};
ghost use Rattle.go_model.specs.worlds.PackageTypes.{package_members, package_selectors};
ghost use Rattle.go_model.specs.worlds.Worlds.{IsOwned, IsWorld, path_of, table_of, with_package};
ghost use Rattle.go_typed_packages.specs.PackageShapes.{AreResolved, HasShape};
ghost use Rattle.go_typings.specs.Sources.{PackageSource, Setting};

/// A package that is offered has the shape that a world asks of its packages.
pub fn shaped()
    ensures { (s : Setting) (u : PackageSource) (p : Package) → IsOfferedAs s u p → HasShape p }
{}

/// Each name in the types of a package that is offered over a world, with a path of its own that isn't empty, has an entry among the
/// packages of the world and the package: none is of a declaration that is left out.
pub fn resolves()
    ensures { (s : Setting) (u : PackageSource) (p : Package) (public : Bool) → IsWorld s.world → u.path ≢ []
        → first_with path_of s.world.packages u.path ≡ None → IsOfferedAs s u p → AreResolved (table_of (with_package s.world p public).packages) p }
{}

/// Each selector in a package that is offered over a world is exported, or of the package itself or of one of the world.
pub fn owned()
    ensures { (s : Setting) (u : PackageSource) (p : Package) → IsWorld s.world → IsOfferedAs s u p
        → Each (IsOwned (p.path ∷ map path_of s.world.packages)) (package_selectors p) }
{}

/// In each struct type of a package that is offered over a world the names of fields are distinct, and in each interface type methods
/// are in order, none of them blank.
pub fn formed()
    ensures { (s : Setting) (u : PackageSource) (p : Package) → IsWorld s.world → IsOfferedAs s u p
        → Each IsWellFormed (package_members p) }
{}

/// A package that is offered over the packages of a world, with a path of its own, may join them.
pub fn joins_world()
    ensures { (s : Setting) (u : PackageSource) (p : Package) (public : Bool) → IsWorld s.world → u.path ≢ [] → u.path ≢ client_path
        → first_with path_of s.world.packages u.path ≡ None → IsOfferedAs s u p → IsWorld (with_package s.world p public) }
{}
