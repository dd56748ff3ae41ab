//! Laws of worlds and of the types in them, for the layers above.
ghost use Rattle.std.specs.Prelude.{◌≡◌, ◌≢◌, ◌∷◌, ℕ, Bool, List, [], map, Some};
ghost use Rattle.std.specs.Thread.{IsSend, IsSync};
ghost use Rattle.go_base.specs.Lists.{Has, Each, Once};
ghost use Rattle.go_base.specs.Gathered.{gather};
ghost use Rattle.go_base.specs.Keys.{first_with, placed};
ghost use Rattle.go_model.specs.contracts.types.package.Package.{the_row as package_row};
ghost use Rattle.go_model.specs.contracts.types.world.World.{the_row as world_row};
ghost use Rattle.go_model.specs.declared.types.names.Sel.{Sel};
ghost use Rattle.go_model.specs.declared.types.names.TypeName.{TypeName};
ghost use Rattle.go_model.specs.declared.types.package.Defined.{Defined};
ghost use Rattle.go_model.specs.declared.types.package.Package.{Package};
ghost use Rattle.go_model.specs.declared.types.term.Term.{Term, Term-F, out-Term};
ghost use Rattle.go_model.specs.declared.types.term.Field.{Field};
ghost use Rattle.go_model.specs.declared.types.term.Method.{Method};
ghost use Rattle.go_model.specs.types.Members.{members, field_sel, AreDistinct, AreOrdered, IsWellFormed};
ghost use Rattle.go_model.specs.types.MethodSets.{method_sel};
ghost use Rattle.go_model.specs.types.Terms.{client_path};
ghost use Rattle.go_model.specs.worlds.PackageTypes.{package_names, package_selectors};
ghost use Rattle.go_model.specs.worlds.Worlds.{Packages, IsWorld, IsPackage, IsDefined, IsOwned, path_of, table_of, object_in, type_object, with_package};

/// What a well-formed type has at its own level. Methods that are in order stand once.
pub fn well_formed_types()
    ensures struct_fields { (t : Term) (fs : List Field) → Each IsWellFormed (members t) → out-Term t ≡ Term-F.Struct fs → AreDistinct (map field_sel fs) }
    ensures interface_methods { (t : Term) (ms : List Method) → Each IsWellFormed (members t) → out-Term t ≡ Term-F.Interface ms → AreOrdered (map method_sel ms) }
    ensures once { (ss : List Sel) → AreOrdered ss → Once ss }
{}

/// What a world tells of the name of a defined type in it: the type of this name, which is kept as in its
/// package, its object, and what is underneath, which is well formed.
pub fn defined_types()
    ensures named { (w : Packages) → IsWorld w → (n : TypeName) (d : Defined) → table_of w.packages n ≡ Some d → d.name ≡ n.name }
    ensures kept { (w : Packages) → IsWorld w → (n : TypeName) (d : Defined) → table_of w.packages n ≡ Some d → IsDefined (table_of w.packages) d }
    ensures declared { (w : Packages) → IsWorld w → (n : TypeName) (d : Defined) → table_of w.packages n ≡ Some d → object_in (first_with path_of w.packages n.path) n.name ≡ Some (type_object n.path n.name) }
    ensures formed { (w : Packages) → IsWorld w → (n : TypeName) (d : Defined) → table_of w.packages n ≡ Some d → Each IsWellFormed (members d.underlying) }
{}

/// A world with one more package is a world, where none of its packages has the path, the package is kept
/// over the table of all of them, and its selectors are exported, its own or of a package of the world.
pub fn added_package()
    ensures { (w : Packages) (p : Package) (public : Bool) → IsWorld w → (Has (map path_of w.packages) p.path → ⊥) → IsPackage (table_of (placed path_of p w.packages)) p → Each (IsOwned (p.path ∷ map path_of w.packages)) (package_selectors p) → IsWorld (with_package w p public) }
{}

/// Where no package of a world has a path, no type of the world names a type of that path and none has a
/// selector of it.
pub fn absent_path()
    ensures names { (w : Packages) (path : List ℕ) → IsWorld w → path ≢ [] → (Has (map path_of w.packages) path → ⊥) → (n : TypeName) → Has (gather package_names w.packages) n → n.path ≢ path }
    ensures selectors { (w : Packages) (path : List ℕ) → IsWorld w → path ≢ [] → (Has (map path_of w.packages) path → ⊥) → (s : Sel) → Has (gather package_selectors w.packages) s → s.«package» ≢ path }
{}

/// No package of a world is a client's: no type of the world names a type of the client's path, and none
/// has a selector of it.
pub fn client_absent()
    ensures packages { (w : Packages) → IsWorld w → Has (map path_of w.packages) client_path → ⊥ }
    ensures names { (w : Packages) → IsWorld w → (n : TypeName) → Has (gather package_names w.packages) n → n.path ≢ client_path }
    ensures selectors { (w : Packages) → IsWorld w → (s : Sel) → Has (gather package_selectors w.packages) s → s.«package» ≢ client_path }
{}

/// A package and a world may be sent to another thread and shared with one. What shares a world with a thread calls this
/// before, since the search for it through all parts of a package gives up.
pub fn sendable()
    ensures packages_sent { IsSend package_row }
    ensures packages_shared { IsSync package_row }
    ensures worlds_sent { IsSend world_row }
    ensures worlds_shared { IsSync world_row }
{}
