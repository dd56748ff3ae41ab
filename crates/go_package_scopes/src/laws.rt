//! Laws of the definitions.
ghost use Rattle.std.specs.Prelude.{◌≡◌, ◌≢◌, ◌↔◌, ℕ, false, List, [], None, Some, slice_get};
ghost use Rattle.go_typings.specs.go_references.declared.references.Reference.{Reference};
ghost use Rattle.go_rules.specs.Growth.{Grows};
ghost use Rattle.go_rules.specs.Scopes.{Scopes, env_of};
ghost use Rattle.go_typings.specs.DeclarationAsks.{Asks};
ghost use Rattle.go_typings.specs.DeclarationRules.{Gives};
ghost use Rattle.go_typings.specs.Declarations.{Declaration, Form, declarations};
ghost use Rattle.go_typings.specs.PackageEnvironments.{Entries, Entry, environment};
ghost use Rattle.go_typings.specs.Sources.{PackageSource, Setting};
ghost use Rattle.go_model.specs.declared.types.package.Defined.{Defined};
ghost use Rattle.go_model.specs.declared.types.package.Entity.{Entity};
ghost use Rattle.go_model.specs.declared.types.term.Signature.{Signature};
ghost use Rattle.go_model.specs.declared.types.term.Term.{Term};
ghost use Rattle.go_rules.specs.Expressions.{is_blank};
ghost use Rattle.go_rules.specs.Names.{Named, with_value};
ghost use Rattle.go_rules.specs.declared.seen.Seen.{Seen};
ghost use Rattle.go_syntax.specs.declared.declaration.Func.{Func};
ghost use Rattle.go_syntax.specs.declared.declaration.TypeSpec.{TypeSpec};
ghost use Rattle.go_syntax.specs.declared.types.ParameterDecl.{ParameterDecl};
ghost use Rattle.go_typings.specs.Declarations.{definition, method};
ghost use Rattle.go_typings.specs.PackageEnvironments.{objects, signed, underlying};
ghost use Rattle.go_typings.specs.Receivers.{base, methods, selector};
ghost use Rattle.go_typings.specs.References.{FindsMethod, NamesDeclaration};
ghost use Rattle.go_package_scopes.specs.KeptScopes.{HasObjects, IsFirstOf, Keeps, ShowsType, shown, with_entry, with_methods};
ghost use Rattle.go_package_scopes.specs.PackageScopes.{IsScopeOf, at_declaration};

/// Where scopes keep what is had of a package under some entries, they have where a declaration stands all that the package's
/// environment under these entries has there, and no more; so it is given the same in both.
pub fn same_environment()
    ensures grows { (s : Setting) (u : PackageSource) (a : Entries) (c : Scopes) (d : Declaration) → IsScopeOf s u a c → u.path ≢ [] → Grows (env_of (at_declaration c d)) (environment s u a d) }
    ensures back { (s : Setting) (u : PackageSource) (a : Entries) (c : Scopes) (d : Declaration) → IsScopeOf s u a c → u.path ≢ [] → Grows (environment s u a d) (env_of (at_declaration c d)) }
    ensures given { (s : Setting) (u : PackageSource) (a : Entries) (c : Scopes) (d : Declaration) (f : Form) (x : Entry) → IsScopeOf s u a c → u.path ≢ [] → Gives (env_of (at_declaration c d)) (declarations u) f x ↔ Gives (environment s u a d) (declarations u) f x }
{}

/// Where scopes keep what is had of a package, a declaration meets there what it is asked, names declarations and finds methods
/// exactly where it does in the package's environment.
pub fn same_answers()
    ensures asks { (s : Setting) (u : PackageSource) (a : Entries) (c : Scopes) (d : Declaration) (n : ℕ) (f : Form) → IsScopeOf s u a c → u.path ≢ [] → Asks (env_of (at_declaration c d)) u n f ↔ Asks (environment s u a d) u n f }
    ensures names { (s : Setting) (u : PackageSource) (a : Entries) (c : Scopes) (d : Declaration) (f : Form) (rs : List Reference) (n : ℕ) → IsScopeOf s u a c → u.path ≢ [] → NamesDeclaration (env_of (at_declaration c d)) u f rs n ↔ NamesDeclaration (environment s u a d) u f rs n }
    ensures finds { (s : Setting) (u : PackageSource) (a : Entries) (c : Scopes) (d : Declaration) (f : Form) (n : ℕ) → IsScopeOf s u a c → u.path ≢ [] → FindsMethod (env_of (at_declaration c d)) u f n ↔ FindsMethod (environment s u a d) u f n }
{}

/// Scopes that keep what is had of a package are scopes of the package.
pub fn kept_scopes()
    ensures { (s : Setting) (u : PackageSource) (a : Entries) (c : Scopes) → Keeps s u a c → IsScopeOf s u a c }
{}

/// Scopes that keep what is had keep what is had once the objects of a declaration are had, where these names mean them.
pub fn kept_objects()
    ensures { (s : Setting) (u : PackageSource) (a : Entries) (c : Scopes) (n : ℕ) (d : Declaration) (xs : List Entity) (t : Named Seen)
        → Keeps s u a c → a n ≡ None → slice_get (declarations u) n ≡ Some d → ((spec : TypeSpec) → d.form ≢ definition spec)
        → HasObjects (declarations u) n xs c.declared t → Keeps s u (with_entry a n (objects xs)) (record c { declared = t }) }
{}

/// So do they once the type underneath a defined type is had, where the type is had that shows its methods; and nothing changes where
/// another declaration is the first of its name, or none is.
pub fn kept_type()
    ensures first { (s : Setting) (u : PackageSource) (a : Entries) (c : Scopes) (n : ℕ) (d : Declaration) (spec : TypeSpec) (t : Term) (e : Defined)
        → Keeps s u a c → a n ≡ None → slice_get (declarations u) n ≡ Some d → d.form ≡ definition spec → IsFirstOf (declarations u) n spec.name.text
        → ShowsType (with_entry a n (underlying t)) (methods u spec.name.text) t e
        → Keeps s u (with_entry a n (underlying t)) (record c { defined = with_value c.defined spec.name.text e }) }
    ensures other { (s : Setting) (u : PackageSource) (a : Entries) (c : Scopes) (n : ℕ) (d : Declaration) (spec : TypeSpec) (t : Term)
        → Keeps s u a c → a n ≡ None → slice_get (declarations u) n ≡ Some d → d.form ≡ definition spec → (IsFirstOf (declarations u) n spec.name.text → ⊥)
        → Keeps s u (with_entry a n (underlying t)) c }
{}

/// So do they once the signature of a method is had, where its type has the methods of its selector more that are shown then; and nothing
/// changes where no selector can find it.
pub fn kept_method()
    ensures found { (s : Setting) (u : PackageSource) (a : Entries) (c : Scopes) (n : ℕ) (d : Declaration) (receiver : ParameterDecl) (f : Func) (type : List ℕ) (g : Signature)
        → Keeps s u a c → a n ≡ None → slice_get (declarations u) n ≡ Some d → d.form ≡ method receiver f
        → base (declarations u) receiver ≡ Some type → is_blank f.name.text ≡ false
        → Keeps s u (with_entry a n (signed g)) (with_methods c type (shown (with_entry a n (signed g)) (methods u type) (selector u.path f.name.text))) }
    ensures other { (s : Setting) (u : PackageSource) (a : Entries) (c : Scopes) (n : ℕ) (d : Declaration) (receiver : ParameterDecl) (f : Func) (g : Signature)
        → Keeps s u a c → a n ≡ None → slice_get (declarations u) n ≡ Some d → d.form ≡ method receiver f
        → ((type : List ℕ) → base (declarations u) receiver ≡ Some type → is_blank f.name.text ≡ false → ⊥)
        → Keeps s u (with_entry a n (signed g)) c }
{}
