//! Laws of the relations on types, for the layers above.
ghost use Rattle.std.specs.Prelude.{◌≡◌, ℕ, List, [], map, Bool, true, false};
ghost use Rattle.go_selectors.specs.go_base.Lists.{Once};
ghost use Rattle.go_model.specs.types.Tables.{Table};
ghost use Rattle.go_model.specs.declared.types.names.Sel.{Sel};
ghost use Rattle.go_model.specs.declared.types.term.Term.{Term, Term-F, out-Term};
ghost use Rattle.go_model.specs.declared.types.term.Method.{Method};
ghost use Rattle.go_model.specs.types.Underlying.{under, declared_methods};
ghost use Rattle.go_model.specs.declared.types.term.Signature.{Signature};
ghost use Rattle.go_model.specs.declared.types.found.Found.{Found};
ghost use Rattle.go_model.specs.types.Selectors.{Spot, ends, Finds};
ghost use Rattle.go_selectors.specs.Ways.{AgreeIn};
ghost use Rattle.go_model.specs.types.MethodSets.{InSet, Implements, method_sel};
ghost use Rattle.go_model.specs.types.Comparison.{Comparable};
ghost use Rattle.go_types.specs.Regions.{Within, AgreeOn, IsClosed};
ghost use Rattle.go_model.specs.declared.types.names.TypeName.{TypeName};
ghost use Rattle.go_model.specs.types.Assignability.{Assignable};
ghost use Rattle.go_model.specs.types.Conversions.{Convertible};

/// What is permitted in a client of the profile is permitted elsewhere.
pub fn profile_permits_less()
    ensures assignable { (T : Table) (from to : Term) → Assignable T true from to → Assignable T false from to }
    ensures convertible { (T : Table) (from to : Term) → Convertible T true from to → Convertible T false from to }
{}

/// Two tables that agree on a set of names which is closed under them give the same answers for the
/// types whose names are in it.
pub fn agreeing_tables()
    ensures ends { (P : TypeName → Bool) (A B : Table) → AgreeOn P A B → IsClosed P A → (s : Sel) (at : Spot) (depth : ℕ) → Within P at.term → ends A s depth at ≡ ends B s depth at }
    ensures way { (P : TypeName → Bool) (A B : Table) → AgreeOn P A B → IsClosed P A → (s : Sel) (t : Term) → Within P t → AgreeIn s A B t }
    ensures find { (P : TypeName → Bool) (A B : Table) → AgreeOn P A B → IsClosed P A → (s : Sel) (t : Term) (r : Found) → Within P t → Finds A s t r → Finds B s t r }
    ensures method_set { (P : TypeName → Bool) (A B : Table) → AgreeOn P A B → IsClosed P A → (t : Term) (s : Sel) (g : Signature) → Within P t → InSet A t s g → InSet B t s g }
    ensures implements { (P : TypeName → Bool) (A B : Table) → AgreeOn P A B → IsClosed P A → (t interface : Term) → Within P t → Within P interface → Implements A t interface → Implements B t interface }
    ensures assignable { (P : TypeName → Bool) (A B : Table) → AgreeOn P A B → IsClosed P A → (profile : Bool) (from to : Term) → Within P from → Within P to → Assignable A profile from to → Assignable B profile from to }
    ensures convertible { (P : TypeName → Bool) (A B : Table) → AgreeOn P A B → IsClosed P A → (profile : Bool) (from to : Term) → Within P from → Within P to → Convertible A profile from to → Convertible B profile from to }
    ensures comparable { (P : TypeName → Bool) (A B : Table) → AgreeOn P A B → IsClosed P A → (t : Term) → Within P t → Comparable A t → Comparable B t }
    ensures back { (P : TypeName → Bool) (A B : Table) → AgreeOn P A B → AgreeOn P B A }
    ensures closed { (P : TypeName → Bool) (A B : Table) → AgreeOn P A B → IsClosed P A → IsClosed P B }
{}

/// Two types with the same interface underneath implement each other, where no selector stands twice
/// in it and no method is declared for the type that implements.
pub fn same_interfaces()
    ensures { (T : Table) (t interface : Term) (ms : List Method) → under T t ≡ Term-F.Interface ms → under T interface ≡ Term-F.Interface ms → Once (map method_sel ms) → declared_methods T (out-Term t) ≡ [] → Implements T t interface }
{}
