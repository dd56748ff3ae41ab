//! Laws of selectors and method sets, for the layers above.
ghost use Rattle.std.specs.Prelude.{◌≡◌, ℕ, List, map, Bool};
ghost use Rattle.go_base.specs.Lists.{Has};
ghost use Rattle.go_model.specs.types.Tables.{Table};
ghost use Rattle.go_model.specs.types.Underlying.{under, declared_methods};
ghost use Rattle.go_model.specs.declared.types.names.Sel.{Sel};
ghost use Rattle.go_model.specs.declared.types.package.MethodOf.{MethodOf};
ghost use Rattle.go_model.specs.declared.types.term.Term.{Term, Term-F, out-Term};
ghost use Rattle.go_model.specs.declared.types.term.Field.{Field, out-Field};
ghost use Rattle.go_model.specs.declared.types.term.Signature.{Signature};
ghost use Rattle.go_model.specs.declared.types.found.Found.{Found};
ghost use Rattle.go_model.specs.declared.types.found.MethodFound.{MethodFound};
ghost use Rattle.go_model.specs.declared.types.found.Found.TheVariants.{FieldAt, MethodAt};
ghost use Rattle.go_model.specs.types.Selectors.{Spot, ends, FindsFrom, Finds};
ghost use Rattle.go_model.specs.types.MethodSets.{InSet};
ghost use Rattle.go_selectors.specs.Owners.{IsDeclaredFor};
ghost use Rattle.go_selectors.specs.Ways.{AgreeFrom, AgreeIn, IsAlone, sel_of};

/// A selector finds one thing from a spot and in a type, with its pointer flag, its depth and its
/// owner; the method set has one method of a selector.
pub fn one_find()
    ensures from { (T : Table) (s : Sel) (at : Spot) (hidden : Bool) (a b : Found) → FindsFrom T s at hidden a → FindsFrom T s at hidden b → a ≡ b }
    ensures find { (T : Table) (s : Sel) (t : Term) (a b : Found) → Finds T s t a → Finds T s t b → a ≡ b }
    ensures signature { (T : Table) (t : Term) (s : Sel) (g h : Signature) → InSet T t s g → InSet T t s h → g ≡ h }
{}

/// A found method is declared for the type that it tells as its owner, and is an interface's where it
/// tells none.
pub fn declared_owner()
    ensures from { (T : Table) (s : Sel) (at : Spot) (hidden : Bool) (m : MethodFound) → FindsFrom T s at hidden (MethodAt m) → IsDeclaredFor T s m.owner m.pointer_receiver m.signature }
    ensures find { (T : Table) (s : Sel) (t : Term) (m : MethodFound) → Finds T s t (MethodAt m) → IsDeclaredFor T s m.owner m.pointer_receiver m.signature }
{}

/// A field is found where it stands, where no other field and no declared method of the type has its
/// selector.
pub fn top_level_field()
    ensures { (T : Table) (at : Spot) (hidden : Bool) (fs : List Field) (f : Field) → under T at.term ≡ Term-F.Struct fs → IsAlone fs f → (Has (map (λ (m : MethodOf). m.sel) (declared_methods T (out-Term at.term))) (sel_of f) → ⊥) → FindsFrom T (sel_of f) at hidden (FieldAt (record { term = (out-Field f).term; through_pointer = at.through; depth = 0 })) }
{}

/// What a selector finds, and whether it is in the method set, depends only on what is underneath the
/// types on the way and on their declared methods of that selector: two tables that agree on these
/// give the same ends and the same answers.
pub fn types_on_the_way()
    ensures ends { (s : Sel) (A B : Table) (at : Spot) → AgreeFrom s A B at → (depth : ℕ) → ends A s depth at ≡ ends B s depth at }
    ensures from { (s : Sel) (A B : Table) (at : Spot) → AgreeFrom s A B at → (hidden : Bool) (r : Found) → FindsFrom A s at hidden r → FindsFrom B s at hidden r }
    ensures find { (s : Sel) (A B : Table) (t : Term) → AgreeIn s A B t → (r : Found) → Finds A s t r → Finds B s t r }
    ensures method_set { (s : Sel) (A B : Table) (t : Term) → AgreeIn s A B t → (g : Signature) → InSet A t s g → InSet B t s g }
    ensures from_back { (s : Sel) (A B : Table) (at : Spot) → AgreeFrom s A B at → AgreeFrom s B A at }
    ensures back { (s : Sel) (A B : Table) (t : Term) → AgreeIn s A B t → AgreeIn s B A t }
{}
