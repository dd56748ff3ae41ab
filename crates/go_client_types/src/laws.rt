//! Laws of a client's types in two environments, of which the new one keeps what the old one gives.
ghost use Rattle.std.specs.Prelude.{◌≡◌, ◌⊎◌, ℕ, List, Bool, true, false, map};
ghost use Rattle.go_base.specs.Lists.{Has as HasItem};
ghost use Rattle.go_model.specs.declared.constants.value.Kind.{Kind};
ghost use Rattle.go_model.specs.declared.constants.value.Untyped.{Untyped};
ghost use Rattle.go_model.specs.declared.constants.value.Value.{Value};
ghost use Rattle.go_model.specs.declared.types.names.Sel.{Sel};
ghost use Rattle.go_model.specs.declared.types.names.TypeName.{TypeName};
ghost use Rattle.go_model.specs.declared.types.package.ConstTerm.{ConstTerm};
ghost use Rattle.go_model.specs.declared.types.term.Signature.{Signature};
ghost use Rattle.go_model.specs.declared.types.term.Term.{Term, out-Term};
ghost use Rattle.go_model.specs.types.Comparison.{Comparable};
ghost use Rattle.go_model.specs.types.Selectors.{Ending, IsOnly, Target, ends};
ghost use Rattle.go_model.specs.types.Tables.{Table};
ghost use Rattle.go_model.specs.types.Terms.{IsBlank, Layer, client_path};
ghost use Rattle.go_model.specs.types.Underlying.{under};
ghost use Rattle.go_rules.specs.Asks.{IsOwnLayer, Meets};
ghost use Rattle.go_rules.specs.Environments.{Entered, Env, Found, HasMethod};
ghost use Rattle.go_rules.specs.Expressions.{Has, OfType};
ghost use Rattle.go_rules.specs.Growth.{Grows};
ghost use Rattle.go_rules.specs.Nodes.{expression, type};
ghost use Rattle.go_rules.specs.Operands.{HasKind, IsTyped, IsUntyped, ShapeWithin, constant_of};
ghost use Rattle.go_rules.specs.Usability.{Assignable, Compares, Convertible, Implements, Match, UsableAs};
ghost use Rattle.go_rules.specs.declared.operand.Operand.{Operand};
ghost use Rattle.go_syntax.specs.declared.expression.Expr.{Expr};
ghost use Rattle.go_syntax.specs.declared.types.«Type».{«Type» as Typ};
ghost use Rattle.go_type_images.specs.EntryImages.{const_to};
ghost use Rattle.go_type_images.specs.Images.{Naming, image, image_of_layer, image_of_signature, same_sels};
ghost use Rattle.go_type_images.specs.Levels.{is_structured};
ghost use Rattle.go_type_images.specs.Parts.{function_type, parts};
ghost use Rattle.go_type_images.specs.SpotImages.{at_spot, ending_to};
ghost use Rattle.go_type_images.specs.declared.pair.TypePair.{TypePair};
ghost use Rattle.go_client_types.specs.Endings.{IsKeptEnding, TargetReached, end_at};
ghost use Rattle.go_client_types.specs.Following.{After};
ghost use Rattle.go_client_types.specs.Keeping.{Keeps};
ghost use Rattle.go_client_types.specs.OwnTypes.{OwnTypes};
ghost use Rattle.go_client_types.specs.Reached.{ConstReached, IsClientSel, IsReached};

/// From a client's own type each selector finds on the new side the image of what it finds on the old one.
pub fn own_types()
    ensures ends { (T U : Table) (r : Naming) → OwnTypes T U r → (s : Sel) (k : ℕ) (b : Bool) (t : Term) → IsOwnLayer (out-Term t) → ends U s k (at_spot b (image r same_sels t)) ≡ map (ending_to r) (ends T s k (at_spot b t)) }
    ensures found { (T U : Table) (r : Naming) → OwnTypes T U r → (s : Sel) (d : ℕ) (b : Bool) (t : Term) (e : Ending) → IsOwnLayer (out-Term t) → IsOnly T s (at_spot b t) d e → IsOnly U s (at_spot b (image r same_sels t)) d (ending_to r e) }
{}

/// What is underneath a type that a client reaches, but for structs and interfaces, is on the new side the image of what it is on
/// the old one, and the client reaches the types in it.
pub fn kept_levels()
    ensures { (E F : Env) (r : Naming) (pairs : List TypePair) (std : TypeName → Bool) (is_open : Sel → Bool) → Keeps E F r pairs std is_open → (t : Term) (l : Layer) → IsReached pairs std is_open t → is_structured l ≡ false → under E.table t ≡ l
        → (under F.table (image r same_sels t) ≡ image_of_layer r same_sels l) × ((u : Term) → HasItem (parts l) u → IsReached pairs std is_open u) }
{}

/// A type form of a client that stands for a type on the old side, and meets what it is asked once all is had, stands on the new side
/// for the image, and the client reaches the type; where the constants that tell lengths of arrays are kept.
pub fn kept_type_forms()
    ensures { (E F G : Env) (r : Naming) (pairs : List TypePair) (std : TypeName → Bool) (is_open : Sel → Bool) → Keeps E F r pairs std is_open → Grows E G → G.profile ≡ true
        → ((e : Expr) (c : ConstTerm) (v : Value) → Has E e (constant_of c v) → Meets G (expression e) → Has F e (constant_of (const_to r c) v))
        → (t : Typ) (u : Term) → OfType E t u → Meets G (type t) → OfType F t (image r same_sels u) × IsReached pairs std is_open u }
{}

/// What is known of an operand is known of what it is on the new side: its type or kind, and that it is within bounds.
pub fn followed_operands()
    ensures typed { (r : Naming) (pairs : List TypePair) (std : TypeName → Bool) (is_open : Sel → Bool) (o p : Operand) (t : Term) → After r pairs std is_open o p → IsTyped o t → IsTyped p (image r same_sels t) × IsReached pairs std is_open t }
    ensures untyped { (r : Naming) (pairs : List TypePair) (std : TypeName → Bool) (is_open : Sel → Bool) (o p : Operand) (k : Untyped) → After r pairs std is_open o p → IsUntyped o k → IsUntyped p k }
    ensures within { (r : Naming) (pairs : List TypePair) (std : TypeName → Bool) (is_open : Sel → Bool) (o p : Operand) → After r pairs std is_open o p → ShapeWithin o.shape → ShapeWithin p.shape }
    ensures kind { (E F : Env) (r : Naming) (pairs : List TypePair) (std : TypeName → Bool) (is_open : Sel → Bool) → Keeps E F r pairs std is_open → (c : ConstTerm) (k : Kind) → ConstReached pairs std is_open c → HasKind E c k → HasKind F (const_to r c) k }
{}

/// What a selector that a client may write finds from a type that it reaches, it finds on the new side from the image: the image,
/// through a pointer where it was, and of a type that the client reaches.
pub fn found_endings()
    ensures { (E F : Env) (r : Naming) (pairs : List TypePair) (std : TypeName → Bool) (is_open : Sel → Bool) → Keeps E F r pairs std is_open → (t : Term) → IsReached pairs std is_open t
        → (s : Sel) → IsClientSel s → (IsBlank s → ⊥) → (b through : Bool) (depth : ℕ) (g : Target) → IsOnly E.table s (at_spot b t) depth (end_at through g)
        → (found : ℕ) × (e : Ending) × IsOnly F.table s (at_spot b (image r same_sels t)) found e × IsKeptEnding r (end_at through g) e × TargetReached pairs std is_open g }
{}

/// What a selector that a client may write finds in a type that it reaches, with all that was searched, it finds in the image; and a
/// method that can be called there, of an open selector or of one of the client's package, can be called.
pub fn kept_found()
    ensures found { (E F : Env) (r : Naming) (pairs : List TypePair) (std : TypeName → Bool) (is_open : Sel → Bool) → Keeps E F r pairs std is_open → (t : Term) → IsReached pairs std is_open t
        → (s : Sel) → IsClientSel s → (IsBlank s → ⊥) → (through : Bool) (g : Target) → Found E s t (end_at through g)
        → (e : Ending) × Found F s (image r same_sels t) e × IsKeptEnding r (end_at through g) e × TargetReached pairs std is_open g }
    ensures method { (E F : Env) (r : Naming) (pairs : List TypePair) (std : TypeName → Bool) (is_open : Sel → Bool) → Keeps E F r pairs std is_open → (addressable : Bool) (t : Term) → IsReached pairs std is_open t
        → (s : Sel) → (is_open s ≡ true) ⊎ (s.«package» ≡ client_path) → (g : Signature) → HasMethod E addressable t s g
        → HasMethod F addressable (image r same_sels t) s (image_of_signature r same_sels g) × IsReached pairs std is_open (function_type g) }
{}

/// The relations of the types that a client reaches are kept: a comparable one stays so, with the entries of the types to which paths lead,
/// one that implements an interface implements the image, and one that is assignable or convertible to another stays so; where an operand
/// may be used as a value of a type, it may be used as one of the image, and where two match, they match.
pub fn kept_relations()
    ensures comparable { (E F : Env) (r : Naming) (pairs : List TypePair) (std : TypeName → Bool) (is_open : Sel → Bool) → Keeps E F r pairs std is_open → (t : Term) → IsReached pairs std is_open t → Comparable E.table t → Comparable F.table (image r same_sels t) }
    ensures entered { (E F : Env) (r : Naming) (pairs : List TypePair) (std : TypeName → Bool) (is_open : Sel → Bool) → Keeps E F r pairs std is_open → (t : Term) → IsReached pairs std is_open t → Entered E t → Entered F (image r same_sels t) }
    ensures compares { (E F : Env) (r : Naming) (pairs : List TypePair) (std : TypeName → Bool) (is_open : Sel → Bool) → Keeps E F r pairs std is_open → (t : Term) → IsReached pairs std is_open t → Compares E t → Compares F (image r same_sels t) }
    ensures implements { (E F : Env) (r : Naming) (pairs : List TypePair) (std : TypeName → Bool) (is_open : Sel → Bool) → Keeps E F r pairs std is_open → (t interface : Term) → IsReached pairs std is_open t → IsReached pairs std is_open interface → Implements E t interface → Implements F (image r same_sels t) (image r same_sels interface) }
    ensures assignable { (E F : Env) (r : Naming) (pairs : List TypePair) (std : TypeName → Bool) (is_open : Sel → Bool) → Keeps E F r pairs std is_open → (from to : Term) → IsReached pairs std is_open from → IsReached pairs std is_open to → Assignable E from to → Assignable F (image r same_sels from) (image r same_sels to) }
    ensures convertible { (E F : Env) (r : Naming) (pairs : List TypePair) (std : TypeName → Bool) (is_open : Sel → Bool) → Keeps E F r pairs std is_open → (from to : Term) → IsReached pairs std is_open from → IsReached pairs std is_open to → Convertible E from to → Convertible F (image r same_sels from) (image r same_sels to) }
    ensures usable { (E F : Env) (r : Naming) (pairs : List TypePair) (std : TypeName → Bool) (is_open : Sel → Bool) → Keeps E F r pairs std is_open → (o p : Operand) (t : Term) → After r pairs std is_open o p → IsReached pairs std is_open t → UsableAs E o t → UsableAs F p (image r same_sels t) }
    ensures matching { (E F : Env) (r : Naming) (pairs : List TypePair) (std : TypeName → Bool) (is_open : Sel → Bool) → Keeps E F r pairs std is_open → (left right new_left new_right : Operand) (c : ConstTerm) → After r pairs std is_open left new_left → After r pairs std is_open right new_right → Match E left right c
        → Match F new_left new_right (const_to r c) × ConstReached pairs std is_open c }
{}
