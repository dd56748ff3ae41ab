//! The law of expressions of a client in two environments, of which the new one keeps what the old one gives.
ghost use Rattle.std.specs.Prelude.{◌≡◌, List, Bool, true};
ghost use Rattle.go_model.specs.declared.types.names.Sel.{Sel};
ghost use Rattle.go_model.specs.declared.types.names.TypeName.{TypeName};
ghost use Rattle.go_model.specs.declared.types.term.Signature.{Signature};
ghost use Rattle.go_model.specs.declared.types.term.Term.{Term};
ghost use Rattle.go_rules.specs.Asks.{Meets};
ghost use Rattle.go_rules.specs.Environments.{Env};
ghost use Rattle.go_rules.specs.Expressions.{ElementFits, Has, OfSignature, OfType};
ghost use Rattle.go_rules.specs.Growth.{Grows};
ghost use Rattle.go_rules.specs.Nodes.{Node, expression, signature, type, value};
ghost use Rattle.go_rules.specs.declared.operand.Operand.{Operand};
ghost use Rattle.go_syntax.specs.declared.expression.ElementValue.{ElementValue};
ghost use Rattle.go_syntax.specs.declared.expression.Expr.{Expr};
ghost use Rattle.go_syntax.specs.declared.types.Signature.{Signature as Sig, out-Signature as out-Sig};
ghost use Rattle.go_syntax.specs.declared.types.«Type».{«Type» as Typ};
ghost use Rattle.go_type_images.specs.Images.{Naming, image, image_of_signature, same_sels};
ghost use Rattle.go_type_images.specs.Parts.{function_type};
ghost use Rattle.go_type_images.specs.declared.pair.TypePair.{TypePair};
ghost use Rattle.go_client_types.specs.Following.{After};
ghost use Rattle.go_client_types.specs.Keeping.{Keeps};
ghost use Rattle.go_client_types.specs.Reached.{IsReached};

/// An expression of a client that is an operand on the old side, and meets what it is asked once all is had, is on the new side an operand
/// that follows it; and a type form, a signature and an element of a composite literal stand there for the images. A tree that meets what it
/// is asked in an environment meets it in one that keeps it.
pub fn kept_expressions()
    ensures expression { (E F G : Env) (r : Naming) (pairs : List TypePair) (std : TypeName → Bool) (is_open : Sel → Bool) → Keeps E F r pairs std is_open → Grows E G → G.profile ≡ true
        → (e : Expr) (o : Operand) → Has E e o → Meets G (expression e) → (p : Operand) × Has F e p × After r pairs std is_open o p }
    ensures of_type { (E F G : Env) (r : Naming) (pairs : List TypePair) (std : TypeName → Bool) (is_open : Sel → Bool) → Keeps E F r pairs std is_open → Grows E G → G.profile ≡ true
        → (t : Typ) (u : Term) → OfType E t u → Meets G (type t) → OfType F t (image r same_sels u) × IsReached pairs std is_open u }
    ensures of_signature { (E F G : Env) (r : Naming) (pairs : List TypePair) (std : TypeName → Bool) (is_open : Sel → Bool) → Keeps E F r pairs std is_open → Grows E G → G.profile ≡ true
        → (g : Sig) (h : Signature) → OfSignature E (out-Sig g).parameters (out-Sig g).result h → Meets G (signature g) → OfSignature F (out-Sig g).parameters (out-Sig g).result (image_of_signature r same_sels h) × IsReached pairs std is_open (function_type h) }
    ensures element { (E F G : Env) (r : Naming) (pairs : List TypePair) (std : TypeName → Bool) (is_open : Sel → Bool) → Keeps E F r pairs std is_open → Grows E G → G.profile ≡ true
        → (t : Term) (v : ElementValue) → ElementFits E t v → IsReached pairs std is_open t → Meets G (value v) → ElementFits F (image r same_sels t) v }
    ensures meets { (E F : Env) (r : Naming) (pairs : List TypePair) (std : TypeName → Bool) (is_open : Sel → Bool) → Keeps E F r pairs std is_open → (at : Node) → Meets E at → Meets F at }
{}
