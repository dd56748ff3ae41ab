//! What stands in a typed tree is typed, but for what no rule types: keys of struct literals, and names of imports.
ghost use Rattle.std.specs.Prelude.{◌≡◌, ◌⊎◌, ◌++◌, ◌∷◌, [], List};
ghost use Rattle.go_rules.specs.Environments.{Env};
ghost use Rattle.go_rules.specs.Expressions.{HasForm, chain};
ghost use Rattle.go_rules.specs.Nodes.{Node, Stands};
ghost use Rattle.go_rules.specs.declared.operand.Operand.{Operand};
ghost use Rattle.go_syntax.specs.declared.expression.Expr.{Expr, Expr-F, out-Expr};
ghost use Rattle.go_syntax.specs.declared.expression.Post.{Post};
ghost use Rattle.go_syntax.specs.declared.name.Name.{Name};
ghost use Rattle.go_typed_parts.specs.TypedNodes.{IsTypedNode};

/// Each part of a typed tree is typed, or is a key of a struct literal or the name of an import. A chain of what follows an
/// operand has an operand up to each of its parts, but for the name of an import in front of the first one.
pub fn typed_trees()
    ensures within { (E : Env) (a b : Node) → IsTypedNode E a → Stands a b → IsTypedNode E b }
    ensures chain { (E : Env) (e x : Expr) (o : Operand) (before : List Post) (p : Post) (after : List Post) → HasForm E (out-Expr e) o → out-Expr e ≡ Expr-F.Primary x (before ++ p ∷ after)
        → ((q : Operand) × HasForm E (chain x before) q) ⊎ ((before ≡ []) × ((n : Name) × (out-Expr x ≡ Expr-F.Name n))) }
{}
