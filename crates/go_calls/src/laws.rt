//! Laws of calls. Where the arguments of a call are typed, the call is as an expression exactly what it makes of
//! their operands.
ghost use Rattle.std.specs.Prelude.{Bool, List};
ghost use Rattle.go_rules.specs.Environments.{Env};
ghost use Rattle.go_rules.specs.Expressions.{HasEach, HasPost, IsCall};
ghost use Rattle.go_rules.specs.Nodes.{PostLayer};
ghost use Rattle.go_rules.specs.declared.operand.Operand.{Operand};
ghost use Rattle.go_syntax.specs.declared.expression.Expr.{Expr};
ghost use Rattle.go_calls.specs.Calls.{Calls, IsTold};

/// A call after an operand has typed arguments, and is exactly what it makes of their operands.
pub fn call_rule()
    ensures arguments { (E : Env) (l : PostLayer) (es : List Expr) (dots : Bool) (o r : Operand) → IsCall l es dots → HasPost E o l r → (os : List Operand) × HasEach E es os }
    ensures calls { (E : Env) (l : PostLayer) (es : List Expr) (os : List Operand) (loud dots : Bool) (o r : Operand) → IsCall l es dots → HasEach E es os → IsTold E o es loud → HasPost E o l r → Calls E loud o os dots r }
    ensures rule { (E : Env) (l : PostLayer) (es : List Expr) (os : List Operand) (loud dots : Bool) (o r : Operand) → IsCall l es dots → HasEach E es os → IsTold E o es loud → Calls E loud o os dots r → HasPost E o l r }
{}
