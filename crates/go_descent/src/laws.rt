//! The laws of the readers: what one finds is what the grammar derives, where the bodies of function literals are
//! skipped.
ghost use Rattle.std.specs.Prelude.{◌≡◌, ℕ, suc, Bool, true, false, List, Some};
ghost use Rattle.go_syntax.specs.declared.body.BodyRange.{BodyRange};
ghost use Rattle.go_syntax.specs.declared.expression.Expr.{Expr};
ghost use Rattle.go_syntax.specs.declared.statement.LiteralBlock.{LiteralBlock};
ghost use Rattle.go_syntax.specs.declared.types.Signature.{Signature};
ghost use Rattle.go_syntax.specs.declared.types.«Type».{«Type»};
ghost use Rattle.go_syntax.specs.grammar.Brackets.{IsSkipped};
ghost use Rattle.go_syntax.specs.grammar.Grammar.{IsExpr, IsType, IsSignature};
ghost use Rattle.go_syntax.specs.grammar.ParsedBodies.{LiteralBodies};
ghost use Rattle.go_syntax.specs.grammar.SourceFiles.{Skips};
ghost use Rattle.go_syntax.specs.grammar.Terminals.{Terminal};
ghost use Rattle.go_cursor.specs.Skipping.{skipped_body};
ghost use Rattle.go_descent.specs.Follow.{OverExpr};
ghost use Rattle.go_descent.specs.Levels.{levels};
ghost use Rattle.go_descent.specs.Rules.{expr_of};

/// The expression that is found is one that the grammar derives, and one that it derives is found where nothing
/// follows with which a longer one would go on. An expression of a lower height may have a composite literal that
/// begins with a type's name.
pub fn expressions()
    ensures sound { (b : Bool) (h : ℕ) (ts : List Terminal) (x : Expr) (rest : List Terminal) → expr_of b (levels h) ts ≡ Some (x, rest) → IsExpr Skips b h ts x rest }
    ensures complete { (b : Bool) (h : ℕ) (ts : List Terminal) (x : Expr) (rest : List Terminal) → IsExpr Skips b h ts x rest → OverExpr b rest → expr_of b (levels h) ts ≡ Some (x, rest) }
    ensures lower { (h : ℕ) (ts : List Terminal) → (levels (suc h)).expr ts ≡ expr_of true (levels h) ts }
{}

/// The type that is found below a height is one that the grammar derives below it, and each of these is found.
pub fn types()
    ensures sound { (h : ℕ) (ts : List Terminal) (t : «Type») (rest : List Terminal) → (levels (suc h)).typ ts ≡ Some (t, rest) → IsType Skips h ts t rest }
    ensures complete { (h : ℕ) (ts : List Terminal) (t : «Type») (rest : List Terminal) → IsType Skips h ts t rest → (levels (suc h)).typ ts ≡ Some (t, rest) }
{}

/// The same of parameters and a result.
pub fn signatures()
    ensures sound { (h : ℕ) (ts : List Terminal) (s : Signature) (rest : List Terminal) → (levels (suc h)).signature ts ≡ Some (s, rest) → IsSignature Skips h ts s rest }
    ensures complete { (h : ℕ) (ts : List Terminal) (s : Signature) (rest : List Terminal) → IsSignature Skips h ts s rest → (levels (suc h)).signature ts ≡ Some (s, rest) }
{}

/// The body that is skipped is the balanced run in braces that begins here, and it is found wherever there is one. A
/// body whose statements are derived is such a run too.
pub fn skipped_bodies()
    ensures sound { (ts : List Terminal) (b : BodyRange) (rest : List Terminal) → skipped_body ts ≡ Some (b, rest) → IsSkipped ts b rest }
    ensures complete { (ts : List Terminal) (b : BodyRange) (rest : List Terminal) → IsSkipped ts b rest → skipped_body ts ≡ Some (b, rest) }
    ensures parsed { (literals : List LiteralBlock) (n h : ℕ) (ts : List Terminal) (b : BodyRange) (rest : List Terminal) → LiteralBodies literals n h ts b rest → IsSkipped ts b rest }
{}
