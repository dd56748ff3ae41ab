//! The laws of the readers: what one finds is what the grammar derives, where the bodies of function literals are skipped.
ghost use Rattle.std.specs.Prelude.{◌≡◌, ℕ, suc, Bool, List, Some};
ghost use Rattle.go_descent.specs.Levels.{levels};
ghost use Rattle.go_simple_stmts.specs.Follow.{OverSimple};
ghost use Rattle.go_simple_stmts.specs.SimpleStatements as rules;
ghost use Rattle.go_syntax.specs.declared.statement.StmtKind.{StmtKind};
ghost use Rattle.go_syntax.specs.grammar.SourceFiles.{Skips};
ghost use Rattle.go_syntax.specs.grammar.Statements.{IsSimple};
ghost use Rattle.go_syntax.specs.grammar.Terminals.{Terminal};

/// The simple statement that is found is one that the grammar derives, and one that it derives is found where nothing
/// follows with which a longer one would go on.
pub fn simple_statements()
    ensures sound { (b : Bool) (h : ℕ) (ts : List Terminal) (k : StmtKind) (rest : List Terminal) → rules.simple b (levels h) ts ≡ Some (k, rest) → IsSimple Skips b (suc h) ts k rest }
    ensures complete { (b : Bool) (h : ℕ) (ts : List Terminal) (k : StmtKind) (rest : List Terminal) → IsSimple Skips b (suc h) ts k rest → OverSimple b rest → rules.simple b (levels h) ts ≡ Some (k, rest) }
{}
