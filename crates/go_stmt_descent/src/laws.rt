//! The laws of the readers of statements and blocks.
ghost use Rattle.std.specs.Prelude.{◌≡◌, ℕ, List, [], Some};
ghost use Rattle.go_stmt_descent.specs.Statements.{statements};
ghost use Rattle.go_syntax.specs.declared.statement.ParsedBody.{ParsedBody};
ghost use Rattle.go_syntax.specs.declared.statement.Stmt.{Stmt};
ghost use Rattle.go_syntax.specs.grammar.ParsedBodies.{IsParsedBody};
ghost use Rattle.go_syntax.specs.grammar.SourceFiles.{Skips};
ghost use Rattle.go_syntax.specs.grammar.Statements.{IsBlock, IsStmt};
ghost use Rattle.go_syntax.specs.grammar.Symbols.{Ends};
ghost use Rattle.go_syntax.specs.grammar.Terminals.{Terminal};

/// The statement that is found is one that the grammar derives, and one that it derives is found where it ends: before a
/// semicolon or a closing bracket.
pub fn stmts()
    ensures sound { (h : ℕ) (ts : List Terminal) (x : Stmt) (rest : List Terminal) → (statements h).stmt ts ≡ Some (x, rest) → IsStmt Skips h ts x rest }
    ensures complete { (h : ℕ) (ts : List Terminal) (x : Stmt) (rest more : List Terminal) → IsStmt Skips h ts x rest → Ends rest more → (statements h).stmt ts ≡ Some (x, rest) }
{}

/// The block that is found is one that the grammar derives, each block that it derives is found, and so at most one begins here.
pub fn blocks()
    ensures sound { (h : ℕ) (ts : List Terminal) (ss : List Stmt) (rest : List Terminal) → (statements h).block ts ≡ Some (ss, rest) → IsBlock Skips h ts ss rest }
    ensures complete { (h : ℕ) (ts : List Terminal) (ss : List Stmt) (rest : List Terminal) → IsBlock Skips h ts ss rest → (statements h).block ts ≡ Some (ss, rest) }
    ensures one { (h : ℕ) (ts : List Terminal) (xs ys : List Stmt) (u v : List Terminal) → IsBlock Skips h ts xs u → IsBlock Skips h ts ys v → (xs ≡ ys) × (u ≡ v) }
{}

/// The block of a parsed body is one that is derived with the bodies of function literals skipped, and so any two parsed
/// bodies of the same tokens have the same block.
pub fn parsed_bodies()
    ensures skipped { (ts : List Terminal) (p : ParsedBody) → IsParsedBody ts p → IsBlock Skips 256 ts p.block [] }
    ensures one_block { (ts : List Terminal) (p q : ParsedBody) → IsParsedBody ts p → IsParsedBody ts q → p.block ≡ q.block }
{}
