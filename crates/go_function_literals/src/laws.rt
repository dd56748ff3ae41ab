//! How the statements of a body are joined with the blocks of the function literals in them.
ghost use Rattle.std.specs.Prelude.{ℕ, List};
ghost use Rattle.go_function_literals.specs.Sites.{Collected};
ghost use Rattle.go_function_literals.specs.StatementPlaces.{stmts_places};
ghost use Rattle.go_syntax.specs.declared.statement.LiteralBlock.{LiteralBlock};
ghost use Rattle.go_syntax.specs.declared.statement.Stmt.{Stmt};
ghost use Rattle.go_syntax.specs.grammar.ParsedBodies.{LiteralBodies};
ghost use Rattle.go_syntax.specs.grammar.SourceFiles.{Skips};
ghost use Rattle.go_syntax.specs.grammar.Statements.{IsStmts};
ghost use Rattle.go_syntax.specs.grammar.Terminals.{Terminal};
ghost use Rattle.go_syntax.specs.Literals.{block_literals};

/// Statements that are derived with skipped bodies are derived with the blocks of a list where the list has one for each function
/// literal in them, at the height that is left at its place; and statements that are derived with blocks have these.
pub fn bodies()
    ensures skipped { (literals : List LiteralBlock) (n h : ℕ) (ts : List Terminal) (ss : List Stmt) (rest : List Terminal) → IsStmts Skips h ts ss rest → Collected Skips (LiteralBodies literals n) h ts rest (stmts_places ss h) (block_literals ss) (IsStmts (LiteralBodies literals n) h ts ss rest) }
    ensures parsed { (literals : List LiteralBlock) (n h : ℕ) (ts : List Terminal) (ss : List Stmt) (rest : List Terminal) → IsStmts (LiteralBodies literals n) h ts ss rest → Collected (LiteralBodies literals n) Skips h ts rest (stmts_places ss h) (block_literals ss) (IsStmts Skips h ts ss rest) }
{}
