//! Kinds of statements.
ghost use Rattle.std.specs.Prelude.{◌≡◌};
ghost use Rattle.go_flat_statements.specs.Flat.{is_flat};
ghost use Rattle.go_syntax.specs.declared.statement.StmtKind.{out-StmtKind};

use go_syntax::statement::StmtKind;

/// Whether a statement has no statement in it and declares nothing.
pub fn is_flat(kind: &StmtKind) -> bool
    ensures { result ≡ is_flat (out-StmtKind kind.now) }
{
    matches!(
        kind,
        StmtKind::Empty
            | StmtKind::Expr(_)
            | StmtKind::Send(_, _)
            | StmtKind::Step(_, _)
            | StmtKind::Assign(_, _)
            | StmtKind::AssignOp(_, _, _)
            | StmtKind::Go(_)
            | StmtKind::Defer(_)
            | StmtKind::Return(_)
            | StmtKind::Break(_)
            | StmtKind::Continue(_)
            | StmtKind::Goto(_)
            | StmtKind::Fallthrough
    )
}
