//! Statements, written as trees. Each begins with a blank, and has its offset behind its word.
use crate::file::{push_consts, push_vars};
use crate::tree::{
    product_word, push_expr, push_exprs, push_name, push_names, push_type, push_word, sum_word,
};
use go_base::boxed::Box;
use go_base::list::List;
use go_base::operator::{AssignOperator, StepOperator};
use go_syntax::expression::Expr;
use go_syntax::name::Name;
use go_syntax::statement::{Case, SelectCase, Stmt, StmtKind, TypeCase};
use go_syntax::types::Type;
use std::alloc::{AllocError, Global};

fn kind_word(kind: &StmtKind) -> &'static str {
    match kind {
        StmtKind::Empty => "empty",
        StmtKind::Expr(_) => "expression",
        StmtKind::Send(_, _) => "send",
        StmtKind::Step(_, _) => "step",
        StmtKind::Assign(_, _) => "assign",
        StmtKind::AssignOp(_, _, _) => "operate",
        StmtKind::Define(_, _) => "define",
        StmtKind::Const(_) | StmtKind::Var(_) => "declare",
        StmtKind::Labeled(_, _) => "labeled",
        StmtKind::Go(_) => "go",
        StmtKind::Defer(_) => "defer",
        StmtKind::Return(_) => "return",
        StmtKind::Break(_) => "break",
        StmtKind::Continue(_) => "continue",
        StmtKind::Goto(_) => "goto",
        StmtKind::Fallthrough => "fallthrough",
        StmtKind::Block(_) => "block",
        StmtKind::If(_, _, _, _) => "if",
        StmtKind::Switch(_, _, _) => "switch",
        StmtKind::TypeSwitch(_, _, _, _) => "type-switch",
        StmtKind::Select(_) => "select",
        StmtKind::For(_, _, _, _) => "for",
        StmtKind::While(_, _) => "while",
        StmtKind::Range(_, _) => "range",
        StmtKind::RangeAssign(_, _, _) => "range-assign",
        StmtKind::RangeDefine(_, _, _) => "range-define",
    }
}

fn push_list(
    alloc: Global,
    out: &mut Vec<u8>,
    word: &str,
    exprs: &[Expr],
) -> Result<(), AllocError> {
    push_word(out, word)?;
    push_exprs(alloc, out, exprs)?;
    push_word(out, ")")
}

fn push_label(alloc: Global, out: &mut Vec<u8>, label: &Option<Name>) -> Result<(), AllocError> {
    match label {
        Some(name) => push_name(alloc, out, name),
        None => push_word(out, " -"),
    }
}

fn push_optional(alloc: Global, out: &mut Vec<u8>, expr: &Option<Expr>) -> Result<(), AllocError> {
    match expr {
        Some(expr) => push_expr(alloc, out, expr),
        None => push_word(out, " -"),
    }
}

fn push_values(
    alloc: Global,
    out: &mut Vec<u8>,
    values: &Option<List<Expr>>,
) -> Result<(), AllocError> {
    match values {
        Some(values) => push_list(alloc, out, " (case (values", values.items()),
        None => push_word(out, " (default"),
    }
}

fn push_types(
    alloc: Global,
    out: &mut Vec<u8>,
    types: &Option<List<Type>>,
) -> Result<(), AllocError> {
    match types {
        Some(types) => {
            push_word(out, " (case (types")?;
            for type_ in types.items() {
                push_type(alloc, out, type_)?;
            }
            push_word(out, ")")
        }
        None => push_word(out, " (default"),
    }
}

fn step_word(op: StepOperator) -> &'static str {
    match op {
        StepOperator::Increment => " ++",
        StepOperator::Decrement => " --",
    }
}

fn assign_word(op: AssignOperator) -> &'static str {
    match op {
        AssignOperator::Sum(op) => sum_word(op),
        AssignOperator::Product(op) => product_word(op),
    }
}

fn push_simple(alloc: Global, out: &mut Vec<u8>, kind: &StmtKind) -> Result<(), AllocError> {
    match kind {
        StmtKind::Expr(expr) | StmtKind::Go(expr) | StmtKind::Defer(expr) => {
            push_expr(alloc, out, expr)
        }
        StmtKind::Send(channel, value) => {
            push_expr(alloc, out, channel)?;
            push_expr(alloc, out, value)
        }
        StmtKind::Step(expr, op) => {
            push_word(out, step_word(*op))?;
            push_expr(alloc, out, expr)
        }
        StmtKind::Assign(targets, values) => {
            push_list(alloc, out, " (targets", targets.items())?;
            push_list(alloc, out, " (values", values.items())
        }
        StmtKind::AssignOp(target, op, value) => {
            push_word(out, assign_word(*op))?;
            push_expr(alloc, out, target)?;
            push_expr(alloc, out, value)
        }
        StmtKind::Define(names, values) => {
            push_names(alloc, out, names.items())?;
            push_list(alloc, out, " (values", values.items())
        }
        StmtKind::Const(specs) => push_consts(alloc, out, specs.items()),
        StmtKind::Var(specs) => push_vars(alloc, out, specs.items()),
        StmtKind::Return(values) => push_exprs(alloc, out, values.items()),
        StmtKind::Break(label) | StmtKind::Continue(label) => push_label(alloc, out, label),
        StmtKind::Goto(label) => push_name(alloc, out, label),
        _ => Ok(()),
    }
}

// What stands before the blocks of a statement.
fn push_range(alloc: Global, out: &mut Vec<u8>, kind: &StmtKind) -> Result<(), AllocError> {
    match kind {
        StmtKind::While(condition, _) => push_optional(alloc, out, condition),
        StmtKind::Range(over, _) => push_expr(alloc, out, over),
        StmtKind::RangeAssign(targets, over, _) => {
            push_list(alloc, out, " (targets", targets.items())?;
            push_expr(alloc, out, over)
        }
        StmtKind::RangeDefine(names, over, _) => {
            push_names(alloc, out, names.items())?;
            push_expr(alloc, out, over)
        }
        _ => Ok(()),
    }
}

/// Writes a statement.
#[cycle(statement)]
fn push_stmt(alloc: Global, out: &mut Vec<u8>, stmt: &Stmt) -> Result<(), AllocError> {
    let word = format!(in alloc; " ({}@{}", kind_word(&stmt.kind), stmt.start)?;
    push_word(out, word.as_str())?;
    push_kind(alloc, out, &stmt.kind)?;
    push_word(out, ")")
}

#[cycle(statement)]
fn push_optional_stmt(
    alloc: Global,
    out: &mut Vec<u8>,
    stmt: &Option<Box<Stmt>>,
) -> Result<(), AllocError> {
    match stmt {
        Some(stmt) => push_stmt(alloc, out, stmt.value()),
        None => push_word(out, " -"),
    }
}

/// Writes statements, and what closes the part.
#[cycle(statement)]
pub fn push_stmts(alloc: Global, out: &mut Vec<u8>, stmts: &[Stmt]) -> Result<(), AllocError> {
    for stmt in stmts {
        push_stmt(alloc, out, stmt)?;
    }
    push_word(out, ")")
}

// The block of a statement that has others.
#[cycle(statement)]
fn push_block(alloc: Global, out: &mut Vec<u8>, stmts: &[Stmt]) -> Result<(), AllocError> {
    push_word(out, " (do")?;
    push_stmts(alloc, out, stmts)
}

#[cycle(statement)]
fn push_kind(alloc: Global, out: &mut Vec<u8>, kind: &StmtKind) -> Result<(), AllocError> {
    match kind {
        StmtKind::Labeled(label, stmt) => {
            push_name(alloc, out, label)?;
            push_stmt(alloc, out, stmt.value())
        }
        StmtKind::Block(stmts) => push_block(alloc, out, stmts.items()),
        StmtKind::If(init, condition, stmts, other) => {
            push_optional_stmt(alloc, out, init)?;
            push_expr(alloc, out, condition)?;
            push_block(alloc, out, stmts.items())?;
            push_optional_stmt(alloc, out, other)
        }
        StmtKind::For(init, condition, post, stmts) => {
            push_optional_stmt(alloc, out, init)?;
            push_optional(alloc, out, condition)?;
            push_optional_stmt(alloc, out, post)?;
            push_block(alloc, out, stmts.items())
        }
        StmtKind::While(_, stmts)
        | StmtKind::Range(_, stmts)
        | StmtKind::RangeAssign(_, _, stmts)
        | StmtKind::RangeDefine(_, _, stmts) => {
            push_range(alloc, out, kind)?;
            push_block(alloc, out, stmts.items())
        }
        StmtKind::Switch(init, tag, cases) => {
            push_optional_stmt(alloc, out, init)?;
            push_optional(alloc, out, tag)?;
            push_cases(alloc, out, cases.items())
        }
        StmtKind::TypeSwitch(init, name, operand, cases) => {
            push_optional_stmt(alloc, out, init)?;
            push_label(alloc, out, name)?;
            push_expr(alloc, out, operand)?;
            push_type_cases(alloc, out, cases.items())
        }
        StmtKind::Select(cases) => push_select_cases(alloc, out, cases.items()),
        _ => push_simple(alloc, out, kind),
    }
}

#[cycle(statement)]
fn push_cases(alloc: Global, out: &mut Vec<u8>, cases: &[Case]) -> Result<(), AllocError> {
    for case in cases {
        push_values(alloc, out, &case.values)?;
        push_stmts(alloc, out, case.body.items())?;
    }
    Ok(())
}

#[cycle(statement)]
fn push_type_cases(alloc: Global, out: &mut Vec<u8>, cases: &[TypeCase]) -> Result<(), AllocError> {
    for case in cases {
        push_types(alloc, out, &case.types)?;
        push_stmts(alloc, out, case.body.items())?;
    }
    Ok(())
}

#[cycle(statement)]
fn push_select_cases(
    alloc: Global,
    out: &mut Vec<u8>,
    cases: &[SelectCase],
) -> Result<(), AllocError> {
    for case in cases {
        match &case.communication {
            Some(stmt) => {
                push_word(out, " (case")?;
                push_stmt(alloc, out, stmt.value())?;
            }
            None => push_word(out, " (default")?,
        }
        push_stmts(alloc, out, case.body.items())?;
    }
    Ok(())
}
