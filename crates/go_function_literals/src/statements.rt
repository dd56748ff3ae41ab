//! The function literals of statements.
ghost use Rattle.std.specs.Prelude.{◌≡◌, ◌++◌, IfOk, OnOk};
ghost use Rattle.go_function_literals.specs.StatementPlaces as places;
ghost use Rattle.go_function_literals.specs.StatementPlaces.{case_places, cases_places, kind_places, select_case_places, select_cases_places, stmt_places, stmts_places, type_case_places, type_cases_places};

use crate::expressions::{add_consts, add_expr, add_exprs, add_optional_expr, add_types, add_vars};
use crate::place::{LiteralPlace, below};
use go_base::boxed::Box;
use go_base::list::List;
use go_base::memory::NoMemory;
use go_syntax::expression::Expr;
use go_syntax::statement::{Case, SelectCase, Stmt, StmtKind, TypeCase};
use go_syntax::types::Type;
use std::alloc::Global;

fn add_optional_exprs(
    found: &mut List<LiteralPlace>,
    exprs: &Option<List<Expr>>,
    height: usize,
) -> Result<(), NoMemory>
    ensures { OnOk result (found.new ≡ found.old ++ places.optional_exprs exprs.now height) }
{
    match exprs {
        None => Ok(()),
        Some(exprs) => add_exprs(found, exprs.items(), height),
    }
}

fn add_optional_types(
    found: &mut List<LiteralPlace>,
    types: &Option<List<Type>>,
    height: usize,
) -> Result<(), NoMemory>
    ensures { OnOk result (found.new ≡ found.old ++ places.optional_types types.now height) }
{
    match types {
        None => Ok(()),
        Some(types) => add_types(found, types.items(), height),
    }
}

#[cycle(statements)]
fn add_kind(found: &mut List<LiteralPlace>, kind: &StmtKind, height: usize) -> Result<(), NoMemory>
    ensures { OnOk result (found.new ≡ found.old ++ kind_places kind.now height) }
{
    let inside = below(height);
    let in_block = below(inside);
    // Arms of equal code stand apart: the prover gives up on one with several patterns.
    match kind {
        StmtKind::Empty => Ok(()),
        StmtKind::Expr(expr) => add_expr(found, expr, inside),
        StmtKind::Send(channel, value) => {
            add_expr(found, channel, inside)?;
            add_expr(found, value, inside)
        }
        StmtKind::Step(side, _) => add_expr(found, side, inside),
        StmtKind::Assign(sides, values) => {
            add_exprs(found, sides.items(), inside)?;
            add_exprs(found, values.items(), inside)
        }
        StmtKind::AssignOp(side, _, value) => {
            add_expr(found, side, inside)?;
            add_expr(found, value, inside)
        }
        StmtKind::Define(_, values) => add_exprs(found, values.items(), inside),
        StmtKind::Const(specs) => add_consts(found, specs.items(), inside),
        StmtKind::Var(specs) => add_vars(found, specs.items(), inside),
        StmtKind::Labeled(_, stmt) => add_stmt(found, stmt.value(), inside),
        StmtKind::Go(call) => add_expr(found, call, inside),
        StmtKind::Defer(call) => add_expr(found, call, inside),
        StmtKind::Return(values) => add_exprs(found, values.items(), inside),
        StmtKind::Break(_) => Ok(()),
        StmtKind::Continue(_) => Ok(()),
        StmtKind::Goto(_) => Ok(()),
        StmtKind::Fallthrough => Ok(()),
        StmtKind::Block(block) => add_stmts(found, block.items(), inside),
        StmtKind::If(init, condition, block, other) => {
            add_optional_stmt(found, init, inside)?;
            add_expr(found, condition, inside)?;
            add_stmts(found, block.items(), in_block)?;
            add_optional_stmt(found, other, inside)
        }
        StmtKind::Switch(init, tag, cases) => {
            add_optional_stmt(found, init, inside)?;
            add_optional_expr(found, tag, inside)?;
            add_cases(found, cases.items(), inside)
        }
        StmtKind::TypeSwitch(init, _, operand, cases) => {
            add_optional_stmt(found, init, inside)?;
            add_expr(found, operand, inside)?;
            add_type_cases(found, cases.items(), inside)
        }
        StmtKind::Select(cases) => add_select_cases(found, cases.items(), inside),
        StmtKind::For(init, condition, post, block) => {
            add_optional_stmt(found, init, inside)?;
            add_optional_expr(found, condition, inside)?;
            add_optional_stmt(found, post, inside)?;
            add_stmts(found, block.items(), in_block)
        }
        StmtKind::While(condition, block) => {
            add_optional_expr(found, condition, inside)?;
            add_stmts(found, block.items(), in_block)
        }
        StmtKind::Range(operand, block) => {
            add_expr(found, operand, inside)?;
            add_stmts(found, block.items(), in_block)
        }
        StmtKind::RangeAssign(sides, operand, block) => {
            add_exprs(found, sides.items(), inside)?;
            add_expr(found, operand, inside)?;
            add_stmts(found, block.items(), in_block)
        }
        StmtKind::RangeDefine(_, operand, block) => {
            add_expr(found, operand, inside)?;
            add_stmts(found, block.items(), in_block)
        }
    }
}

#[cycle(statements)]
fn add_stmt(found: &mut List<LiteralPlace>, stmt: &Stmt, height: usize) -> Result<(), NoMemory>
    ensures { OnOk result (found.new ≡ found.old ++ stmt_places stmt.now height) }
{
    add_kind(found, &stmt.kind, height)
}

#[cycle(statements)]
fn add_optional_stmt(
    found: &mut List<LiteralPlace>,
    stmt: &Option<Box<Stmt>>,
    height: usize,
) -> Result<(), NoMemory>
    ensures { OnOk result (found.new ≡ found.old ++ places.optional_stmt stmt.now height) }
{
    match stmt {
        None => Ok(()),
        Some(stmt) => add_stmt(found, stmt.value(), height),
    }
}

#[cycle(statements)]
fn add_stmts(found: &mut List<LiteralPlace>, stmts: &[Stmt], height: usize) -> Result<(), NoMemory>
    ensures { OnOk result (found.new ≡ found.old ++ stmts_places stmts.now height) }
{
    for stmt in stmts {
        add_stmt(found, stmt, height)?;
    }
    Ok(())
}

#[cycle(statements)]
fn add_case(found: &mut List<LiteralPlace>, case: &Case, height: usize) -> Result<(), NoMemory>
    ensures { OnOk result (found.new ≡ found.old ++ case_places case.now height) }
{
    add_optional_exprs(found, &case.values, height)?;
    add_stmts(found, case.body.items(), height)
}

#[cycle(statements)]
fn add_cases(found: &mut List<LiteralPlace>, cases: &[Case], height: usize) -> Result<(), NoMemory>
    ensures { OnOk result (found.new ≡ found.old ++ cases_places cases.now height) }
{
    for case in cases {
        add_case(found, case, height)?;
    }
    Ok(())
}

#[cycle(statements)]
fn add_type_case(
    found: &mut List<LiteralPlace>,
    case: &TypeCase,
    height: usize,
) -> Result<(), NoMemory>
    ensures { OnOk result (found.new ≡ found.old ++ type_case_places case.now height) }
{
    add_optional_types(found, &case.types, height)?;
    add_stmts(found, case.body.items(), height)
}

#[cycle(statements)]
fn add_type_cases(
    found: &mut List<LiteralPlace>,
    cases: &[TypeCase],
    height: usize,
) -> Result<(), NoMemory>
    ensures { OnOk result (found.new ≡ found.old ++ type_cases_places cases.now height) }
{
    for case in cases {
        add_type_case(found, case, height)?;
    }
    Ok(())
}

#[cycle(statements)]
fn add_select_case(
    found: &mut List<LiteralPlace>,
    case: &SelectCase,
    height: usize,
) -> Result<(), NoMemory>
    ensures { OnOk result (found.new ≡ found.old ++ select_case_places case.now height) }
{
    add_optional_stmt(found, &case.communication, height)?;
    add_stmts(found, case.body.items(), height)
}

#[cycle(statements)]
fn add_select_cases(
    found: &mut List<LiteralPlace>,
    cases: &[SelectCase],
    height: usize,
) -> Result<(), NoMemory>
    ensures { OnOk result (found.new ≡ found.old ++ select_cases_places cases.now height) }
{
    for case in cases {
        add_select_case(found, case, height)?;
    }
    Ok(())
}

/// The function literals of statements of this height, in order.
pub fn literals_of(
    alloc: Global,
    stmts: &[Stmt],
    height: usize,
) -> Result<List<LiteralPlace>, NoMemory>
    ensures { IfOk result (λ found. found ≡ stmts_places stmts.now height) }
{
    let mut found = List::new(alloc);
    add_stmts(&mut found, stmts, height)?;
    Ok(found)
}
