//! Statements, which stand in the bodies of a client's functions.
use crate::declaration::{ConstSpec, VarSpec};
use crate::expression::Expr;
use crate::name::Name;
use crate::types::Type;
use go_base::boxed::Box;
use go_base::list::List;
use go_base::operator::{AssignOperator, StepOperator};

/// The body of a function with its statements, and the blocks of the function literals in it, in the order of
/// their places.
#[derive(Drop)]
pub struct ParsedBody {
    pub block: List<Stmt>,
    pub literals: List<LiteralBlock>,
}

/// The statements of a function literal, and the byte offset of its `{`.
pub struct LiteralBlock {
    pub start: u32,
    pub block: List<Stmt>,
}

impl Drop for LiteralBlock {
    fn drop(self) {
        let LiteralBlock { start: _, block: _ } = self;
    }
}

/// A statement, and the byte offset at which it starts.
#[cycle(statements)]
#[derive(Drop)]
pub struct Stmt {
    pub start: u32,
    pub kind: StmtKind,
}

/// What a statement is. The variants from `Expr` to `Define` are the simple statements, and a
/// statement in a control clause is one of these.
#[cycle(statements)]
#[derive(Drop)]
pub enum StmtKind {
    Empty,
    Expr(Expr),
    Send(Expr, Expr),
    Step(Expr, StepOperator),
    Assign(List<Expr>, List<Expr>),
    AssignOp(Expr, AssignOperator, Expr),
    Define(List<Name>, List<Expr>),
    Const(List<ConstSpec>),
    Var(List<VarSpec>),
    Labeled(Name, Box<Stmt>),
    Go(Expr),
    Defer(Expr),
    Return(List<Expr>),
    Break(Option<Name>),
    Continue(Option<Name>),
    Goto(Name),
    Fallthrough,
    Block(List<Stmt>),
    /// What follows `else` is an `If` or a `Block`.
    If(Option<Box<Stmt>>, Expr, List<Stmt>, Option<Box<Stmt>>),
    Switch(Option<Box<Stmt>>, Option<Expr>, List<Case>),
    /// The name that the clauses bind, and the operand before `.(type)`.
    TypeSwitch(Option<Box<Stmt>>, Option<Name>, Expr, List<TypeCase>),
    Select(List<SelectCase>),
    For(Option<Box<Stmt>>, Option<Expr>, Option<Box<Stmt>>, List<Stmt>),
    /// A `for` with a condition alone, or with none.
    While(Option<Expr>, List<Stmt>),
    Range(Expr, List<Stmt>),
    RangeAssign(List<Expr>, Expr, List<Stmt>),
    RangeDefine(List<Name>, Expr, List<Stmt>),
}

/// A clause of a `switch`: without values it is `default`.
#[cycle(statements)]
#[derive(Drop)]
pub struct Case {
    pub values: Option<List<Expr>>,
    pub body: List<Stmt>,
}

/// A clause of a type switch: without types it is `default`.
#[cycle(statements)]
#[derive(Drop)]
pub struct TypeCase {
    pub types: Option<List<Type>>,
    pub body: List<Stmt>,
}

/// A clause of a `select`: without communication it is `default`.
#[cycle(statements)]
#[derive(Drop)]
pub struct SelectCase {
    pub communication: Option<Box<Stmt>>,
    pub body: List<Stmt>,
}
