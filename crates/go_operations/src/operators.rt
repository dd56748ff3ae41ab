//! Operators between operands, one at a time.
ghost use Rattle.std.specs.Prelude.{◌≡◌, ◌<◌, ◌≤◌, ℕ, length, IfOk, IsTrue, ◌↔◌};
ghost use Rattle.std.specs.List.{slice_get};
ghost use Rattle.go_operations.specs.Chains.{Combines, operators_of};
ghost use Rattle.go_rules.specs.Expressions.{Computes, ProductComputes, product_operator, sum_operator};
ghost use Rattle.go_type_terms.specs.Answers.{env_in};
ghost use Rattle.go_operators.specs.go_usability.Answers.{Gives};

use go_base::memory::NoMemory;
use go_base::operator::{CompareOp, ProductOperator, SumOperator};
use go_model::constants::value::BinaryOp;
use go_operators::arithmetic::binary;
use go_operators::comparisons::compare;
use go_operators::go_usability::context::Context;
use go_operators::shifts::shift;
use go_rules::operand::Operand;
use std::alloc::Global;

/// An operator between two operands.
#[derive(Clone, Copy)]
pub enum Operator {
    /// `||` or `&&`.
    Logical(BinaryOp),
    Compare(CompareOp),
    Sum(SumOperator),
    Product(ProductOperator),
}

/// The operators of a chain: one between all of its operands, or one before each other operand.
#[derive(Clone, Copy)]
pub enum Operators<'a> {
    Logical(BinaryOp),
    Compare(&'a [CompareOp]),
    Sum(&'a [SumOperator]),
    Product(&'a [ProductOperator]),
}

impl Operators<'_> {
    /// The operator at a place.
    pub(crate) fn at(&self, place: usize) -> Option<Operator>
        ensures { (n : ℕ) → place < n → result ≡ slice_get (operators_of self.now n) place }
    {
        match self {
            Operators::Logical(op) => Some(Operator::Logical(*op)),
            Operators::Compare(ops) => match ops.get(place) {
                Some(op) => Some(Operator::Compare(*op)),
                None => None,
            },
            Operators::Sum(ops) => match ops.get(place) {
                Some(op) => Some(Operator::Sum(*op)),
                None => None,
            },
            Operators::Product(ops) => match ops.get(place) {
                Some(op) => Some(Operator::Product(*op)),
                None => None,
            },
        }
    }

    /// Whether there are no more operators than this.
    pub(crate) fn end_by(&self, count: usize) -> bool
        ensures { IsTrue result ↔ (length (operators_of self.now count) ≤ count) }
    {
        match self {
            Operators::Logical(_) => true,
            Operators::Compare(ops) => ops.len() <= count,
            Operators::Sum(ops) => ops.len() <= count,
            Operators::Product(ops) => ops.len() <= count,
        }
    }
}

fn sum_operator(op: SumOperator) -> BinaryOp
    ensures { result ≡ sum_operator op }
{
    match op {
        SumOperator::Add => BinaryOp::Add,
        SumOperator::Subtract => BinaryOp::Subtract,
        SumOperator::Or => BinaryOp::Or,
        SumOperator::Xor => BinaryOp::Xor,
    }
}

fn product(
    context: &Context<'_>,
    alloc: Global,
    op: ProductOperator,
    left: &Operand,
    right: &Operand,
) -> Result<Option<Operand>, NoMemory>
    ensures { IfOk result (Gives (ProductComputes (env_in context.now) (product_operator op) left.now right.now)) }
{
    match op {
        ProductOperator::Multiply => binary(context, alloc, BinaryOp::Multiply, left, right),
        ProductOperator::Divide => binary(context, alloc, BinaryOp::Divide, left, right),
        ProductOperator::Remainder => binary(context, alloc, BinaryOp::Remainder, left, right),
        ProductOperator::ShiftLeft => shift(context, alloc, true, left, right),
        ProductOperator::ShiftRight => shift(context, alloc, false, left, right),
        ProductOperator::And => binary(context, alloc, BinaryOp::And, left, right),
        ProductOperator::AndNot => binary(context, alloc, BinaryOp::AndNot, left, right),
    }
}

/// What an operator makes of two operands; None where that is nothing.
pub(crate) fn combine(
    context: &Context<'_>,
    alloc: Global,
    op: Operator,
    left: &Operand,
    right: &Operand,
) -> Result<Option<Operand>, NoMemory>
    ensures { IfOk result (Gives (Combines (env_in context.now) op left.now right.now)) }
{
    match op {
        Operator::Logical(op) => binary(context, alloc, op, left, right),
        Operator::Compare(op) => compare(context, alloc, op, left, right),
        Operator::Sum(op) => binary(context, alloc, sum_operator(op), left, right),
        Operator::Product(op) => product(context, alloc, op, left, right),
    }
}
