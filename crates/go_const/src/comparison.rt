//! Comparisons of constants.
ghost use Rattle.std.specs.Prelude.{◌≡◌};
ghost use Rattle.go_model.specs.constants.Constants.{comparison, holds_at};

use go_model::constants::value::Value;
use go_model::go_base::operator::CompareOp;
use std::cmp::Ordering;

/// Whether the operator holds of two values in this order.
fn holds(op: CompareOp, ordering: Ordering) -> bool
    ensures { result ≡ holds_at op ordering }
{
    match op {
        CompareOp::Equal => ordering.is_eq(),
        CompareOp::NotEqual => ordering.is_ne(),
        CompareOp::Less => ordering.is_lt(),
        CompareOp::LessEqual => ordering.is_le(),
        CompareOp::Greater => ordering.is_gt(),
        CompareOp::GreaterEqual => ordering.is_ge(),
    }
}

/// The truth of a comparison. It is None exactly where the values are of different variants, or are
/// truth values and the operator is an order.
#[tactic(auto, unfolding(go_model::specs::constants::Constants::comparison))]
pub fn compare_values(op: CompareOp, left: &Value, right: &Value) -> Option<bool>
    ensures { result ≡ comparison op left.now right.now }
{
    match (left, right) {
        (Value::Int(x), Value::Int(y)) => Some(holds(op, x.cmp(y))),
        (Value::Str(x), Value::Str(y)) => Some(holds(op, x.cmp(y))),
        (Value::Truth(x), Value::Truth(y)) => match op {
            CompareOp::Equal => Some(x == y),
            CompareOp::NotEqual => Some(x != y),
            _ => None,
        },
        _ => None,
    }
}
