//! Keys of elements that are names.
ghost use Rattle.std.specs.Prelude.{◌≡◌, None};
ghost use Rattle.go_base.specs.Keys.{item_of};
ghost use Rattle.go_rules.specs.Expressions.{HasFieldKey};
ghost use Rattle.go_selectors.specs.Answers.{Decides};
ghost use Rattle.go_syntax.specs.declared.expression.Element.{out-Element};
ghost use Rattle.go_syntax.specs.declared.expression.ElementValue.{ElementValue-F, out-ElementValue};
ghost use Rattle.go_syntax.specs.declared.expression.Expr.{Expr-F, out-Expr};
ghost use Rattle.go_elements.specs.go_usability.Answers.{Gives};

use go_syntax::expression::{Element, ElementValue, Expr};
use go_syntax::name::Name;

fn name_alone(expr: &Expr) -> Option<&Name>
    ensures { Gives (λ n. out-Expr expr.now ≡ Expr-F.Name n) (item_of result) }
{
    match expr {
        Expr::Name(name) => Some(name),
        _ => None,
    }
}

/// The expression that a key or value is; None of elements in braces.
pub(crate) fn expr_alone(value: &ElementValue) -> Option<&Expr>
    ensures { Gives (λ e. out-ElementValue value.now ≡ ElementValue-F.Value e) (item_of result) }
{
    match value {
        ElementValue::Value(expr) => Some(expr),
        ElementValue::Literal(_) => None,
    }
}

/// The name that an element has as its key; None where it has another key or none.
pub(crate) fn field_key(element: &Element) -> Option<&Name>
    ensures { Gives (HasFieldKey element.now) (item_of result) }
{
    let key = match &element.key {
        Some(key) => key,
        None => return None,
    };
    match expr_alone(key) {
        Some(expr) => name_alone(expr),
        None => None,
    }
}

/// Whether an element has no key.
pub(crate) fn is_without_key(element: &Element) -> bool
    ensures { Decides result ((out-Element element.now).key ≡ None) }
{
    match &element.key {
        Some(_) => false,
        None => true,
    }
}
