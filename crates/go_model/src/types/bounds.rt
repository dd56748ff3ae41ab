//! How large a type is, counted no further than a limit.
ghost use Rattle.std.specs.Prelude.{◌≡◌, ◌+◌, ◌↔◌, IsTrue, IfSome, IsNone, map, sum, suc};
ghost use Rattle.go_model.specs.types.Bounds.{above, height, height_of_field, height_of_method, height_of_signature, IsWithinBounds, Leaves, nodes, nodes_of_field, nodes_of_method, nodes_of_signature};

use crate::types::term::{Field, Method, Signature, Term};

fn one_less(room: u32) -> Option<u32>
    ensures some { IfSome result (λ left. left + 1 ≡ room) }
    ensures none { IsNone result → room ≡ 0 }
{
    if room == 0 { None } else { Some(room - 1) }
}

/// What is left of so much room after the nodes of a type; None exactly where it has more nodes, or where
/// its height is over the limit. It stops where the room or the limit ends.
#[cycle(nodes_left)]
pub fn nodes_left(term: &Term, room: u32, limit: u32) -> Option<u32>
    ensures { Leaves room limit (nodes term.now) (height term.now) result }
{
    let left = one_less(room)?;
    match term {
        Term::Plain(_) => Some(left),
        Term::Named(_) => Some(left),
        Term::Pointer(base) => left_by_part(base.value(), left, limit),
        Term::Slice(element) => left_by_part(element.value(), left, limit),
        Term::Array(_, element) => left_by_part(element.value(), left, limit),
        Term::Map(key, element) => {
            let left = left_by_part(key.value(), left, limit)?;
            left_by_part(element.value(), left, limit)
        }
        Term::Chan(_, element) => left_by_part(element.value(), left, limit),
        Term::Func(signature) => left_by_signature(signature, room, limit),
        Term::Struct(fields) => left_by_fields(fields.items(), left, limit),
        Term::Interface(methods) => left_by_methods(methods.items(), left, limit),
    }
}

// A type in another one.
#[cycle(nodes_left)]
fn left_by_part(term: &Term, room: u32, limit: u32) -> Option<u32>
    ensures { Leaves room limit (nodes term.now) (suc (height term.now)) result }
{
    if limit == 0 {
        return None;
    }
    nodes_left(term, room, limit - 1)
}

#[cycle(nodes_left)]
fn left_by_signature(signature: &Signature, room: u32, limit: u32) -> Option<u32>
    ensures { Leaves room limit (nodes_of_signature signature.now) (height_of_signature signature.now) result }
{
    let left = one_less(room)?;
    let left = left_by_terms(signature.params.items(), left, limit)?;
    left_by_terms(signature.results.items(), left, limit)
}

#[cycle(nodes_left)]
fn left_by_terms(terms: &[Term], room: u32, limit: u32) -> Option<u32>
    ensures { Leaves room limit (sum (map nodes terms.now)) (above (map height terms.now)) result }
{
    let mut left = room;
    for term in terms {
        left = left_by_part(term, left, limit)?;
    }
    Some(left)
}

#[cycle(nodes_left)]
fn left_by_fields(fields: &[Field], room: u32, limit: u32) -> Option<u32>
    ensures { Leaves room limit (sum (map nodes_of_field fields.now)) (above (map height_of_field fields.now)) result }
{
    let mut left = room;
    for field in fields {
        left = left_by_part(&field.term, left, limit)?;
    }
    Some(left)
}

#[cycle(nodes_left)]
fn left_by_method(method: &Method, room: u32, limit: u32) -> Option<u32>
    ensures { Leaves room limit (nodes_of_method method.now) (suc (height_of_method method.now)) result }
{
    if limit == 0 {
        return None;
    }
    left_by_signature(&method.signature, room, limit - 1)
}

#[cycle(nodes_left)]
fn left_by_methods(methods: &[Method], room: u32, limit: u32) -> Option<u32>
    ensures { Leaves room limit (sum (map nodes_of_method methods.now)) (above (map height_of_method methods.now)) result }
{
    let mut left = room;
    for method in methods {
        left = left_by_method(method, left, limit)?;
    }
    Some(left)
}

/// Whether a type has at most 100,000 nodes and a height of at most 256. It looks at no more nodes.
pub fn is_within_bounds(term: &Term) -> bool
    ensures { IsTrue result ↔ IsWithinBounds term.now }
{
    nodes_left(term, 100_000, 256).is_some()
}
