//! Type identity.
ghost use Rattle.std.specs.Prelude.{◌≡◌, ◌↔◌, IsTrue};

use go_base::shared::Shared;
use go_base::text::Text;
use go_model::types::names::{Sel, TypeName};
use go_model::types::term::{Field, Method, Signature, Term};

fn same_text(left: &Text, right: &Text) -> bool
    ensures { IsTrue result ↔ (left.now ≡ right.now) }
{
    left.bytes() == right.bytes()
}

/// Whether two names are equal, path and name.
pub fn same_name(left: &TypeName, right: &TypeName) -> bool
    ensures { IsTrue result ↔ (left.now ≡ right.now) }
{
    same_text(&left.path, &right.path) && same_text(&left.name, &right.name)
}

/// Whether two selectors are equal, name and package.
pub fn same_sel(left: &Sel, right: &Sel) -> bool
    ensures { IsTrue result ↔ (left.now ≡ right.now) }
{
    same_text(&left.name, &right.name) && same_text(&left.package, &right.package)
}

/// Whether two types are identical. Tags, embedding and the packages of unexported names count.
#[cycle(identical)]
pub fn identical(left: &Term, right: &Term) -> bool
    ensures { IsTrue result ↔ (left.now ≡ right.now) }
{
    match (left, right) {
        (Term::Plain(a), Term::Plain(b)) => a == b,
        (Term::Named(a), Term::Named(b)) => same_name(a, b),
        (Term::Pointer(a), Term::Pointer(b)) => same_boxed(a, b),
        (Term::Slice(a), Term::Slice(b)) => same_boxed(a, b),
        (Term::Array(m, a), Term::Array(n, b)) => m == n && same_boxed(a, b),
        (Term::Map(j, a), Term::Map(k, b)) => same_boxed(j, k) && same_boxed(a, b),
        (Term::Chan(c, a), Term::Chan(d, b)) => c == d && same_boxed(a, b),
        (Term::Func(a), Term::Func(b)) => same_signature(a, b),
        (Term::Struct(a), Term::Struct(b)) => same_fields(a.items(), b.items()),
        (Term::Interface(a), Term::Interface(b)) => same_methods(a.items(), b.items()),
        _ => false,
    }
}

#[cycle(identical)]
fn same_boxed(left: &Shared<Term>, right: &Shared<Term>) -> bool
    ensures { IsTrue result ↔ (left.now ≡ right.now) }
{
    identical(left.value(), right.value())
}

/// Whether two signatures are identical.
#[cycle(identical)]
pub fn same_signature(left: &Signature, right: &Signature) -> bool
    ensures { IsTrue result ↔ (left.now ≡ right.now) }
{
    left.variadic == right.variadic
        && same_terms(left.params.items(), right.params.items())
        && same_terms(left.results.items(), right.results.items())
}

#[cycle(identical)]
fn same_terms(left: &[Term], right: &[Term]) -> bool
    ensures { IsTrue result ↔ (left.now ≡ right.now) }
{
    if left.len() != right.len() {
        return false;
    }
    for (i, a) in left.iter().enumerate() {
        if !identical(a, &right[i]) {
            return false;
        }
    }
    true
}

#[cycle(identical)]
fn same_field(left: &Field, right: &Field) -> bool
    ensures { IsTrue result ↔ (left.now ≡ right.now) }
{
    same_sel(&left.sel, &right.sel)
        && left.embedded == right.embedded
        && same_text(&left.tag, &right.tag)
        && identical(&left.term, &right.term)
}

#[cycle(identical)]
fn same_fields(left: &[Field], right: &[Field]) -> bool
    ensures { IsTrue result ↔ (left.now ≡ right.now) }
{
    if left.len() != right.len() {
        return false;
    }
    for (i, a) in left.iter().enumerate() {
        if !same_field(a, &right[i]) {
            return false;
        }
    }
    true
}

#[cycle(identical)]
fn same_method(left: &Method, right: &Method) -> bool
    ensures { IsTrue result ↔ (left.now ≡ right.now) }
{
    same_sel(&left.sel, &right.sel) && same_signature(&left.signature, &right.signature)
}

#[cycle(identical)]
fn same_methods(left: &[Method], right: &[Method]) -> bool
    ensures { IsTrue result ↔ (left.now ≡ right.now) }
{
    if left.len() != right.len() {
        return false;
    }
    for (i, a) in left.iter().enumerate() {
        if !same_method(a, &right[i]) {
            return false;
        }
    }
    true
}
