//! Types that match in their outermost constructors.
ghost use Rattle.std.specs.Prelude.{◌≡◌, ◌↔◌, IsTrue, map};
ghost use Rattle.go_model.specs.types.MethodSets.{method_sel};
ghost use Rattle.go_model.specs.declared.types.term.Term.{out-Term, Term-F};
ghost use Rattle.api_correspond.specs.Outermost.{SameOutermost, field_head, function_head};

use crate::publics::has_module_path;
use go_model::types::names::TypeName;
use go_model::types::term::{Field, Method, Signature, Term};
use go_model::types::world::World;
use go_selectors::identity::{same_name, same_sel};

// Whether both are types of the module, or the same one of no module.
fn names_match(old: &World, new: &World, before: &TypeName, after: &TypeName) -> bool
    ensures { IsTrue result ↔ SameOutermost old.now new.now (Term-F.Named before.now) (Term-F.Named after.now) }
{
    let of_module = has_module_path(old, &before.path);
    if of_module != has_module_path(new, &after.path) {
        return false;
    }
    of_module || same_name(before, after)
}

fn functions_match(before: &Signature, after: &Signature) -> bool
    ensures { IsTrue result ↔ (function_head before.now ≡ function_head after.now) }
{
    before.variadic == after.variadic
        && before.params.items().len() == after.params.items().len()
        && before.results.items().len() == after.results.items().len()
}

fn field_matches(before: &Field, after: &Field) -> bool
    ensures { IsTrue result ↔ (field_head before.now ≡ field_head after.now) }
{
    same_sel(&before.sel, &after.sel)
        && before.embedded == after.embedded
        && before.tag.bytes() == after.tag.bytes()
}

fn fields_match(before: &[Field], after: &[Field]) -> bool
    ensures { IsTrue result ↔ (map field_head before.now ≡ map field_head after.now) }
{
    if before.len() != after.len() {
        return false;
    }
    for (i, field) in before.iter().enumerate() {
        if !field_matches(field, &after[i]) {
            return false;
        }
    }
    true
}

fn method_matches(before: &Method, after: &Method) -> bool
    ensures { IsTrue result ↔ (method_sel before.now ≡ method_sel after.now) }
{
    same_sel(&before.sel, &after.sel)
}

fn methods_match(before: &[Method], after: &[Method]) -> bool
    ensures { IsTrue result ↔ (map method_sel before.now ≡ map method_sel after.now) }
{
    if before.len() != after.len() {
        return false;
    }
    for (i, method) in before.iter().enumerate() {
        if !method_matches(method, &after[i]) {
            return false;
        }
    }
    true
}

/// Whether an old and a new type match in their outermost constructors.
pub fn types_match(old: &World, new: &World, before: &Term, after: &Term) -> bool
    ensures { IsTrue result ↔ SameOutermost old.now new.now (out-Term before.now) (out-Term after.now) }
{
    match (before, after) {
        (Term::Plain(a), Term::Plain(b)) => a == b,
        (Term::Named(a), Term::Named(b)) => names_match(old, new, a, b),
        (Term::Pointer(_), Term::Pointer(_)) => true,
        (Term::Slice(_), Term::Slice(_)) => true,
        (Term::Array(m, _), Term::Array(n, _)) => m == n,
        (Term::Map(_, _), Term::Map(_, _)) => true,
        (Term::Chan(c, _), Term::Chan(d, _)) => c == d,
        (Term::Func(a), Term::Func(b)) => functions_match(a, b),
        (Term::Struct(a), Term::Struct(b)) => fields_match(a.items(), b.items()),
        (Term::Interface(a), Term::Interface(b)) => methods_match(a.items(), b.items()),
        _ => false,
    }
}
