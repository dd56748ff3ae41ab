//! Types without the tags of their fields.
ghost use Rattle.std.specs.Prelude.{◌≡◌, map, IfOk};
ghost use Rattle.go_model.specs.types.Tags.{untagged, untagged_field, untagged_method, untagged_signature};

use go_model::types::term::{Field, Method, Signature, Term};
use go_selectors::go_base::list::List;
use go_selectors::go_base::memory::NoMemory;
use go_selectors::go_base::shared::Shared;
use go_selectors::go_base::text::Text;
use std::alloc::Global;

/// A type without tags.
#[cycle(untagged)]
pub(crate) fn untagged(alloc: Global, term: &Term) -> Result<Term, NoMemory>
    ensures { IfOk result (λ bare. bare ≡ untagged term.now) }
{
    match term {
        Term::Plain(basic) => Ok(Term::Plain(*basic)),
        Term::Named(name) => Ok(Term::Named(name.copy(alloc)?)),
        Term::Pointer(base) => Ok(Term::Pointer(boxed(alloc, base)?)),
        Term::Slice(element) => Ok(Term::Slice(boxed(alloc, element)?)),
        Term::Array(length, element) => Ok(Term::Array(*length, boxed(alloc, element)?)),
        Term::Map(key, element) => Ok(Term::Map(boxed(alloc, key)?, boxed(alloc, element)?)),
        Term::Chan(direction, element) => Ok(Term::Chan(*direction, boxed(alloc, element)?)),
        Term::Func(signature) => Ok(Term::Func(of_signature(alloc, signature)?)),
        Term::Struct(fields) => Ok(Term::Struct(Shared::new(
            alloc,
            of_fields(alloc, fields.items())?,
        )?)),
        Term::Interface(methods) => Ok(Term::Interface(Shared::new(
            alloc,
            of_methods(alloc, methods.items())?,
        )?)),
    }
}

#[cycle(untagged)]
fn boxed(alloc: Global, term: &Shared<Term>) -> Result<Shared<Term>, NoMemory>
    ensures { IfOk result (λ bare. bare ≡ untagged term.now) }
{
    Shared::new(alloc, untagged(alloc, term.value())?)
}

#[cycle(untagged)]
fn of_signature(alloc: Global, signature: &Signature) -> Result<Signature, NoMemory>
    ensures { IfOk result (λ bare. bare ≡ untagged_signature signature.now) }
{
    Ok(Signature {
        params: of_terms(alloc, signature.params.items())?,
        variadic: signature.variadic,
        results: of_terms(alloc, signature.results.items())?,
    })
}

#[cycle(untagged)]
fn of_terms(alloc: Global, terms: &[Term]) -> Result<Shared<List<Term>>, NoMemory>
    ensures { IfOk result (λ bare. bare ≡ map untagged terms.now) }
{
    let mut bare = List::with_room(alloc, terms.len())?;
    for term in terms {
        bare.push(untagged(alloc, term)?)?;
    }
    Shared::new(alloc, bare)
}

#[cycle(untagged)]
fn of_fields(alloc: Global, fields: &[Field]) -> Result<List<Field>, NoMemory>
    ensures { IfOk result (λ bare. bare ≡ map untagged_field fields.now) }
{
    let mut bare = List::with_room(alloc, fields.len())?;
    for field in fields {
        bare.push(Field {
            sel: field.sel.copy(alloc)?,
            embedded: field.embedded,
            term: untagged(alloc, &field.term)?,
            tag: Text::of(alloc, b"")?,
        })?;
    }
    Ok(bare)
}

#[cycle(untagged)]
fn of_methods(alloc: Global, methods: &[Method]) -> Result<List<Method>, NoMemory>
    ensures { IfOk result (λ bare. bare ≡ map untagged_method methods.now) }
{
    let mut bare = List::with_room(alloc, methods.len())?;
    for method in methods {
        bare.push(Method {
            sel: method.sel.copy(alloc)?,
            signature: of_signature(alloc, &method.signature)?,
        })?;
    }
    Ok(bare)
}
