//! The parts under the outermost constructor of a type.
ghost use Rattle.std.specs.Prelude.{◌≡◌, ◌∷◌, [], ◌++◌, IfOk, OnOk, map};
ghost use Rattle.go_model.specs.declared.types.term.Term.{out-Term};
ghost use Rattle.api_correspond.specs.Outermost.{pair, side_by_side};
ghost use Rattle.go_type_images.specs.Parts.{parts, field_type, method_type};
ghost use Rattle.api_correspond.specs.inner.Parts.{type_of};

use go_base::memory::NoMemory;
use go_model::types::term::{Field, Method, Signature, Term};
use go_type_images::pair::TypePair;
use std::alloc::Global;

/// A type where it stands, or the function type of a signature that stands somewhere.
#[derive(Drop)]
pub enum Part<'a> {
    Type(&'a Term),
    Function(&'a Signature),
}

impl<'a> Part<'a> {
    /// The type.
    pub fn copy(&self, alloc: Global) -> Result<Term, NoMemory>
        ensures { IfOk result (λ copied. copied ≡ type_of self.now) }
    {
        match self {
            Part::Type(term) => term.copy(alloc),
            Part::Function(signature) => Ok(Term::Func(signature.copy(alloc)?)),
        }
    }
}

fn push_types<'a>(terms: &'a [Term], all: &mut Vec<Part<'a>>) -> Result<(), NoMemory>
    ensures { OnOk result (map type_of all.new.items ≡ map type_of all.old.items ++ terms.now) }
{
    for term in terms {
        all.push(Part::Type(term))?;
    }
    Ok(())
}

fn push_fields<'a>(fields: &'a [Field], all: &mut Vec<Part<'a>>) -> Result<(), NoMemory>
    ensures { OnOk result (map type_of all.new.items ≡ map type_of all.old.items ++ map field_type fields.now) }
{
    for field in fields {
        all.push(Part::Type(&field.term))?;
    }
    Ok(())
}

fn push_methods<'a>(methods: &'a [Method], all: &mut Vec<Part<'a>>) -> Result<(), NoMemory>
    ensures { OnOk result (map type_of all.new.items ≡ map type_of all.old.items ++ map method_type methods.now) }
{
    for method in methods {
        all.push(Part::Function(&method.signature))?;
    }
    Ok(())
}

/// The parts of a type, in order.
pub fn parts<'a>(alloc: Global, term: &'a Term) -> Result<Vec<Part<'a>>, NoMemory>
    ensures { IfOk result (λ all. map type_of all.items ≡ parts (out-Term term.now)) }
{
    let mut all = Vec::new(alloc);
    match term {
        Term::Plain(_) => {}
        Term::Named(_) => {}
        Term::Pointer(base) => all.push(Part::Type(base.value()))?,
        Term::Slice(element) => all.push(Part::Type(element.value()))?,
        Term::Array(_, element) => all.push(Part::Type(element.value()))?,
        Term::Map(key, element) => {
            all.push(Part::Type(key.value()))?;
            all.push(Part::Type(element.value()))?;
        }
        Term::Chan(_, element) => all.push(Part::Type(element.value()))?,
        Term::Func(signature) => {
            push_types(signature.params.items(), &mut all)?;
            push_types(signature.results.items(), &mut all)?;
        }
        Term::Struct(fields) => push_fields(fields.items(), &mut all)?,
        Term::Interface(methods) => push_methods(methods.items(), &mut all)?,
    }
    Ok(all)
}

fn push_pair(
    alloc: Global,
    before: &Part<'_>,
    after: &Part<'_>,
    pairs: &mut Vec<TypePair>,
) -> Result<(), NoMemory>
    ensures { OnOk result (pairs.new.items ≡ pairs.old.items ++ pair (type_of before.now) (type_of after.now) ∷ []) }
{
    let old = before.copy(alloc)?;
    let new = after.copy(alloc)?;
    pairs.push(TypePair { old, new })?;
    Ok(())
}

/// Adds the pairs of types that stand at the same places.
pub fn push_pairs(
    alloc: Global,
    before: &[Part<'_>],
    after: &[Part<'_>],
    pairs: &mut Vec<TypePair>,
) -> Result<(), NoMemory>
    ensures { OnOk result (pairs.new.items ≡ pairs.old.items ++ side_by_side (map type_of before.now) (map type_of after.now)) }
{
    for (i, part) in before.iter().enumerate() {
        if i >= after.len() {
            return Ok(());
        }
        push_pair(alloc, part, &after[i], pairs)?;
    }
    Ok(())
}
