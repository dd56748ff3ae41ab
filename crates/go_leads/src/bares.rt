//! Composite literals by their types, in turn, and those without a type that stand among their elements.
ghost use Rattle.std.specs.Prelude.{◌≡◌, ◌++◌, ◌∷◌, [], OnOk};
ghost use Rattle.go_leads.specs.inner.Bares.{Pops, bare_key, bare_of, bare_pairs, bare_value, bare_values, bares_in, inner, omitted};
ghost use Rattle.go_model.specs.types.Underlying.{under};
ghost use Rattle.go_syntax.specs.declared.expression.ElementValue.{out-ElementValue};
ghost use Rattle.go_type_terms.specs.Answers.{env_in};

use go_base::memory::NoMemory;
use go_model::types::term::Term;
use go_syntax::expression::{Element, ElementValue};
use go_usability::context::Context;
use std::alloc::Global;

/// A composite literal by its type.
#[derive(Clone, Copy)]
pub(crate) struct Bare<'t, 'a> {
    pub(crate) term: &'t Term,
    pub(crate) elements: &'a [Element],
}

/// Composite literals by their types, of which the last one is taken first.
#[derive(Drop)]
pub(crate) struct Bares<'t, 'a> {
    items: Vec<Bare<'t, 'a>>,
}

// The type of a literal without a type where a value of a type is wanted.
fn omitted<'t>(context: &Context<'t>, term: &'t Term) -> &'t Term
    ensures { result.now ≡ omitted (env_in context.now) term.now }
{
    match context.under(term) {
        Term::Pointer(base) => base.value(),
        _ => term,
    }
}

impl<'t, 'a> Bares<'t, 'a> {
    /// No literal.
    pub(crate) fn new(alloc: Global) -> Bares<'t, 'a>
        ensures { bares_in result ≡ [] }
    {
        Bares {
            items: Vec::new(alloc),
        }
    }

    /// Adds a literal.
    pub(crate) fn push(&mut self, bare: Bare<'t, 'a>) -> Result<(), NoMemory>
        ensures { OnOk result (bares_in self.new ≡ bares_in self.old ++ bare_of bare.entry ∷ []) }
    {
        self.items.push(bare)?;
        Ok(())
    }

    /// Takes the last literal; None where there is none.
    pub(crate) fn pop(&mut self) -> Option<Bare<'t, 'a>>
        ensures { Pops (bares_in self.old) (bares_in self.new) result }
    {
        self.items.pop()
    }

    fn push_value(
        &mut self,
        context: &Context<'t>,
        term: &'t Term,
        value: &'a ElementValue,
    ) -> Result<(), NoMemory>
        ensures { OnOk result (bares_in self.new ≡ bares_in self.old ++ bare_value (env_in context.now) term.now (out-ElementValue value.now)) }
    {
        match value {
            ElementValue::Value(_) => Ok(()),
            ElementValue::Literal(elements) => self.push(Bare {
                term: omitted(context, term),
                elements: elements.items(),
            }),
        }
    }

    fn push_key(
        &mut self,
        context: &Context<'t>,
        term: &'t Term,
        key: &'a Option<ElementValue>,
    ) -> Result<(), NoMemory>
        ensures { OnOk result (bares_in self.new ≡ bares_in self.old ++ bare_key (env_in context.now) term.now key.now) }
    {
        match key {
            Some(key) => self.push_value(context, term, key),
            None => Ok(()),
        }
    }

    /// Adds the literals without a type that are values of elements.
    pub(crate) fn push_values(
        &mut self,
        context: &Context<'t>,
        term: &'t Term,
        elements: &'a [Element],
    ) -> Result<(), NoMemory>
        ensures { OnOk result (bares_in self.new ≡ bares_in self.old ++ bare_values (env_in context.now) term.now elements.now) }
    {
        for element in elements {
            self.push_value(context, term, &element.value)?;
        }
        Ok(())
    }

    fn push_pair(
        &mut self,
        context: &Context<'t>,
        key: &'t Term,
        term: &'t Term,
        element: &'a Element,
    ) -> Result<(), NoMemory>
        ensures { OnOk result (bares_in self.new ≡ bares_in self.old ++ bare_pairs (env_in context.now) key.now term.now (element.now ∷ [])) }
    {
        self.push_key(context, key, &element.key)?;
        self.push_value(context, term, &element.value)
    }

    fn push_pairs(
        &mut self,
        context: &Context<'t>,
        key: &'t Term,
        term: &'t Term,
        elements: &'a [Element],
    ) -> Result<(), NoMemory>
        ensures { OnOk result (bares_in self.new ≡ bares_in self.old ++ bare_pairs (env_in context.now) key.now term.now elements.now) }
    {
        for element in elements {
            self.push_pair(context, key, term, element)?;
        }
        Ok(())
    }

    /// Adds the literals without a type that stand among the elements of a literal.
    pub(crate) fn push_inner(
        &mut self,
        context: &Context<'t>,
        bare: Bare<'t, 'a>,
    ) -> Result<(), NoMemory>
        ensures { OnOk result (bares_in self.new ≡ bares_in self.old ++ inner (env_in context.now) (under (env_in context.now).table (bare_of bare.entry).0) (bare_of bare.entry).1) }
    {
        match context.under(bare.term) {
            Term::Array(_, element) => self.push_values(context, element.value(), bare.elements),
            Term::Slice(element) => self.push_values(context, element.value(), bare.elements),
            Term::Map(key, element) => {
                self.push_pairs(context, key.value(), element.value(), bare.elements)
            }
            _ => Ok(()),
        }
    }
}
