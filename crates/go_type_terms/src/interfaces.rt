//! Methods of interface types.
ghost use Rattle.std.specs.Prelude.{◌≡◌, ◌∷◌, [], IfOk, OnOk};
ghost use Rattle.go_base.specs.Keys.{item_of};
ghost use Rattle.go_rules.specs.Expressions.{OfForm};
ghost use Rattle.go_rules.specs.Nodes.{elem_parts, elems_parts, signature as signature_node};
ghost use Rattle.go_rules.specs.Scopes.{env_of};
ghost use Rattle.go_model.specs.declared.types.term.Term.{Term-F, out-Term};
ghost use Rattle.go_model.specs.types.Underlying.{under};
ghost use Rattle.go_syntax.specs.declared.types.InterfaceElem.{InterfaceElem-F, out-InterfaceElem};
ghost use Rattle.go_syntax.specs.declared.types.«Type».{«Type-F» as Typ-F};
ghost use Rattle.go_usability.specs.Answers.{Gives};
ghost use Rattle.go_type_terms.specs.Answers.{Types, TypesBelow, env_in};
ghost use Rattle.go_type_terms.specs.Members.{OfElement, method_of};
ghost use Rattle.go_type_terms.specs.inner.Gathered.{AreGathered, AreKeyed, AreMethods, Gathers, GathersOf};

use crate::embedded::{add, is_among};
use crate::error::ExprError;
use crate::gathered::{gather, listed};
use crate::loud::either;
use crate::part::{Answer, Part};
use crate::type_names::type_named;
use crate::typing::Typing;
use go_base::list::List;
use go_base::memory::NoMemory;
use go_base::shared::Shared;
use go_model::types::names::{Sel, TypeName};
use go_model::types::term::{Method, Signature as Signed, Term};
use go_rules::env::Env;
use go_syntax::name::{Name, QualifiedName};
use go_syntax::types::{InterfaceElem, Signature};
use go_usability::context::Context;
use std::alloc::Global;
use std::collections::{BTreeMap, BTreeSet};

fn methods_of(term: &Term) -> Option<&[Method]>
    ensures { Gives (λ ms. out-Term term.now ≡ Term-F.Interface ms) (item_of result) }
{
    match term {
        Term::Interface(methods) => Some(methods.items()),
        _ => None,
    }
}

// Gathers the methods of an interface that is underneath a type.
fn gather_under(
    context: &Context<'_>,
    alloc: Global,
    noted: &mut BTreeMap<Sel, Method>,
    term: &Term,
) -> Result<(), ExprError>
    requires { AreKeyed noted.old.entries }
    ensures { Gathers (λ ms. under (env_in context.now).table term.now ≡ Term-F.Interface ms) noted.old.entries noted.new.entries result }
{
    match methods_of(context.under(term)) {
        Some(methods) => gather(alloc, noted, methods),
        None => Err(ExprError::Untyped),
    }
}

// Gathers the methods of an embedded interface, unless those of its type were gathered before.
fn gather_embedded(
    context: &Context<'_>,
    alloc: Global,
    noted: &mut BTreeMap<Sel, Method>,
    embedded: &mut BTreeSet<TypeName>,
    name: &QualifiedName,
) -> Result<(), ExprError>
    requires keyed { AreKeyed noted.old.entries }
    requires gathered { AreGathered (env_in context.now).table embedded.old.keys noted.old.entries }
    ensures gathers { Gathers (OfElement (env_in context.now) (InterfaceElem-F.«InterfaceElem::Embedded» name.now)) noted.old.entries noted.new.entries result }
    ensures gathered { OnOk result (AreGathered (env_in context.now).table embedded.new.keys noted.new.entries) }
{
    let term = type_named(context, alloc, name)?;
    if is_among(embedded, &term) {
        return Ok(());
    }
    gather_under(context, alloc, noted, &term)?;
    add(alloc, embedded, &term)?;
    Ok(())
}

// The method of a name and a signature.
fn method(env: &Env<'_>, signed: Signed, name: &Name) -> Result<Method, NoMemory>
    ensures { IfOk result (λ m. m ≡ method_of (env_of env.now) name.now signed) }
{
    Ok(Method {
        sel: env.selector(name.text.bytes())?,
        signature: signed,
    })
}

// A list of that method alone.
fn method_list(
    env: &Env<'_>,
    alloc: Global,
    name: &Name,
    signed: Signed,
) -> Result<List<Method>, NoMemory>
    ensures { IfOk result (λ ms. ms ≡ method_of (env_of env.now) name.now signed ∷ []) }
{
    let method = method(env, signed, name)?;
    let mut methods = List::new(alloc);
    methods.push(method)?;
    Ok(methods)
}

impl<'a, F: Fn(&Context<'_>, Global, usize, Part<'_>) -> Result<Answer, ExprError>> Typing<'a, F> {
    // Gathers the method that a name and a signature give.
    fn gather_method(
        &self,
        noted: &mut BTreeMap<Sel, Method>,
        name: &Name,
        signature: &Signature,
    ) -> Result<bool, ExprError>
        requires below { TypesBelow self.now.context.now self.now.height (F.pre self.now.below) (F.post self.now.below) }
        requires keyed { AreKeyed noted.old.entries }
        ensures { GathersOf (env_in self.now.context.now) (OfElement (env_in self.now.context.now) (InterfaceElem-F.Method name.now signature.now)) (signature_node signature.now ∷ []) noted.old.entries noted.new.entries result }
    {
        let (signed, loud) = self.signature(signature)?;
        let methods = method_list(self.context.env, self.alloc, name, signed)?;
        gather(self.alloc, noted, methods.items())?;
        Ok(loud)
    }

    // Gathers the methods that an element of an interface gives.
    fn gather_element(
        &self,
        noted: &mut BTreeMap<Sel, Method>,
        embedded: &mut BTreeSet<TypeName>,
        element: &InterfaceElem,
    ) -> Result<bool, ExprError>
        requires below { TypesBelow self.now.context.now self.now.height (F.pre self.now.below) (F.post self.now.below) }
        requires keyed { AreKeyed noted.old.entries }
        requires gathered { AreGathered (env_in self.now.context.now).table embedded.old.keys noted.old.entries }
        ensures gathers { GathersOf (env_in self.now.context.now) (OfElement (env_in self.now.context.now) (out-InterfaceElem element.now)) (elem_parts (out-InterfaceElem element.now)) noted.old.entries noted.new.entries result }
        ensures gathered { OnOk result (AreGathered (env_in self.now.context.now).table embedded.new.keys noted.new.entries) }
    {
        match element {
            InterfaceElem::Method(name, signature) => self.gather_method(noted, name, signature),
            InterfaceElem::Embedded(name) => {
                gather_embedded(self.context, self.alloc, noted, embedded, name)?;
                Ok(false)
            }
        }
    }

    // The methods that the elements of an interface give, in order.
    fn methods(&self, elements: &[InterfaceElem]) -> Result<(List<Method>, bool), ExprError>
        requires { TypesBelow self.now.context.now self.now.height (F.pre self.now.below) (F.post self.now.below) }
        ensures { Types (env_in self.now.context.now) (AreMethods (env_in self.now.context.now) elements.now) (elems_parts elements.now) result }
    {
        let mut noted = BTreeMap::new(self.alloc);
        let mut embedded = BTreeSet::new(self.alloc);
        let mut loud = false;
        for element in elements {
            let louder = self.gather_element(&mut noted, &mut embedded, element)?;
            loud = either(loud, louder);
        }
        let methods = listed(self.alloc, noted)?;
        Ok((methods, loud))
    }

    /// The interface type of elements.
    pub(crate) fn interface(&self, elements: &[InterfaceElem]) -> Result<(Term, bool), ExprError>
        requires { TypesBelow self.now.context.now self.now.height (F.pre self.now.below) (F.post self.now.below) }
        ensures { Types (env_in self.now.context.now) (OfForm (env_in self.now.context.now) (Typ-F.Interface elements.now)) (elems_parts elements.now) result }
    {
        let (methods, loud) = self.methods(elements)?;
        Ok((Term::Interface(Shared::new(self.alloc, methods)?), loud))
    }
}
