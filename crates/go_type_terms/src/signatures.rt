//! Parameters and results of function types.
ghost use Rattle.std.specs.Prelude.{◌≡◌, [], ◌∷◌, false, replicate, IfOk};
ghost use Rattle.go_model.specs.types.Terms.{slice_of};
ghost use Rattle.go_rules.specs.Expressions.{OfForm, OfParameters, OfResult, OfSignature, for_names};
ghost use Rattle.go_type_terms.specs.Results.{OfResults};
ghost use Rattle.go_rules.specs.Nodes.{optional_result_parts, parameter_parts, result_parts, signature as signature_node, type as type_node};
ghost use Rattle.go_syntax.specs.declared.types.FuncResult.{FuncResult-F, out-FuncResult};
ghost use Rattle.go_syntax.specs.declared.types.ParameterDecl.{out-ParameterDecl};
ghost use Rattle.go_syntax.specs.declared.types.Signature.{out-Signature};
ghost use Rattle.go_syntax.specs.declared.types.«Type».{«Type-F» as Typ-F};
ghost use Rattle.go_type_terms.specs.Answers.{Tells, Types, TypesBelow, env_in};
ghost use Rattle.go_type_terms.specs.inner.Parameters.{GivesTerms, OfParameter};
ghost use Rattle.go_type_terms.specs.declared.signatures.Parameters.{Parameters};

use crate::error::ExprError;
use crate::lists::push_all;
use crate::loud::either;
use crate::part::{Answer, Part};
use crate::typing::Typing;
use go_base::list::List;
use go_base::memory::NoMemory;
use go_base::shared::Shared;
use go_model::types::term::{Signature as Signed, Term};
use go_syntax::name::Name;
use go_syntax::types::{FuncResult, ParameterDecl, Signature, Type};
use go_usability::context::Context;
use std::alloc::Global;

// The types of parameters, and whether the last one is variadic.
#[derive(Drop)]
struct Parameters {
    terms: List<Term>,
    variadic: bool,
}

// So many copies of a type.
fn copies(alloc: Global, count: usize, term: &Term) -> Result<List<Term>, NoMemory>
    ensures { IfOk result (λ ts. ts ≡ replicate count term.now) }
{
    let mut terms = List::new(alloc);
    for _turn in 0..count {
        let copied = term.copy(alloc)?;
        terms.push(copied)?;
    }
    Ok(terms)
}

// The type of a parameter declaration, once for each of its names, and once where it has none.
fn for_names(alloc: Global, names: &[Name], term: Term) -> Result<List<Term>, NoMemory>
    ensures { IfOk result (λ ts. ts ≡ for_names names.now term) }
{
    let mut terms = copies(alloc, names.len().saturating_sub(1), &term)?;
    terms.push(term)?;
    Ok(terms)
}

// The slice type of a variadic parameter.
fn variadic_terms(alloc: Global, term: Term) -> Result<List<Term>, NoMemory>
    ensures { IfOk result (λ ts. ts ≡ slice_of term ∷ []) }
{
    let mut terms = List::new(alloc);
    terms.push(Term::Slice(Shared::new(alloc, term)?))?;
    Ok(terms)
}

// The types of the parameters of a declaration that has this type.
fn terms_of(alloc: Global, decl: &ParameterDecl, term: Term) -> Result<List<Term>, ExprError>
    ensures { Tells (GivesTerms (out-ParameterDecl decl.now).variadic (out-ParameterDecl decl.now).names term) result }
{
    if !decl.variadic {
        return Ok(for_names(alloc, decl.names.items(), term)?);
    }
    if decl.names.items().len() > 1 {
        return Err(ExprError::Untyped);
    }
    Ok(variadic_terms(alloc, term)?)
}

// The signature of these parameters and results.
fn signed(alloc: Global, parameters: Parameters, results: List<Term>) -> Result<Signed, NoMemory>
    ensures { IfOk result (λ signed. signed ≡ record { params = parameters.terms; variadic = parameters.variadic; results = results }) }
{
    Ok(Signed {
        params: Shared::new(alloc, parameters.terms)?,
        variadic: parameters.variadic,
        results: Shared::new(alloc, results)?,
    })
}

impl<'a, F: Fn(&Context<'_>, Global, usize, Part<'_>) -> Result<Answer, ExprError>> Typing<'a, F> {
    // The types of the parameters of a declaration.
    fn parameter(&self, decl: &ParameterDecl) -> Result<(List<Term>, bool), ExprError>
        requires { TypesBelow self.now.context.now self.now.height (F.pre self.now.below) (F.post self.now.below) }
        ensures { Types (env_in self.now.context.now) (OfParameter (env_in self.now.context.now) decl.now) (type_node (out-ParameterDecl decl.now).type_ ∷ []) result }
    {
        let (term, loud) = self.type_below(&decl.type_)?;
        let terms = terms_of(self.alloc, decl, term)?;
        Ok((terms, loud))
    }

    // The types of parameters.
    fn parameters(&self, decls: &[ParameterDecl]) -> Result<(Parameters, bool), ExprError>
        requires { TypesBelow self.now.context.now self.now.height (F.pre self.now.below) (F.post self.now.below) }
        ensures { Types (env_in self.now.context.now) (λ (p : Parameters). OfParameters (env_in self.now.context.now) decls.now p.terms p.variadic) (parameter_parts decls.now) result }
    {
        let mut terms = List::new(self.alloc);
        let mut variadic = false;
        let mut loud = false;
        for decl in decls {
            // Only the last one may be variadic.
            if variadic {
                return Err(ExprError::Untyped);
            }
            let (more, louder) = self.parameter(decl)?;
            push_all(&mut terms, more)?;
            variadic = decl.variadic;
            loud = either(loud, louder);
        }
        Ok((Parameters { terms, variadic }, loud))
    }

    // The types of results that stand in parentheses.
    fn result_parameters(&self, decls: &[ParameterDecl]) -> Result<(List<Term>, bool), ExprError>
        requires { TypesBelow self.now.context.now self.now.height (F.pre self.now.below) (F.post self.now.below) }
        ensures { Types (env_in self.now.context.now) (λ us. OfParameters (env_in self.now.context.now) decls.now us false) (parameter_parts decls.now) result }
    {
        let (parameters, loud) = self.parameters(decls)?;
        if parameters.variadic {
            return Err(ExprError::Untyped);
        }
        Ok((parameters.terms, loud))
    }

    // The type of the one result.
    fn result_type(&self, form: &Type) -> Result<(List<Term>, bool), ExprError>
        requires { TypesBelow self.now.context.now self.now.height (F.pre self.now.below) (F.post self.now.below) }
        ensures { Types (env_in self.now.context.now) (OfResult (env_in self.now.context.now) (FuncResult-F.«FuncResult::Type» form.now)) (type_node form.now ∷ []) result }
    {
        let (term, loud) = self.type_below(form)?;
        let mut terms = List::new(self.alloc);
        terms.push(term)?;
        Ok((terms, loud))
    }

    // The types of a result.
    fn written_result(&self, written: &FuncResult) -> Result<(List<Term>, bool), ExprError>
        requires { TypesBelow self.now.context.now self.now.height (F.pre self.now.below) (F.post self.now.below) }
        ensures { Types (env_in self.now.context.now) (OfResult (env_in self.now.context.now) (out-FuncResult written.now)) (result_parts (out-FuncResult written.now)) result }
    {
        match written {
            FuncResult::Parameters(decls) => self.result_parameters(decls.items()),
            FuncResult::Type(form) => self.result_type(form),
        }
    }

    // The types of results.
    fn results(&self, written: &Option<FuncResult>) -> Result<(List<Term>, bool), ExprError>
        requires { TypesBelow self.now.context.now self.now.height (F.pre self.now.below) (F.post self.now.below) }
        ensures { Types (env_in self.now.context.now) (OfResults (env_in self.now.context.now) written.now) (optional_result_parts written.now) result }
    {
        match written {
            None => Ok((List::new(self.alloc), false)),
            Some(given) => self.written_result(given),
        }
    }

    /// The signature of parameters and a result, and whether a receive stands in their types, or a call that is
    /// neither a conversion nor constant; `Untyped` exactly where they have none.
    pub fn signature(&self, signature: &Signature) -> Result<(Signed, bool), ExprError>
        requires { TypesBelow self.now.context.now self.now.height (F.pre self.now.below) (F.post self.now.below) }
        ensures { Types (env_in self.now.context.now) (OfSignature (env_in self.now.context.now) (out-Signature signature.now).parameters (out-Signature signature.now).result) (signature_node signature.now ∷ []) result }
    {
        let (parameters, loud) = self.parameters(signature.parameters.items())?;
        let (results, louder) = self.results(&signature.result)?;
        let signed = signed(self.alloc, parameters, results)?;
        Ok((signed, either(loud, louder)))
    }

    /// The function type of a signature.
    pub(crate) fn function(&self, signature: &Signature) -> Result<(Term, bool), ExprError>
        requires { TypesBelow self.now.context.now self.now.height (F.pre self.now.below) (F.post self.now.below) }
        ensures { Types (env_in self.now.context.now) (OfForm (env_in self.now.context.now) (Typ-F.Func signature.now)) (signature_node signature.now ∷ []) result }
    {
        let (signed, loud) = self.signature(signature)?;
        Ok((Term::Func(signed), loud))
    }
}
