//! Declarations of methods.
ghost use Rattle.std.specs.Prelude.{◌≡◌, ◌++◌, IfOk};
ghost use Rattle.go_base.specs.Lists.{Each};
ghost use Rattle.go_declaration_asks.specs.inner.MethodsOf.{HasDistinctNames, HasOtherName, IsFreeIn, IsMethodOf, PermitsMethod};
ghost use Rattle.go_model.specs.declared.types.term.Term.{out-Term};
ghost use Rattle.go_model.specs.types.Tables.{entry_of};
ghost use Rattle.go_model.specs.types.Underlying.{fields_of};
ghost use Rattle.go_model.specs.worlds.Worlds.{bars_methods};
ghost use Rattle.go_nodes.specs.Trees.{texts_of};
ghost use Rattle.go_rules.specs.Asks.{signature_names, texts};
ghost use Rattle.go_rules.specs.Scopes.{env_of};
ghost use Rattle.go_selectors.specs.Answers.{Decides};
ghost use Rattle.go_syntax.specs.declared.types.ParameterDecl.{out-ParameterDecl};
ghost use Rattle.go_typings.specs.DeclarationAsks.{IsApart};

use crate::base::Base;
use go_base::list::List;
use go_base::memory::NoMemory;
use go_base::text::Text;
use go_model::types::names::TypeName;
use go_model::types::package::Defined;
use go_model::types::table::TypeTable;
use go_model::types::term::{Field, Term};
use go_nodes::distinct::are_distinct;
use go_nodes::names::{push_names, push_signature};
use go_rules::blank::is_blank;
use go_rules::env::Env;
use go_syntax::declaration::Func;
use go_syntax::types::ParameterDecl;
use std::alloc::Global;

// The name of a type of the package.
fn own_name(env: &Env<'_>, alloc: Global, name: &Text) -> Result<TypeName, NoMemory>
    ensures { IfOk result (λ own. own ≡ record { path = (env_of env.now).path; name = name.now }) }
{
    Ok(TypeName {
        path: Text::of(alloc, env.path())?,
        name: name.copy()?,
    })
}

// The defined type of this name in the package.
fn defined_of<'e>(
    env: &'e Env<'_>,
    alloc: Global,
    name: &Text,
) -> Result<Option<&'e Defined>, NoMemory>
    ensures { IfOk result (λ defined. entry_of defined ≡ (env_of env.now).table (record { path = (env_of env.now).path; name = name.now })) }
{
    let own = own_name(env, alloc, name)?;
    Ok(env.defined(&own))
}

fn bars_methods(level: &Term) -> bool
    ensures { result ≡ bars_methods (out-Term level.now) }
{
    match level {
        Term::Pointer(_) => true,
        Term::Interface(_) => true,
        _ => false,
    }
}

// Whether a field has another name.
fn has_other_name(field: &Field, name: &Text) -> bool
    ensures { Decides result (HasOtherName name.now field.now) }
{
    field.sel.name != *name
}

// Whether none of the fields has the name.
fn are_apart(fields: &[Field], name: &Text) -> bool
    ensures { Decides result (Each (HasOtherName name.now) fields.now) }
{
    for field in fields {
        if !has_other_name(field, name) {
            return false;
        }
    }
    true
}

fn fields_in(level: &Term) -> &[Field]
    ensures { result.now ≡ fields_of (out-Term level.now) }
{
    match level {
        Term::Struct(fields) => fields.items(),
        _ => &[],
    }
}

// Whether no field of the level has the name.
fn is_apart(level: &Term, name: &Text) -> bool
    ensures { Decides result (IsApart (out-Term level.now) name.now) }
{
    are_apart(fields_in(level), name)
}

fn is_free_in(base: &Base<'_>, level: &Term, name: &Text) -> bool
    ensures { Decides result (IsFreeIn base.now (out-Term level.now) name.now) }
{
    if is_blank(name.bytes()) {
        return true;
    }
    if !base.is_only {
        return false;
    }
    is_apart(level, name)
}

fn permits_method(base: &Base<'_>, level: &Term, name: &Text) -> bool
    ensures { Decides result (PermitsMethod base.now (out-Term level.now) name.now) }
{
    if bars_methods(level) {
        return false;
    }
    is_free_in(base, level, name)
}

// The names of the receiver, the parameters and the results.
fn names_of<'a>(
    alloc: Global,
    receiver: &'a ParameterDecl,
    func: &'a Func,
) -> Result<List<&'a Text>, NoMemory>
    ensures { IfOk result (λ names. texts_of names ≡ texts (out-ParameterDecl receiver.now).names ++ signature_names func.now.signature) }
{
    let mut names = List::new(alloc);
    push_names(&mut names, receiver.names.items())?;
    push_signature(&mut names, &func.signature)?;
    Ok(names)
}

fn has_distinct_names(
    alloc: Global,
    receiver: &ParameterDecl,
    func: &Func,
) -> Result<bool, NoMemory>
    ensures { IfOk result (λ answer. Decides answer (HasDistinctNames receiver.now func.now)) }
{
    let names = names_of(alloc, receiver, func)?;
    let distinct = are_distinct(alloc, names.items())?;
    Ok(distinct)
}

/// Whether a method of a type meets what it is asked.
pub(crate) fn is_method_of(
    env: &Env<'_>,
    alloc: Global,
    base: &Base<'_>,
    receiver: &ParameterDecl,
    func: &Func,
) -> Result<bool, NoMemory>
    ensures { IfOk result (λ answer. Decides answer (IsMethodOf (env_of env.now) base.now receiver.now func.now)) }
{
    let found = defined_of(env, alloc, base.name)?;
    let defined = match found {
        Some(defined) => defined,
        None => return Ok(false),
    };
    if !permits_method(base, &defined.underlying, &func.name.text) {
        return Ok(false);
    }
    let distinct = has_distinct_names(alloc, receiver, func)?;
    Ok(distinct)
}
