//! The names that are declared one after another, and what they mean.
ghost use Rattle.std.specs.Prelude.{◌≡◌, ◌++◌, ◌∷◌, [], map, OnOk, IfOk, None, Some};
ghost use Rattle.go_base.specs.Keys.{item_of};
ghost use Rattle.go_local_scopes.specs.Slots.{names_in, name_in};
ghost use Rattle.go_statement_rules.specs.Functions.{receiver_slots};
ghost use Rattle.go_statement_rules.specs.Scopes as scopes;
ghost use Rattle.go_statement_rules.specs.Scopes.{local_of, locals, parameter_slots, result_slots, slots_of};
ghost use Rattle.go_syntax.specs.declared.types.Signature.{out-Signature};

use go_base::list::List;
use go_base::memory::NoMemory;
use go_model::types::package::Entity;
use go_model::types::term::Term;
use go_rules::seen::Seen;
use go_syntax::name::Name;
use go_syntax::types::{FuncResult, ParameterDecl, Signature};
use std::alloc::Global;

/// Adds names.
pub fn push_names<'a>(slots: &mut List<Option<&'a Name>>, names: &'a [Name]) -> Result<(), NoMemory>
    ensures { OnOk result (names_in slots.new ≡ names_in slots.old ++ map Some names.now) }
{
    for name in names {
        slots.push(Some(name))?;
    }
    Ok(())
}

// Adds the names of parameters of one type, or one that has none.
fn push_slots<'a>(slots: &mut List<Option<&'a Name>>, names: &'a [Name]) -> Result<(), NoMemory>
    ensures { OnOk result (names_in slots.new ≡ names_in slots.old ++ slots_of names.now) }
{
    if names.is_empty() {
        return slots.push(None);
    }
    push_names(slots, names)
}

fn push_parameters<'a>(
    slots: &mut List<Option<&'a Name>>,
    decls: &'a [ParameterDecl],
) -> Result<(), NoMemory>
    ensures { OnOk result (names_in slots.new ≡ names_in slots.old ++ parameter_slots decls.now) }
{
    for decl in decls {
        push_slots(slots, decl.names.items())?;
    }
    Ok(())
}

fn push_result<'a>(
    slots: &mut List<Option<&'a Name>>,
    returned: &'a Option<FuncResult>,
) -> Result<(), NoMemory>
    ensures { OnOk result (names_in slots.new ≡ names_in slots.old ++ result_slots returned.now) }
{
    match returned {
        Some(FuncResult::Parameters(decls)) => push_parameters(slots, decls.items()),
        Some(FuncResult::Type(_)) => slots.push(None),
        None => Ok(()),
    }
}

/// Adds the names of the parameters and of the results of a function.
pub fn push_signature<'a>(
    slots: &mut List<Option<&'a Name>>,
    signature: &'a Signature,
) -> Result<(), NoMemory>
    ensures { OnOk result (names_in slots.new ≡ names_in slots.old ++ (parameter_slots (out-Signature signature.now).parameters ++ result_slots (out-Signature signature.now).result)) }
{
    push_parameters(slots, signature.parameters.items())?;
    push_result(slots, &signature.result)
}

/// Adds the name of a receiver.
pub fn push_receiver<'a>(
    slots: &mut List<Option<&'a Name>>,
    receiver: &'a Option<ParameterDecl>,
) -> Result<(), NoMemory>
    ensures { OnOk result (names_in slots.new ≡ names_in slots.old ++ receiver_slots receiver.now) }
{
    match receiver {
        Some(decl) => push_slots(slots, decl.names.items()),
        None => Ok(()),
    }
}

/// Adds variables of types.
pub fn push_locals(alloc: Global, meanings: &mut List<Seen>, terms: &[Term]) -> Result<(), NoMemory>
    ensures { OnOk result (meanings.new ≡ meanings.old ++ locals terms.now) }
{
    for term in terms {
        meanings.push(Seen::Local(term.copy(alloc)?))?;
    }
    Ok(())
}

// What a constant or a variable that is declared in a function means.
fn local_of(alloc: Global, entity: &Entity) -> Result<Seen, NoMemory>
    ensures { IfOk result (λ seen. seen ≡ local_of entity.now) }
{
    match entity {
        Entity::Const(term, value) => Ok(Seen::LocalConst(term.copy(alloc)?, value.copy(alloc)?)),
        Entity::Var(term) => Ok(Seen::Local(term.copy(alloc)?)),
        _ => Ok(Seen::Object(entity.copy(alloc)?)),
    }
}

/// Adds constants and variables of a function.
pub fn push_entities(
    alloc: Global,
    meanings: &mut List<Seen>,
    entities: &[Entity],
) -> Result<(), NoMemory>
    ensures { OnOk result (meanings.new ≡ meanings.old ++ map local_of entities.now) }
{
    for entity in entities {
        let seen = local_of(alloc, entity)?;
        meanings.push(seen)?;
    }
    Ok(())
}
