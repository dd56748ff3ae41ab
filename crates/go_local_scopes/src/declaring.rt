//! Names that are declared in the innermost scope.
ghost use Rattle.std.specs.Prelude.{◌≡◌, ◌≢◌, ◌++◌, ◌∷◌, [], map, false, Some, IfOk};
ghost use Rattle.go_base.specs.Keys.{item_of};
ghost use Rattle.go_local_scopes.specs.Slots.{name_in, names_in};
ghost use Rattle.go_local_scopes.specs.States.{Kept, Reaches};
ghost use Rattle.go_model.specs.declared.types.term.Signature.{out-Signature as out-Signed};
ghost use Rattle.go_rules.specs.Expressions.{is_blank as is_blank_of};
ghost use Rattle.go_statement_rules.specs.Scopes.{Declares, locals, parameter_slots, result_slots};
ghost use Rattle.go_syntax.specs.declared.types.Signature.{out-Signature};

use crate::slots::{push_locals, push_signature};
use go_base::list::List;
use go_base::memory::NoMemory;
use go_model::types::term::Signature as Signed;
use go_rules::blank::is_blank;
use go_rules::env::{DeclareError, Env};
use go_rules::seen::Seen;
use go_syntax::name::Name;
use go_syntax::types::Signature;
use std::alloc::Global;

// Declares a name that isn't blank.
fn declare_other(
    env: &mut Env<'_>,
    alloc: Global,
    name: &Name,
    seen: &Seen,
) -> Result<bool, NoMemory>
    requires { env.old.opened ≢ [] }
    ensures kept { Kept env.old env.new }
    ensures declared { is_blank_of name.now.text ≡ false → IfOk result (λ b. Reaches b (Declares env.old.opened (Some name.now ∷ []) (seen.now ∷ [])) env.new.opened) }
{
    let text = name.text.copy()?;
    let meaning = seen.meaning().copy(alloc)?;
    match env.declare(text, meaning) {
        Ok(()) => Ok(true),
        Err(DeclareError::Already) => Ok(false),
        Err(DeclareError::NoMemory) => Err(NoMemory),
    }
}

/// Declares a name, where there is one and it isn't blank. It is told whether the scope hadn't it.
pub fn declare(
    env: &mut Env<'_>,
    alloc: Global,
    name: Option<&Name>,
    seen: &Seen,
) -> Result<bool, NoMemory>
    requires { env.old.opened ≢ [] }
    ensures kept { Kept env.old env.new }
    ensures declared { IfOk result (λ b. Reaches b (Declares env.old.opened (name_in name.entry ∷ []) (seen.now ∷ [])) env.new.opened) }
{
    match name {
        Some(name) => {
            if is_blank(name.text.bytes()) {
                return Ok(true);
            }
            declare_other(env, alloc, name, seen)
        }
        None => Ok(true),
    }
}

/// Declares names with what they mean, one after another. It is told whether there are as many of both, and the scope has none
/// of them.
pub fn declare_all(
    env: &mut Env<'_>,
    alloc: Global,
    names: &[Option<&Name>],
    meanings: &[Seen],
) -> Result<bool, NoMemory>
    requires { env.old.opened ≢ [] }
    ensures kept { Kept env.old env.new }
    ensures declared { IfOk result (λ b. Reaches b (Declares env.old.opened (map name_in names.now) meanings.now) env.new.opened) }
{
    let same = names.len() == meanings.len();
    if !same {
        return Ok(false);
    }
    for at in 0..names.len() {
        let declared = declare(env, alloc, names[at], &meanings[at])?;
        if !declared {
            return Ok(false);
        }
    }
    Ok(true)
}

/// Declares the parameters and the results of a function, by its signature.
pub fn declare_signature(
    env: &mut Env<'_>,
    alloc: Global,
    signature: &Signature,
    signed: &Signed,
) -> Result<bool, NoMemory>
    requires { env.old.opened ≢ [] }
    ensures kept { Kept env.old env.new }
    ensures declared { IfOk result (λ b. Reaches b (Declares env.old.opened (parameter_slots (out-Signature signature.now).parameters ++ result_slots (out-Signature signature.now).result) (locals ((out-Signed signed.now).params ++ (out-Signed signed.now).results))) env.new.opened) }
{
    let mut names = List::new(alloc);
    push_signature(&mut names, signature)?;
    let mut meanings = List::new(alloc);
    push_locals(alloc, &mut meanings, signed.params.items())?;
    push_locals(alloc, &mut meanings, signed.results.items())?;
    declare_all(env, alloc, names.items(), meanings.items())
}
