//! The lines of the methods of a type that a package defines.
ghost use Rattle.std.specs.Prelude.{◌≡◌, ◌++◌, codes, Decides, IfOk, OnOk};
ghost use Rattle.std.specs.BTreeMap.{keys};
ghost use Rattle.go_base.specs.Growing.{Grows};
ghost use Rattle.go_base.specs.Lists.{Each};
ghost use Rattle.go_model.specs.declared.types.term.Term.{out-Term};
ghost use Rattle.go_model.specs.worlds.Worlds.{table_of};
ghost use Rattle.api_features.specs.Features.{IsMethodRest, defined_term};
ghost use Rattle.api_features.specs.TypeTexts.{signature_text};
ghost use Rattle.api_features.specs.inner.FeatureLines.{IsCalledRest, IsDeclaredRest, IsHeld, IsLineIn, IsLineOfSome, IsNotEmbedded, PromotesNone, method_word};

use crate::exported::is_exported;
use crate::subject::{Subject, add, begun};
use crate::types::push_signature;
use api_lines::lines::Lines;
use go_base::memory::NoMemory;
use go_model::types::names::Sel;
use go_model::types::package::{Defined, MethodOf};
use go_model::types::term::{Field, Signature, Term, pointer_to};
use go_selectors::candidate::Candidate;
use go_selectors::candidates::{called_at, candidates};
use go_selectors::lookup::{Lookup, error_type};
use std::alloc::Global;
use std::collections::BTreeMap;

// How the line of a method begins, with a pointer as its receiver or without.
fn method_word(pointer: bool) -> &'static [u8]
    ensures { result.now ≡ method_word pointer }
{
    if pointer {
        return b"method (*";
    }
    b"method ("
}

fn method_rest(
    alloc: Global,
    of: &Subject<'_>,
    pointer: bool,
    sel: &Sel,
    signature: &Signature,
) -> Result<Vec<u8>, NoMemory>
    ensures { IfOk result (λ rest. rest.items ≡ method_word pointer ++ of.now.name.now ++ codes ") " ++ sel.now.name ++ signature_text of.now.world.now.packages of.now.path.now signature.now) }
{
    let mut rest = begun(alloc, method_word(pointer), of.name, b") ")?;
    rest.extend_from_slice(sel.name.bytes())?;
    push_signature(&mut rest, signature, of.world, of.path)?;
    Ok(rest)
}

// Adds the line of a declared method, where it is exported.
fn add_declared(
    alloc: Global,
    lines: &mut Lines,
    of: &Subject<'_>,
    method: &MethodOf,
) -> Result<(), NoMemory>
    ensures { OnOk result (Grows (IsLineIn (IsDeclaredRest of.now.world.now.packages of.now.path.now of.now.name.now method.now) of.now.path.now) lines.old lines.new) }
{
    if !is_exported(&method.sel) {
        return Ok(());
    }
    let rest = method_rest(alloc, of, method.pointer, &method.sel, &method.signature)?;
    add(alloc, lines, of, rest)?;
    Ok(())
}

fn add_each_declared(
    alloc: Global,
    lines: &mut Lines,
    of: &Subject<'_>,
    methods: &[MethodOf],
) -> Result<(), NoMemory>
    ensures { OnOk result (Grows (IsLineOfSome (IsDeclaredRest of.now.world.now.packages of.now.path.now of.now.name.now) methods.now of.now.path.now) lines.old lines.new) }
{
    for method in methods {
        add_declared(alloc, lines, of, method)?;
    }
    Ok(())
}

// Whether no field is embedded.
fn none_embedded(fields: &[Field]) -> bool
    ensures { Decides result (Each IsNotEmbedded fields.now) }
{
    for field in fields {
        if field.embedded {
            return false;
        }
    }
    true
}

/// Whether a defined type with this underneath, and its pointer, have only the methods that are
/// declared for the type.
pub(crate) fn promotes_none(underlying: &Term) -> bool
    ensures { Decides result (PromotesNone (out-Term underlying.now)) }
{
    match underlying {
        Term::Struct(fields) => none_embedded(fields.items()),
        Term::Interface(_) => false,
        Term::Pointer(_) => false,
        Term::Plain(_) => true,
        Term::Named(_) => true,
        Term::Slice(_) => true,
        Term::Array(_, _) => true,
        Term::Map(_, _) => true,
        Term::Chan(_, _) => true,
        Term::Func(_) => true,
    }
}

/// Adds the lines of the methods of a type and of its pointer, where these are the declared ones: no
/// search is needed.
pub(crate) fn add_own_methods(
    alloc: Global,
    lines: &mut Lines,
    of: &Subject<'_>,
    defined: &Defined,
) -> Result<(), NoMemory>
    requires held { IsHeld of.now.world.now.packages of.now.path.now of.now.name.now defined.now }
    requires own { PromotesNone (out-Term defined.now.underlying) }
    ensures { OnOk result (Grows (IsLineIn (IsMethodRest of.now.world.now.packages of.now.path.now of.now.name.now (table_of of.now.world.now.packages) (defined_term of.now.path.now of.now.name.now)) of.now.path.now) lines.old lines.new) }
{
    add_each_declared(alloc, lines, of, defined.methods.items())?;
    Ok(())
}

// Adds the line of a callable method that is exported, and isn't callable where the others are.
fn add_called(
    alloc: Global,
    lines: &mut Lines,
    of: &Subject<'_>,
    pointer: bool,
    except: &BTreeMap<Sel, Candidate<'_>>,
    callable: &BTreeMap<Sel, Candidate<'_>>,
    sel: &Sel,
) -> Result<(), NoMemory>
    ensures { OnOk result (Grows (IsLineIn (IsCalledRest of.now.world.now.packages of.now.path.now of.now.name.now pointer except.now callable.now sel.now) of.now.path.now) lines.old lines.new) }
{
    if !is_exported(sel) {
        return Ok(());
    }
    if called_at(except, sel).is_some() {
        return Ok(());
    }
    match called_at(callable, sel) {
        None => Ok(()),
        Some(signature) => {
            let rest = method_rest(alloc, of, pointer, sel, signature)?;
            add(alloc, lines, of, rest)?;
            Ok(())
        }
    }
}

fn add_each_called(
    alloc: Global,
    lines: &mut Lines,
    of: &Subject<'_>,
    pointer: bool,
    except: &BTreeMap<Sel, Candidate<'_>>,
    callable: &BTreeMap<Sel, Candidate<'_>>,
) -> Result<(), NoMemory>
    ensures { OnOk result (Grows (IsLineOfSome (IsCalledRest of.now.world.now.packages of.now.path.now of.now.name.now pointer except.now callable.now) (keys callable.now) of.now.path.now) lines.old lines.new) }
{
    for sel in callable.keys() {
        add_called(alloc, lines, of, pointer, except, callable, sel)?;
    }
    Ok(())
}

/// Adds the lines of the methods of a type and of its pointer.
pub(crate) fn add_methods(
    alloc: Global,
    lines: &mut Lines,
    of: &Subject<'_>,
    term: &Term,
) -> Result<(), NoMemory>
    ensures { OnOk result (Grows (IsLineIn (IsMethodRest of.now.world.now.packages of.now.path.now of.now.name.now (table_of of.now.world.now.packages) term.now) of.now.path.now) lines.old lines.new) }
{
    let error = error_type(alloc)?;
    let pointer = pointer_to(alloc, term)?;
    let lookup = Lookup::new(of.world, &error);
    let none = BTreeMap::new(alloc);
    let values = candidates(alloc, &lookup, term)?;
    add_each_called(alloc, lines, of, false, &none, &values)?;
    let others = candidates(alloc, &lookup, &pointer)?;
    add_each_called(alloc, lines, of, true, &values, &others)?;
    Ok(())
}
