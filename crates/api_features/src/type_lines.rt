//! The lines of a type that a package defines.
ghost use Rattle.std.specs.Prelude.{◌≡◌, ◌++◌, true, codes, IfOk, OnOk};
ghost use Rattle.go_base.specs.Growing.{Grows};
ghost use Rattle.go_model.specs.declared.types.package.Entity.TheVariants as entity;
ghost use Rattle.go_model.specs.declared.types.term.Term.{out-Term};
ghost use Rattle.go_model.specs.types.Underlying.{under};
ghost use Rattle.go_model.specs.worlds.Worlds.{table_of};
ghost use Rattle.api_features.specs.Features.{defined_term, is_interface, is_plain, IsRest, IsTypeRest};
ghost use Rattle.api_features.specs.TypeTexts.{type_text};
ghost use Rattle.api_features.specs.inner.FeatureLines.{IsHeld, IsLineIn};

use crate::interface_lines::add_interface;
use crate::method_lines::{add_methods, add_own_methods, promotes_none};
use crate::struct_lines::add_struct;
use crate::subject::{Subject, add, begun};
use crate::types::push_type;
use api_lines::lines::Lines;
use go_base::memory::NoMemory;
use go_model::types::package::Defined;
use go_model::types::term::Term;
use go_selectors::lookup::{Lookup, error_type};
use std::alloc::Global;

fn plain_rest(alloc: Global, of: &Subject<'_>, term: &Term) -> Result<Vec<u8>, NoMemory>
    ensures { IfOk result (λ rest. rest.items ≡ codes "type " ++ of.now.name.now ++ codes " " ++ type_text of.now.world.now.packages of.now.path.now term.now) }
{
    let mut rest = begun(alloc, b"type ", of.name, b" ")?;
    push_type(&mut rest, term, of.world, of.path)?;
    Ok(rest)
}

fn add_plain(
    alloc: Global,
    lines: &mut Lines,
    of: &Subject<'_>,
    term: &Term,
) -> Result<(), NoMemory>
    requires { is_plain (out-Term term.now) ≡ true }
    ensures { OnOk result (Grows (IsLineIn (IsTypeRest of.now.world.now.packages of.now.path.now of.now.name.now (out-Term term.now)) of.now.path.now) lines.old lines.new) }
{
    let rest = plain_rest(alloc, of, term)?;
    add(alloc, lines, of, rest)?;
    Ok(())
}

// The lines of what is underneath.
fn add_underlying(
    alloc: Global,
    lines: &mut Lines,
    of: &Subject<'_>,
    term: &Term,
) -> Result<(), NoMemory>
    ensures { OnOk result (Grows (IsLineIn (IsTypeRest of.now.world.now.packages of.now.path.now of.now.name.now (out-Term term.now)) of.now.path.now) lines.old lines.new) }
{
    match term {
        Term::Struct(fields) => add_struct(alloc, lines, of, fields.items()),
        Term::Interface(methods) => add_interface(alloc, lines, of, methods.items()),
        Term::Plain(_) => add_plain(alloc, lines, of, term),
        Term::Named(_) => add_plain(alloc, lines, of, term),
        Term::Pointer(_) => add_plain(alloc, lines, of, term),
        Term::Slice(_) => add_plain(alloc, lines, of, term),
        Term::Array(_, _) => add_plain(alloc, lines, of, term),
        Term::Map(_, _) => add_plain(alloc, lines, of, term),
        Term::Chan(_, _) => add_plain(alloc, lines, of, term),
        Term::Func(_) => add_plain(alloc, lines, of, term),
    }
}

fn is_interface(term: &Term) -> bool
    ensures { result ≡ is_interface (out-Term term.now) }
{
    matches!(term, Term::Interface(_))
}

// The lines of a type that the subject names, and whose underlying type is told.
fn add_all(
    alloc: Global,
    lines: &mut Lines,
    of: &Subject<'_>,
    term: &Term,
    underlying: &Term,
) -> Result<(), NoMemory>
    requires named { term.now ≡ defined_term of.now.path.now of.now.name.now }
    requires under { out-Term underlying.now ≡ under (table_of of.now.world.now.packages) term.now }
    ensures { OnOk result (Grows (IsLineIn (IsRest of.now.world.now.packages of.now.path.now of.now.name.now (entity.TypeOf term.now)) of.now.path.now) lines.old lines.new) }
{
    add_underlying(alloc, lines, of, underlying)?;
    if is_interface(underlying) {
        return Ok(());
    }
    add_methods(alloc, lines, of, term)?;
    Ok(())
}

// The lines of a type that the subject names, as its package holds it.
fn add_held(
    alloc: Global,
    lines: &mut Lines,
    of: &Subject<'_>,
    term: &Term,
    defined: &Defined,
) -> Result<(), NoMemory>
    requires named { term.now ≡ defined_term of.now.path.now of.now.name.now }
    requires held { IsHeld of.now.world.now.packages of.now.path.now of.now.name.now defined.now }
    ensures { OnOk result (Grows (IsLineIn (IsRest of.now.world.now.packages of.now.path.now of.now.name.now (entity.TypeOf term.now)) of.now.path.now) lines.old lines.new) }
{
    if promotes_none(&defined.underlying) {
        add_underlying(alloc, lines, of, &defined.underlying)?;
        add_own_methods(alloc, lines, of, defined)?;
        return Ok(());
    }
    add_all(alloc, lines, of, term, &defined.underlying)?;
    Ok(())
}

// The lines of a type that the subject names, also where no package holds it.
fn add_sought(
    alloc: Global,
    lines: &mut Lines,
    of: &Subject<'_>,
    term: &Term,
) -> Result<(), NoMemory>
    requires { term.now ≡ defined_term of.now.path.now of.now.name.now }
    ensures { OnOk result (Grows (IsLineIn (IsRest of.now.world.now.packages of.now.path.now of.now.name.now (entity.TypeOf term.now)) of.now.path.now) lines.old lines.new) }
{
    let error = error_type(alloc)?;
    let lookup = Lookup::new(of.world, &error);
    add_all(alloc, lines, of, term, lookup.under(term))
}

/// Adds the lines of a type that the subject names.
pub(crate) fn add_defined(
    alloc: Global,
    lines: &mut Lines,
    of: &Subject<'_>,
    term: &Term,
) -> Result<(), NoMemory>
    requires { term.now ≡ defined_term of.now.path.now of.now.name.now }
    ensures { OnOk result (Grows (IsLineIn (IsRest of.now.world.now.packages of.now.path.now of.now.name.now (entity.TypeOf term.now)) of.now.path.now) lines.old lines.new) }
{
    match of.defined() {
        Some(defined) => add_held(alloc, lines, of, term, defined),
        None => add_sought(alloc, lines, of, term),
    }
}
