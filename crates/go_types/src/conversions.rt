//! Which types are convertible to which, for values that aren't constants.
ghost use Rattle.std.specs.Prelude.{◌≡◌, ◌&&◌, ◌||◌, IfOk};
ghost use Rattle.go_model.specs.worlds.Worlds.{table_of};
ghost use Rattle.go_selectors.specs.Answers.{Decides};
ghost use Rattle.go_model.specs.types.Tags.{bare};
ghost use Rattle.go_model.specs.types.Underlying.{under};
ghost use Rattle.go_model.specs.types.Imports.{is_imported_open};
ghost use Rattle.go_model.specs.types.Conversions.{UnderlyingConverts, PointerConverts, Convertible, class_converts, both_basic, is_text, is_character, is_characters, basics_convert};
ghost use Rattle.go_model.specs.declared.types.term.Term.{out-Term};

use crate::assignability;
use crate::imports::is_imported_open;
use crate::tags::untagged;
use go_model::constants::class::Class;
use go_model::constants::value::Basic;
use go_model::types::table::TypeTable;
use go_model::types::term::Term;
use go_model::types::world::World;
use go_selectors::go_base::memory::NoMemory;
use go_selectors::identity::identical;
use go_selectors::lookup::{Lookup, error_type};
use std::alloc::Global;

fn class_converts(from: Class, to: Class) -> bool
    ensures { result ≡ class_converts from to }
{
    match from {
        Class::Integer => matches!(to, Class::Integer | Class::Float | Class::Str),
        Class::Float => matches!(to, Class::Integer | Class::Float),
        Class::Complex => matches!(to, Class::Complex),
        _ => false,
    }
}

fn both_basic(from: &Term, to: &Term) -> bool
    ensures { result ≡ both_basic (out-Term from.now) (out-Term to.now) }
{
    match from {
        Term::Plain(a) => match to {
            Term::Plain(b) => class_converts(a.class(), b.class()),
            _ => false,
        },
        _ => false,
    }
}

fn is_text(term: &Term) -> bool
    ensures { result ≡ is_text (out-Term term.now) }
{
    matches!(term, Term::Plain(Basic::Str))
}

fn is_character(term: &Term) -> bool
    ensures { result ≡ is_character (out-Term term.now) }
{
    matches!(term, Term::Plain(Basic::Uint8 | Basic::Int32))
}

// Whether an underlying type is a slice of bytes or runes.
fn is_characters<'a, T: TypeTable>(types: &Lookup<'a, T>, term: &'a Term) -> bool
    ensures { result ≡ is_characters (T.lookup types.now.table.now) (out-Term term.now) }
{
    match term {
        Term::Slice(element) => is_character(types.under(element.value())),
        _ => false,
    }
}

fn basics_convert<'a, T: TypeTable>(types: &Lookup<'a, T>, from: &'a Term, to: &'a Term) -> bool
    ensures { result ≡ basics_convert (T.lookup types.now.table.now) from.now to.now }
{
    let left = types.under(from);
    let right = types.under(to);
    both_basic(left, right)
        || (is_text(left) && is_characters(types, right))
        || (is_characters(types, left) && is_text(right))
}

fn bare<'a, T: TypeTable>(
    alloc: Global,
    types: &Lookup<'a, T>,
    term: &'a Term,
) -> Result<Term, NoMemory>
    ensures { IfOk result (λ shown. shown ≡ bare (T.lookup types.now.table.now) term.now) }
{
    let shown = untagged(alloc, types.under(term))?;
    Ok(shown)
}

fn same_bare<'a, T: TypeTable>(
    alloc: Global,
    types: &Lookup<'a, T>,
    from: &'a Term,
    to: &'a Term,
) -> Result<bool, NoMemory>
    ensures { IfOk result (λ answer. Decides answer (bare (T.lookup types.now.table.now) from.now ≡ bare (T.lookup types.now.table.now) to.now)) }
{
    let left = bare(alloc, types, from)?;
    let right = bare(alloc, types, to)?;
    let same = identical(&left, &right);
    Ok(same)
}

fn is_barred<'a, T: TypeTable>(
    types: &Lookup<'a, T>,
    profile: bool,
    from: &'a Term,
    to: &'a Term,
) -> bool
    ensures { result ≡ (profile && (is_imported_open (T.lookup types.now.table.now) from.now || is_imported_open (T.lookup types.now.table.now) to.now)) }
{
    profile && (is_imported_open(types, from) || is_imported_open(types, to))
}

fn by_underlying<'a, T: TypeTable>(
    alloc: Global,
    types: &Lookup<'a, T>,
    profile: bool,
    from: &'a Term,
    to: &'a Term,
) -> Result<bool, NoMemory>
    ensures { IfOk result (λ answer. Decides answer (UnderlyingConverts (T.lookup types.now.table.now) profile from.now to.now)) }
{
    if is_barred(types, profile, from, to) {
        return Ok(false);
    }
    let same = same_bare(alloc, types, from, to)?;
    Ok(same)
}

fn by_pointer<'a, T: TypeTable>(
    alloc: Global,
    types: &Lookup<'a, T>,
    profile: bool,
    from: &'a Term,
    to: &'a Term,
) -> Result<bool, NoMemory>
    ensures { IfOk result (λ answer. Decides answer (PointerConverts (T.lookup types.now.table.now) profile from.now to.now)) }
{
    match from {
        Term::Pointer(base) => match to {
            Term::Pointer(other) => {
                let converts = by_underlying(alloc, types, profile, base.value(), other.value())?;
                Ok(converts)
            }
            _ => Ok(false),
        },
        _ => Ok(false),
    }
}

/// Whether a value of one type that isn't a constant is convertible to another, as [`convertible`]
/// says.
pub fn decide<'a, T: TypeTable>(
    alloc: Global,
    types: &Lookup<'a, T>,
    from: &'a Term,
    to: &'a Term,
    profile: bool,
) -> Result<bool, NoMemory>
    ensures { IfOk result (λ answer. Decides answer (Convertible (T.lookup types.now.table.now) profile from.now to.now)) }
{
    if basics_convert(types, from, to) {
        return Ok(true);
    }
    if by_underlying(alloc, types, profile, from, to)? {
        return Ok(true);
    }
    if by_pointer(alloc, types, profile, from, to)? {
        return Ok(true);
    }
    let answer = assignability::decide(alloc, types, from, to, profile)?;
    Ok(answer)
}

/// Whether a value of one type that isn't a constant is convertible to another, where a table of
/// types tells the names in both, as [`convertible`] says.
pub fn convertible_in<T: TypeTable>(
    alloc: Global,
    types: &T,
    from: &Term,
    to: &Term,
    profile: bool,
) -> Result<bool, NoMemory>
    ensures { IfOk result (λ answer. Decides answer (Convertible (T.lookup types.now) profile from.now to.now)) }
{
    let error = error_type(alloc)?;
    let lookup = Lookup::new(types, &error);
    let answer = decide(alloc, &lookup, from, to, profile)?;
    Ok(answer)
}

/// Whether a value of one type of a world that isn't a constant is convertible to another: between
/// basic types that convert, or a string and a slice of bytes or runes; where both are identical
/// underneath but for tags; between unnamed pointers to such bases; where it is assignable; else not.
/// In a client of the profile, which the flag is for, no defined struct or interface of another
/// package is converted by what is underneath it, and no unnamed pointer to one.
pub fn convertible(
    alloc: Global,
    world: &World,
    from: &Term,
    to: &Term,
    profile: bool,
) -> Result<bool, NoMemory>
    ensures { IfOk result (λ answer. Decides answer (Convertible (table_of world.now.packages) profile from.now to.now)) }
{
    convertible_in(alloc, world, from, to, profile)
}
