//! Which types are assignable to which.
ghost use Rattle.std.specs.Prelude.{◌≡◌, ◌↔◌, ◌&&◌, ◌||◌, IsTrue, IfOk};
ghost use Rattle.go_model.specs.worlds.Worlds.{table_of};
ghost use Rattle.go_selectors.specs.Answers.{Decides};
ghost use Rattle.go_model.specs.types.Assignability.{UnderlyingAssigns, AreChannels, ChannelAssigns, Assignable};
ghost use Rattle.go_model.specs.types.Underlying.{under};
ghost use Rattle.go_model.specs.types.Imports.{is_named, is_imported_struct};
ghost use Rattle.go_model.specs.declared.types.term.Term.{out-Term};

use crate::implementing;
use crate::imports::{is_imported_struct, is_named};
use go_model::types::table::TypeTable;
use go_model::types::term::{Direction, Term};
use go_model::types::world::World;
use go_selectors::go_base::memory::NoMemory;
use go_selectors::identity::identical;
use go_selectors::lookup::{Lookup, error_type};
use std::alloc::Global;

fn are_named(from: &Term, to: &Term) -> bool
    ensures { result ≡ (is_named from.now && is_named to.now) }
{
    is_named(from) && is_named(to)
}

fn same_under<'a, T: TypeTable>(types: &Lookup<'a, T>, from: &'a Term, to: &'a Term) -> bool
    ensures { IsTrue result ↔ (under (T.lookup types.now.table.now) from.now ≡ under (T.lookup types.now.table.now) to.now) }
{
    identical(types.under(from), types.under(to))
}

fn is_barred<'a, T: TypeTable>(
    types: &Lookup<'a, T>,
    profile: bool,
    from: &'a Term,
    to: &'a Term,
) -> bool
    ensures { result ≡ (profile && (is_imported_struct (T.lookup types.now.table.now) from.now || is_imported_struct (T.lookup types.now.table.now) to.now)) }
{
    profile && (is_imported_struct(types, from) || is_imported_struct(types, to))
}

fn by_underlying<'a, T: TypeTable>(
    types: &Lookup<'a, T>,
    profile: bool,
    from: &'a Term,
    to: &'a Term,
) -> bool
    ensures { Decides result (UnderlyingAssigns (T.lookup types.now.table.now) profile from.now to.now) }
{
    if are_named(from, to) {
        return false;
    }
    if is_barred(types, profile, from, to) {
        return false;
    }
    same_under(types, from, to)
}

// Whether a channel of both directions has the element of another channel.
fn is_channel_of(from: &Term, to: &Term) -> bool
    ensures { Decides result (AreChannels (out-Term from.now) (out-Term to.now)) }
{
    match from {
        Term::Chan(Direction::Both, element) => match to {
            Term::Chan(_, other) => identical(element.value(), other.value()),
            _ => false,
        },
        _ => false,
    }
}

fn by_channel<'a, T: TypeTable>(types: &Lookup<'a, T>, from: &'a Term, to: &'a Term) -> bool
    ensures { Decides result (ChannelAssigns (T.lookup types.now.table.now) from.now to.now) }
{
    if are_named(from, to) {
        return false;
    }
    is_channel_of(types.under(from), types.under(to))
}

/// Whether a value of one type is assignable to another, as [`assignable`] says.
pub fn decide<'a, T: TypeTable>(
    alloc: Global,
    types: &Lookup<'a, T>,
    from: &'a Term,
    to: &'a Term,
    profile: bool,
) -> Result<bool, NoMemory>
    ensures { IfOk result (λ answer. Decides answer (Assignable (T.lookup types.now.table.now) profile from.now to.now)) }
{
    if identical(from, to) {
        return Ok(true);
    }
    if by_underlying(types, profile, from, to) {
        return Ok(true);
    }
    if by_channel(types, from, to) {
        return Ok(true);
    }
    let answer = implementing::decide(alloc, types, from, to)?;
    Ok(answer)
}

/// Whether a value of one type is assignable to another, where a table of types tells the names in
/// both, as [`assignable`] says.
pub fn assignable_in<T: TypeTable>(
    alloc: Global,
    types: &T,
    from: &Term,
    to: &Term,
    profile: bool,
) -> Result<bool, NoMemory>
    ensures { IfOk result (λ answer. Decides answer (Assignable (T.lookup types.now) profile from.now to.now)) }
{
    let error = error_type(alloc)?;
    let lookup = Lookup::new(types, &error);
    let answer = decide(alloc, &lookup, from, to, profile)?;
    Ok(answer)
}

/// Whether a value of one type of a world is assignable to another: where they are identical; or
/// identical underneath, and one isn't named; or a channel of both directions goes to a channel of
/// its element, and one isn't named; or the one implements the other, an interface; else not. In a
/// client of the profile, which the flag is for, no defined struct of another package is assigned by
/// what is underneath it.
pub fn assignable(
    alloc: Global,
    world: &World,
    from: &Term,
    to: &Term,
    profile: bool,
) -> Result<bool, NoMemory>
    ensures { IfOk result (λ answer. Decides answer (Assignable (table_of world.now.packages) profile from.now to.now)) }
{
    assignable_in(alloc, world, from, to, profile)
}
