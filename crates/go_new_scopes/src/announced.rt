//! The names that a package is known to declare.
ghost use Rattle.std.specs.Prelude.{◌≡◌, OnOk};
ghost use Rattle.go_declared.specs.NameTables.{entries_of};
ghost use Rattle.go_new_scopes.specs.inner.Announced.{with_names};

use go_base::memory::NoMemory;
use go_declared::names::{DeclaredNames, ListedName};
use go_rules::env::Env;
use std::alloc::Global;

fn announce_each(env: &mut Env<'_>, names: &[ListedName<'_>]) -> Result<(), NoMemory>
    ensures { OnOk result (env.new ≡ record env.old { announced = with_names env.old.announced (entries_of names.now) }) }
{
    for listed in names {
        env.announce(listed.name.copy()?)?;
    }
    Ok(())
}

/// Announces the names of the table, in its order.
pub(crate) fn announce(
    env: &mut Env<'_>,
    alloc: Global,
    names: &DeclaredNames,
) -> Result<(), NoMemory>
    ensures { OnOk result (env.new ≡ record env.old { announced = with_names env.old.announced names.now }) }
{
    let listed = names.in_order(alloc)?;
    announce_each(env, listed.items())
}
