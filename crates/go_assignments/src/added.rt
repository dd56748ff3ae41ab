//! Names that are added to the innermost scope.
ghost use Rattle.std.specs.Prelude.{◌≡◌, IfOk, OnErr};
ghost use Rattle.go_assignments.specs.Definitions.{AddsName};

use go_base::memory::NoMemory;
use go_base::text::Text;
use go_rules::env::{DeclareError, Env};
use go_rules::seen::Seen;
use std::alloc::Global;

/// Gives a name this meaning in the innermost scope, unless that has the name; and says whether it was new.
pub fn add(env: &mut Env<'_>, alloc: Global, name: &Text, seen: Seen) -> Result<bool, NoMemory>
    ensures ok { IfOk result (AddsName env.old name.now seen env.new) }
    ensures err { OnErr result (env.new ≡ env.old) }
{
    let copy = name.copy()?;
    match env.declare(copy, seen) {
        Ok(()) => Ok(true),
        Err(DeclareError::Already) => Ok(false),
        Err(DeclareError::NoMemory) => Err(NoMemory),
    }
}
