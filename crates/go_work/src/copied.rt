//! Equal copies of what is left out of packages.
ghost use Rattle.std.specs.Prelude.{◌≡◌, IfOk};

use go_base::list::List;
use go_base::memory::NoMemory;
use go_base::text::Text;
use go_exposed::skipped::{Cause, Skipped};
use std::alloc::Global;

fn copied_names(alloc: Global, names: &[Text]) -> Result<List<Text>, NoMemory>
    ensures { IfOk result (λ copied. copied ≡ names.now) }
{
    let mut copied = List::with_room(alloc, names.len())?;
    for name in names {
        copied.push(name.copy()?)?;
    }
    Ok(copied)
}

fn copied_cause(cause: &Cause) -> Result<Cause, NoMemory>
    ensures { IfOk result (λ copied. copied ≡ cause.now) }
{
    match cause {
        Cause::Number => Ok(Cause::Number),
        Cause::ConstantType => Ok(Cause::ConstantType),
        Cause::ImportNotFound => Ok(Cause::ImportNotFound),
        Cause::By(name) => Ok(Cause::By(name.copy()?)),
    }
}

fn copied_one(alloc: Global, skipped: &Skipped) -> Result<Skipped, NoMemory>
    ensures { IfOk result (λ copied. copied ≡ skipped.now) }
{
    Ok(Skipped {
        place: skipped.place,
        names: copied_names(alloc, skipped.names.items())?,
        cause: copied_cause(&skipped.cause)?,
    })
}

/// The same declarations.
pub(crate) fn copied(alloc: Global, skipped: &[Skipped]) -> Result<List<Skipped>, NoMemory>
    ensures { IfOk result (λ copied. copied ≡ skipped.now) }
{
    let mut copied = List::with_room(alloc, skipped.len())?;
    for one in skipped {
        copied.push(copied_one(alloc, one)?)?;
    }
    Ok(copied)
}
