//! Numbers of declarations in rows.
ghost use Rattle.std.specs.Prelude.{◌≡◌, ◌++◌, ◌∷◌, [], IfOk, OnOk};

use go_base::list::List;
use go_base::memory::NoMemory;

/// The number of a declaration as rows hold it; for one past 32 bits there is no memory.
pub(crate) fn to_number(number: usize) -> Result<u32, NoMemory>
    ensures { IfOk result (λ n. n ≡ number) }
{
    match u32::try_from(number) {
        Ok(number) => Ok(number),
        Err(_) => Err(NoMemory),
    }
}

/// Adds a number.
pub(crate) fn push(row: &mut List<u32>, number: usize) -> Result<(), NoMemory>
    ensures { OnOk result (row.new ≡ row.old ++ number ∷ []) }
{
    row.push(to_number(number)?)
}
