//! Lists that grow by lists.
ghost use Rattle.std.specs.Prelude.{◌≡◌, ◌++◌, OnOk};

use go_base::list::List;
use go_base::memory::NoMemory;

/// Adds items at the end.
pub(crate) fn push_all<T: Drop>(items: &mut List<T>, more: List<T>) -> Result<(), NoMemory>
    ensures { OnOk result (items.new ≡ items.old ++ more) }
{
    for item in more.into_vec() {
        items.push(item)?;
    }
    Ok(())
}
