//! Where the trees stand.
ghost use Rattle.std.specs.Prelude.{◌≡◌, IfOk};
ghost use Rattle.std.specs.Option.{option_copied};
ghost use Rattle.api_words.specs.Words.{IsNewFolder, IsOldFolder};

use crate::option_name::Mode;
use crate::values::copied;
use go_base::memory::NoMemory;
use go_base::text::Text;
use std::alloc::Global;

/// The folder of the old tree, where there is one.
pub(crate) fn old_folder(
    alloc: Global,
    mode: Mode,
    given: Option<&[u8]>,
) -> Result<Option<Text>, NoMemory>
    ensures { IfOk result (IsOldFolder mode (option_copied given.entry)) }
{
    if mode == Mode::Make {
        let folder = Text::of(alloc, b"old")?;
        return Ok(Some(folder));
    }
    copied(alloc, given)
}

/// The folder of the new tree.
pub(crate) fn new_folder(alloc: Global, given: Option<&[u8]>) -> Result<Text, NoMemory>
    ensures { IfOk result (IsNewFolder (option_copied given.entry)) }
{
    match given {
        None => Text::of(alloc, b"new"),
        Some(folder) => Text::of(alloc, folder),
    }
}
