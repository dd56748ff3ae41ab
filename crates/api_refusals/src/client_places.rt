//! Places in the files of a client, as its report prints them.
ghost use Rattle.std.specs.Prelude.{◌≡◌, IfOk};
ghost use Rattle.api_refusals.specs.Places.{client_place};

use crate::places::{bytes_at, push_place};
use go_base::memory::NoMemory;
use go_base::text::Text;
use go_model::files::tree::TreeFile;
use std::alloc::Global;

/// `FILE:LINE:COLUMN` of an offset in the file of a client with this path.
pub fn client_place(
    alloc: Global,
    client: &[TreeFile],
    path: &[u8],
    offset: u32,
) -> Result<Text, NoMemory>
    ensures { IfOk result (λ text. text ≡ client_place client.now path.now offset) }
{
    let mut text = Vec::from_slice(alloc, path)?;
    push_place(&mut text, bytes_at(client, path), offset)?;
    Text::from_vec(alloc, text)
}
