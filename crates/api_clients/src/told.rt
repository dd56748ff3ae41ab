//! What is told of a client over a world.
ghost use Rattle.std.specs.Prelude.{◌≡◌, ◌⊎◌, IfOk, slice_get};
ghost use Rattle.api_clients.specs.ClientAnswers.{file_place, unit_place};
ghost use Rattle.api_clients.specs.inner.ClientSteps.{IsTold};
ghost use Rattle.go_clients.specs.Vetting.{IsClientPath, client_in};
ghost use Rattle.std.specs.Option.{option_copied};

use api_refusals::client_places::client_place;
use api_reports::clients::ClientAnswer;
use go_base::memory::NoMemory;
use go_base::text::Text;
use go_client_typings::vetted::Vetted;
use go_client_unit_laws::go_client_units::units::ClientUnit;
use go_clients::vet::vet;
use go_model::files::tree::TreeFile;
use go_model::types::world::World;
use go_syntax::name::Place;
use go_units::unit::UnitFile;
use std::alloc::Global;

fn file_place(
    alloc: Global,
    files: &[TreeFile],
    file: Option<&UnitFile>,
    offset: u32,
) -> Result<Text, NoMemory>
    ensures { IfOk result (λ text. text ≡ file_place files.now (option_copied file.entry) offset) }
{
    match file {
        None => Text::of(alloc, b""),
        Some(file) => client_place(alloc, files, file.path.bytes(), offset),
    }
}

fn file_at(files: &[UnitFile], number: usize) -> Option<&UnitFile>
    ensures { option_copied result ≡ slice_get files.now number }
{
    files.get(number)
}

// A place in the client's package.
fn unit_place(
    alloc: Global,
    files: &[TreeFile],
    client: Option<&ClientUnit>,
    place: Place,
) -> Result<Text, NoMemory>
    ensures { IfOk result (λ text. text ≡ unit_place files.now (client_in client.entry) place) }
{
    match client {
        None => Text::of(alloc, b""),
        Some(client) => {
            let file = file_at(client.unit.files.items(), place.file as usize);
            file_place(alloc, files, file, place.offset)
        }
    }
}

/// What is told of a client with these files over a world, where `int`, `uint` and `uintptr` have so many bits.
pub(crate) fn told(
    alloc: Global,
    files: &[TreeFile],
    world: &World,
    client: Option<&ClientUnit>,
    bits: u32,
) -> Result<ClientAnswer, NoMemory>
    requires bits { (bits ≡ 32) ⊎ (bits ≡ 64) }
    requires path { IsClientPath (client_in client) }
    ensures { IfOk result (IsTold files.now world.now bits (client_in client.entry)) }
{
    match vet(alloc, world, client, bits)? {
        Vetted::InProfile => Ok(ClientAnswer::InProfile),
        Vetted::TypedOutsideProfile => Ok(ClientAnswer::OutsideProfile),
        Vetted::Untyped(place) => {
            let place = unit_place(alloc, files, client, place)?;
            Ok(ClientAnswer::UntypedAt(place))
        }
    }
}
