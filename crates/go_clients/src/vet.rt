//! What is told of a client.
ghost use Rattle.std.specs.Prelude.{◌≡◌, ◌≢◌, ◌⊎◌, [], None, true, false, IfOk};
ghost use Rattle.go_base.specs.Keys.{first_with};
ghost use Rattle.go_check.specs.Answers.{IsWhollyRefusedAs, refusal_of};
ghost use Rattle.go_client_typings.specs.Clients.{IsProfileClient, IsVetted, setting};
ghost use Rattle.go_clients.specs.Vetting.{IsClientPath, IsVettedAs, client_in};
ghost use Rattle.go_clients.specs.inner.Told.{HasPackage, TellsError};
ghost use Rattle.go_model.specs.worlds.Worlds.{path_of};
ghost use Rattle.go_sources.specs.UnitSources.{source_of};

use crate::bodies::first_untyped;
use go_base::memory::NoMemory;
use go_check::check::check_client;
use go_check::error::CheckError;
use go_client_typings::vetted::Vetted;
use go_client_units::units::ClientUnit;
use go_model::laws::client_absent;
use go_model::types::world::World;
use std::alloc::Global;

// What is told of a client that isn't typed in the profile, and whose declarations are typed without its flag.
fn bodies_outside(
    alloc: Global,
    world: &World,
    client: &ClientUnit,
    bits: u32,
) -> Result<Vetted, NoMemory>
    requires bits { (bits ≡ 32) ⊎ (bits ≡ 64) }
    requires pathed { client.now.unit.path ≢ [] }
    requires absent { first_with path_of world.now.packages client.now.unit.path ≡ None }
    requires typed { HasPackage (setting world.now bits false) (source_of client.now.unit) }
    requires outside { IsProfileClient world.now bits (source_of client.now.unit) client.now.blocks → ⊥ }
    ensures { IfOk result (IsVetted world.now bits (source_of client.now.unit) client.now.blocks) }
{
    let found = first_untyped(alloc, client, world, bits, false)?;
    match found {
        None => Ok(Vetted::TypedOutsideProfile),
        Some(place) => Ok(Vetted::Untyped(place)),
    }
}

// What is told where the declarations aren't typed for this.
fn told_error(error: CheckError) -> Result<Vetted, NoMemory>
    ensures { IfOk result (TellsError error) }
{
    match error {
        CheckError::NoMemory => Err(NoMemory),
        CheckError::Redeclared(place) => Ok(Vetted::Untyped(place)),
        CheckError::MissingImport(place) => Ok(Vetted::Untyped(place)),
        CheckError::Unsound(place) => Ok(Vetted::Untyped(place)),
    }
}

// What is told of a client that isn't typed in the profile.
fn outside(alloc: Global, world: &World, client: &ClientUnit, bits: u32) -> Result<Vetted, NoMemory>
    requires bits { (bits ≡ 32) ⊎ (bits ≡ 64) }
    requires pathed { client.now.unit.path ≢ [] }
    requires absent { first_with path_of world.now.packages client.now.unit.path ≡ None }
    requires outside { IsProfileClient world.now bits (source_of client.now.unit) client.now.blocks → ⊥ }
    ensures { IfOk result (IsVetted world.now bits (source_of client.now.unit) client.now.blocks) }
{
    match check_client(alloc, &client.unit, world, bits, false) {
        Err(error) => told_error(error),
        Ok(_package) => bodies_outside(alloc, world, client, bits),
    }
}

// What is told of a client whose declarations are typed in the profile.
fn bodies_inside(
    alloc: Global,
    world: &World,
    client: &ClientUnit,
    bits: u32,
) -> Result<Vetted, NoMemory>
    requires bits { (bits ≡ 32) ⊎ (bits ≡ 64) }
    requires pathed { client.now.unit.path ≢ [] }
    requires absent { first_with path_of world.now.packages client.now.unit.path ≡ None }
    requires typed { HasPackage (setting world.now bits true) (source_of client.now.unit) }
    ensures { IfOk result (IsVetted world.now bits (source_of client.now.unit) client.now.blocks) }
{
    let found = first_untyped(alloc, client, world, bits, true)?;
    match found {
        None => Ok(Vetted::InProfile),
        Some(_) => outside(alloc, world, client, bits),
    }
}

// What is told of a client whose declarations aren't typed in the profile for this.
fn refused(
    alloc: Global,
    world: &World,
    client: &ClientUnit,
    bits: u32,
    error: CheckError,
) -> Result<Vetted, NoMemory>
    requires bits { (bits ≡ 32) ⊎ (bits ≡ 64) }
    requires pathed { client.now.unit.path ≢ [] }
    requires absent { first_with path_of world.now.packages client.now.unit.path ≡ None }
    requires refused { IsWhollyRefusedAs (setting world.now bits true) (source_of client.now.unit) (refusal_of error) }
    ensures { IfOk result (IsVetted world.now bits (source_of client.now.unit) client.now.blocks) }
{
    match error {
        CheckError::NoMemory => Err(NoMemory),
        CheckError::Redeclared(place) => Ok(Vetted::Untyped(place)),
        CheckError::MissingImport(place) => Ok(Vetted::Untyped(place)),
        CheckError::Unsound(_) => outside(alloc, world, client, bits),
    }
}

fn vet_unit(
    alloc: Global,
    world: &World,
    client: &ClientUnit,
    bits: u32,
) -> Result<Vetted, NoMemory>
    requires bits { (bits ≡ 32) ⊎ (bits ≡ 64) }
    requires pathed { client.now.unit.path ≢ [] }
    requires absent { first_with path_of world.now.packages client.now.unit.path ≡ None }
    ensures { IfOk result (IsVetted world.now bits (source_of client.now.unit) client.now.blocks) }
{
    match check_client(alloc, &client.unit, world, bits, true) {
        Err(error) => refused(alloc, world, client, bits, error),
        Ok(_package) => bodies_inside(alloc, world, client, bits),
    }
}

/// What is told of a client over the packages of its module, where `int`, `uint` and `uintptr` have so many bits; there is none
/// where no file of it remains, and then it is in the profile.
///
/// `Untyped` comes exactly where it isn't typed, with the place of the first name that is declared twice, else of the first import
/// that isn't found, else of the first declaration without a typing, else of the first statement of all bodies and function
/// literals, by file and offset. `InProfile` comes exactly where all of it holds with the profile's flag, and
/// `TypedOutsideProfile` exactly where it holds without the flag alone.
pub fn vet(
    alloc: Global,
    world: &World,
    client: Option<&ClientUnit>,
    bits: u32,
) -> Result<Vetted, NoMemory>
    requires bits { (bits ≡ 32) ⊎ (bits ≡ 64) }
    requires path { IsClientPath (client_in client) }
    ensures { IfOk result (IsVettedAs world.now bits (client_in client.entry)) }
{
    client_absent();
    // What a world keeps is told by its packages.
    let _packages = world.packages();
    match client {
        None => Ok(Vetted::InProfile),
        Some(client) => vet_unit(alloc, world, client, bits),
    }
}
