//! The features of units, as they are printed.
ghost use Rattle.go_work.specs.Paths.{AreOfPackages};

use api_features::features::features as listed;
use api_lines::line::Line;
use go_base::steps::Steps;
use go_check::error::CheckError;
use go_model::files::platform::Platform;
use go_model::types::world::World;
use go_outside::gate::OpenGate;
use go_syntax::name::Place;
use go_units::unit::Unit;
use go_units::unit_list::Units;
use go_work::error::WorkError;
use go_work::world::world;
use std::alloc::{AllocError, Global};
use std::thread::Threads;

fn add_lines(text: &mut Vec<u8>, alloc: Global, lines: &[Line]) -> Result<(), AllocError> {
    for line in lines {
        let Ok(printed) = line.printed(alloc) else {
            return Err(AllocError);
        };
        text.extend_from_slice(printed.bytes())?;
        text.push(b'\n')?;
    }
    Ok(())
}

fn of_world(alloc: Global, world: &World) -> Result<Vec<u8>, AllocError> {
    let Ok(lines) = listed(alloc, world) else {
        return Err(AllocError);
    };
    let mut text = Vec::new(alloc);
    add_lines(&mut text, alloc, lines.items())?;
    Ok(text)
}

fn file_at(unit: &Unit, place: Place) -> &[u8] {
    match unit.files.items().get(place.file as usize) {
        Some(file) => file.path.bytes(),
        None => b"",
    }
}

fn said_at(alloc: Global, unit: &Unit, place: Place, word: &str) -> Result<Vec<u8>, AllocError> {
    let mut text = Vec::new(alloc);
    text.extend_from_slice(unit.path.bytes())?;
    text.push(b' ')?;
    text.extend_from_slice(file_at(unit, place))?;
    let offset = place.offset;
    text.extend_from_slice(format!(in alloc; ": {word} at {offset}\n")?.as_bytes())?;
    Ok(text)
}

fn of_refused(alloc: Global, unit: &Unit, error: CheckError) -> Result<Vec<u8>, AllocError> {
    match error {
        CheckError::Redeclared(place) => said_at(alloc, unit, place, "declared twice"),
        CheckError::MissingImport(place) => said_at(alloc, unit, place, "import not found"),
        CheckError::Unsound(place) => said_at(alloc, unit, place, "no typing"),
        CheckError::NoMemory => Err(AllocError),
    }
}

fn of_error(alloc: Global, error: WorkError) -> Result<Vec<u8>, AllocError> {
    match error {
        WorkError::NoMemory => Err(AllocError),
        WorkError::Refused(_, unit, error) => of_refused(alloc, &unit, error),
    }
}

/// The features of the public packages among these units, or the first refusal.
pub fn features<R: Threads + Sync>(
    rt: &R,
    alloc: Global,
    platform: Platform,
    units: Units,
) -> Result<Vec<u8>, AllocError>
    requires { AreOfPackages units.packages }
{
    let mut steps = Steps::new(());
    let bits = platform.int_bits();
    let answer = world(rt, alloc, units, bits, 1, &OpenGate, &mut steps);
    let _counted = steps.end();
    match answer {
        Ok(checked) => of_world(alloc, &checked.world),
        Err(error) => of_error(alloc, error),
    }
}
