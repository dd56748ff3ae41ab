//! Lines that make a world, and its features.
use api_features::features::features;
use go_base::memory::NoMemory;
use go_model::types::world::World;
use std::alloc::Global;
use worlds::packages::{Making, add};
use worlds::read::{Stack, split};
use worlds::refusal::Refusal;

/// A world in the making.
#[derive(Drop)]
pub struct Reading {
    world: World,
    making: Option<Making>,
    stack: Stack,
}

fn feature_lines(alloc: Global, world: &World) -> Result<Vec<u8>, NoMemory> {
    let mut lines = Vec::new(alloc);
    for line in features(alloc, world)?.items() {
        lines.extend_from_slice(line.printed(alloc)?.bytes())?;
        lines.push(b'\n')?;
    }
    Ok(lines)
}

fn heading(alloc: Global, line: &str) -> Result<Vec<u8>, NoMemory> {
    let mut bytes = Vec::from_slice(alloc, line.as_bytes())?;
    bytes.push(b'\n')?;
    Ok(bytes)
}

impl Reading {
    /// No package.
    pub fn new(alloc: Global) -> Reading {
        Reading {
            world: World::empty(alloc),
            making: None,
            stack: Stack::new(alloc),
        }
    }

    // A line of a package.
    fn read(&mut self, alloc: Global, line: &str) -> Result<(), Refusal> {
        let Some(mut package) = self.making.take() else {
            let (word, words) = split(line)?;
            if word != "package" {
                return Err(Refusal::WrongLine);
            }
            self.making = Some(Making::new(alloc, words)?);
            return Ok(());
        };
        if line == "end" {
            return add(&mut self.world, package.package(alloc)?);
        }
        let (kind, words) = split(line)?;
        package.declare(alloc, &mut self.stack, kind, words)?;
        self.making = Some(package);
        Ok(())
    }

    /// What a line prints.
    pub fn answer(&mut self, alloc: Global, line: &str) -> Result<Vec<u8>, Refusal> {
        if line.starts_with('#') {
            return Ok(heading(alloc, line)?);
        }
        if line == "features" {
            let lines = feature_lines(alloc, &self.world)?;
            self.world = World::empty(alloc);
            return Ok(lines);
        }
        self.read(alloc, line)?;
        Ok(Vec::new(alloc))
    }
}
