//! The packages of the world, which stand in blocks of lines.
use go_base::memory::NoMemory;
use go_model::types::world::World;
use std::alloc::Global;
use worlds::packages::{Making, add};
use worlds::read::{Stack, split};
use worlds::refusal::Refusal;

/// Whether a line stands in the block of a package.
#[derive(Drop)]
pub struct Blocks {
    within: bool,
}

impl Blocks {
    /// Before the first line.
    pub fn new() -> Blocks {
        Blocks { within: false }
    }

    /// Whether the next line stands in a block, the first and the last one of a block among them.
    pub fn holds(&mut self, line: &str) -> bool {
        if self.within {
            self.within = line != "end";
            return true;
        }
        self.within = line.starts_with("package ");
        self.within
    }
}

fn read_line(
    alloc: Global,
    world: &mut World,
    stack: &mut Stack,
    making: Option<Making>,
    line: &str,
) -> Result<Option<Making>, Refusal> {
    let Some(mut package) = making else {
        let (_, words) = split(line)?;
        return Ok(Some(Making::new(alloc, words)?));
    };
    if line == "end" {
        add(world, package.package(alloc)?)?;
        return Ok(None);
    }
    let (kind, words) = split(line)?;
    package.declare(alloc, stack, kind, words)?;
    Ok(Some(package))
}

/// Reads the packages, or gives the number of the first wrong line.
pub fn read_world(alloc: Global, world: &mut World, lines: &str) -> Result<Option<u64>, NoMemory> {
    let mut stack = Stack::new(alloc);
    let mut blocks = Blocks::new();
    let mut making = None;
    let mut number = 0u64;
    for line in lines.lines() {
        number = number.saturating_add(1);
        if blocks.holds(line) {
            making = match read_line(alloc, world, &mut stack, making, line) {
                Ok(making) => making,
                Err(Refusal::WrongLine) => return Ok(Some(number)),
                Err(Refusal::NoMemory) => return Err(NoMemory),
            };
        }
    }
    Ok(None)
}
