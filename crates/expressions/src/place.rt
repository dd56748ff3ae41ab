//! Where expressions stand.
ghost use Rattle.std.specs.Prelude.{◌≤◌, length};

use go_base::memory::NoMemory;
use go_base::text::Text;
use go_model::types::world::World;
use go_rules::env::Env;
use std::alloc::Global;
use worlds::refusal::Refusal;

/// What is known where an expression stands, and how many scopes are open inside of the package's.
#[derive(Drop)]
pub struct Place<'w> {
    pub env: Env<'w>,
    depth: u64,
    ghost opened: { depth ≤ length env.opened },
}

impl<'w> Place<'w> {
    /// A package of no path, of which nothing is known.
    pub fn new(alloc: Global, world: &'w World) -> Result<Place<'w>, NoMemory> {
        let path = Text::of(alloc, b"")?;
        Ok(Place {
            env: Env::new(alloc, world, path, 64, false),
            depth: 0,
        })
    }

    /// The package of a path, of which nothing is known, where `int` has 64 bits or 32.
    pub fn of(alloc: Global, world: &'w World, path: Text, wide: bool, profile: bool) -> Place<'w> {
        if wide {
            return Place {
                env: Env::new(alloc, world, path, 64, profile),
                depth: 0,
            };
        }
        Place {
            env: Env::new(alloc, world, path, 32, profile),
            depth: 0,
        }
    }

    /// Opens a scope.
    pub fn open(&mut self) -> Result<(), Refusal> {
        self.env.open_scope()?;
        self.depth = self.depth.saturating_add(1);
        Ok(())
    }

    /// Ends the innermost scope; refused where none is open.
    pub fn close(&mut self) -> Result<(), Refusal> {
        if self.depth == 0 {
            return Err(Refusal::WrongLine);
        }
        self.env.close_scope();
        self.depth -= 1;
        Ok(())
    }
}
