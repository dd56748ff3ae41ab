//! Packages with their world.
use go_model::types::world::World;
use go_units::unit::Unit;

/// Packages of a tree in canonical order, the bits of their `int`, and their world.
#[derive(Drop)]
pub struct UnitWorld<'a> {
    pub units: &'a [Unit],
    pub bits: u32,
    pub world: &'a World,
}
