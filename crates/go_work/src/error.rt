//! Why packages have no world.
use go_check::error::CheckError;
use go_units::unit::Unit;

/// The first package that is refused.
#[derive(Drop)]
pub enum WorkError {
    /// The number of the package in canonical order, from 0, the package itself, and why it is refused.
    Refused(u32, Unit, CheckError),
    NoMemory,
}
