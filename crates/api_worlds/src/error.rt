//! Why trees have no world on a platform.
use go_base::memory::NoMemory;
use go_base::text::Text;

/// Why trees have no world on a platform.
#[derive(Debug, Drop)]
pub enum PlatformError {
    /// They are refused there, with this fault line.
    Refused(Text),
    NoMemory,
}

impl From<NoMemory> for PlatformError {
    ghost use Rattle.std.specs.Prelude.{◌≡◌};
    ghost use Rattle.api_worlds.specs.declared.error.PlatformError.TheVariants.{NoMemory};

    ghost from_gives = { λ _ e. e ≡ NoMemory };

    fn from(_: NoMemory) -> PlatformError {
        PlatformError::NoMemory
    }
}
