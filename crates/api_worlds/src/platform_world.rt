//! What trees have on a platform.
use go_base::list::List;
use go_base::text::Text;
use go_model::types::world::World;

/// What trees have on a platform.
pub struct PlatformWorld {
    /// The packages, typed.
    pub world: World,
    /// The declarations that were left out of them, by file and place, each as `FILE:LINE:COLUMN NAME: CAUSE`.
    pub left_out: List<Text>,
}

impl Drop for PlatformWorld {
    fn drop(self) {
        let PlatformWorld {
            world: _,
            left_out: _,
        } = self;
    }
}

impl PlatformWorld {
    ghost use Rattle.std.specs.Prelude.{◌≡◌};

    /// The packages and what was left out, moved out.
    pub fn into_parts(self) -> (World, List<Text>)
        ensures { result ≡ (self.world, self.left_out) }
    {
        let PlatformWorld { world, left_out } = self;
        (world, left_out)
    }
}
